//! What becomes of an open file that its writer didn't do.
ghost use Rattle.std.specs.Prelude.{◌≡◌};
ghost use Rattle.mr_file.specs.Change.{change_of, is_same};

use std::fs::Metadata;
use std::os::unix::fs::MetadataExt;
use thiserror::Error;

/// What became of a file whose name others may use too.
#[derive(Clone, Copy, Debug, PartialEq, Eq, Error)]
pub enum Change {
    /// Its name leads nowhere.
    #[error("it was removed")]
    Removed,
    /// Its name leads to another file.
    #[error("another file is in its place")]
    Replaced,
    /// It has so many bytes, and so many were written.
    #[error("it has {0} bytes, and {1} were written")]
    Resized(u64, u64),
}

/// What the system says of a file: its device, its number there, and how many bytes it has.
#[derive(Clone, Copy, Debug, PartialEq, Eq)]
pub(crate) struct Sight {
    device: u64,
    number: u64,
    length: u64,
}

impl Sight {
    /// What is known of a file.
    pub(crate) fn of(known: &Metadata) -> Sight {
        Sight {
            device: known.dev(),
            number: known.ino(),
            length: known.len(),
        }
    }

    /// Whether both are the same file.
    pub(crate) fn is_same(&self, other: &Sight) -> bool
        ensures { result ≡ is_same self.now other.now }
    {
        self.device == other.device && self.number == other.number
    }

    /// What became of this open file, to which so many bytes were written, where its name leads to another one or to none.
    pub(crate) fn change(&self, named: Option<Sight>, written: u64) -> Option<Change>
        ensures { result ≡ change_of self.now named written }
    {
        let Some(named) = named else {
            return Some(Change::Removed);
        };
        if !self.is_same(&named) {
            return Some(Change::Replaced);
        }
        if self.length == written {
            return None;
        }
        Some(Change::Resized(self.length, written))
    }
}
