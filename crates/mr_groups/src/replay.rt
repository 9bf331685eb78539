ghost use Rattle.std.specs.Prelude.{◌≡◌, ◌+◌, ◌≤◌, ◌++◌, ℕ, List, [], length, drop, IfOk, OnOk};
ghost use Rattle.std.specs.FinMap.{empty};
ghost use Rattle.mr_groups.specs.Readers.{HasRead, IsFresh};
ghost use Rattle.mr_groups.specs.Replaying.{IsReadByGroups, IsReadUpTo, IsRest};

use crate::front::{Rest, apply_front};
use crate::reader::Reader;
use mr_buffer::reserve;
use mr_data::Dataset;
use std::alloc::{AllocError, Global};
use std::hash::RandomState;

/// More room isn't kept once the group that it was needed for is done: as many bytes as a turn of the event loop reads of one
/// connection.
const MOST_ROOM: usize = 4_194_304;

/// A dataset that is made from the texts of groups, and notes between them, as they come in pieces. It keeps the bytes behind the
/// last group that was done or note that was passed, and what was read of the group there, so that each part of a long one is read
/// once. A note that isn't whole is at most 65,537 bytes, which are gone through once more with each piece.
#[derive(Drop)]
pub struct GroupReplay {
    alloc: Global,
    dataset: Dataset,
    unread: Vec<u8>,
    reader: Reader,
}

impl GroupReplay {
    /// Nothing was read yet. The dataset's look-ups go by a hash with this seed.
    pub fn new(alloc: Global, seed: RandomState) -> Self
        ensures dataset { result.dataset ≡ empty }
        ensures unread { result.unread.items ≡ [] }
        ensures reader { IsFresh result.reader }
    {
        GroupReplay {
            alloc,
            dataset: Dataset::new(alloc, seed),
            unread: Vec::new(alloc),
            reader: Reader::new(alloc),
        }
    }

    /// Takes the next bytes, does the groups whose texts are there whole, each as a whole, and passes the notes between them. Where
    /// a group could be done in part alone, or after an `Err`, the dataset is of no use: some effects may be done.
    pub fn feed(&mut self, piece: &[u8]) -> Result<Rest, AllocError>
        requires { HasRead self.old.reader self.old.unread.items }
        ensures read { IfOk result (λ rest. (bytes : List ℕ) →
            IsReadByGroups bytes self.old.dataset self.old.unread.items
            → IsReadUpTo (bytes ++ piece.now) self.new.dataset self.new.unread.items rest) }
        ensures left { IfOk result (λ rest. IsRest self.new.dataset self.new.unread.items rest) }
        ensures shorter { OnOk result (length self.new.unread.items ≤
            length self.old.unread.items + length piece.now) }
        ensures kept { OnOk result (HasRead self.new.reader self.new.unread.items) }
    {
        reserve(&mut self.unread, piece.len())?;
        self.unread.extend_from_slice(piece)?;
        let applied = apply_front(
            self.alloc,
            &mut self.dataset,
            &mut self.reader,
            self.unread.as_slice(),
        );
        let rest = applied.rest?;
        drop_front(&mut self.unread, applied.used);
        Ok(rest)
    }

    /// The bytes behind the last group that was done or note that was passed.
    pub fn unread(&self) -> &[u8]
        ensures { result.now ≡ self.now.unread.items }
    {
        &self.unread[..]
    }

    /// The dataset that was made.
    pub fn into_dataset(self) -> Dataset
        ensures { result ≡ self.dataset }
    {
        self.dataset
    }
}

/// Drops the first bytes, and much room with them. Where there are none, nothing is moved: so the pieces of a long group cost no
/// more than their bytes.
fn drop_front(bytes: &mut Vec<u8>, used: usize)
    requires { used ≤ length bytes.old.items }
    ensures { bytes.new.items ≡ drop used bytes.old.items }
{
    if used == 0 {
        return;
    }
    let left = bytes.len() - used;
    bytes.copy_within(used.., 0);
    bytes.truncate(left);
    bytes.shrink_to(MOST_ROOM);
}
