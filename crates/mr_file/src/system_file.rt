ghost use Rattle.std.specs.Prelude.{◌≡◌, ◌≤◌, None, string_bytes};
ghost use Rattle.mr_file.specs.LogFile.{Rose};

use crate::again::{read_again, write_again};
use crate::beside::{Aside, Names, copied, made_like, sync_folder};
use crate::change::{Change, Sight};
use crate::log_file::{Failed, LogFile};
use crate::open_fault::OpenFault;
use crate::opening::{locked, make_sure, opened_regular, remove_left};
use std::alloc::AllocError;
use std::fs::File;
use std::io::{ErrorKind, Write};
use std::{fs, io};

/// So many descriptors are kept in reserve, so that a replacement has what it needs whoever takes all others.
const RESERVE: usize = 8;

/// A file of the system, which no other `SystemFile` writes while this one is there, under whatever name: it holds its lock, and
/// that of an empty file under the same name with `.lock` behind it, which stays. A replacement is written under the name with
/// `.minired-new` behind it, and takes the file's name once it is on the disk; what is set aside is under the name with `.cut-1`
/// behind it, or with the next number that is free. These names are that of the file which a path led to at the start, behind all
/// links.
#[derive(Drop)]
pub struct SystemFile {
    rt: HostRuntime,
    names: Names,
    file: File,
    lock: File,
    /// How many bytes the file has by what was done to it here.
    length: u64,
    /// Descriptors that nobody else can take, and how many they are to be.
    reserve: Vec<File>,
    wanted: usize,
    aside: Option<Aside>,
    why: Option<io::Error>,
    failed: u64,
}

/// Takes as many descriptors as are missing in a reserve: further ones of an open file.
fn fill(reserve: &mut Vec<File>, wanted: usize, open: &File) -> io::Result<()> {
    for _ in reserve.len()..wanted {
        let spare = open.try_clone()?;
        reserve.push(spare).map_err(AllocError::from)?;
    }
    Ok(())
}

impl SystemFile {
    /// Opens the file at a path, or makes an empty one, whose name reaches the disk. What is no regular file is refused, at the path
    /// and under the lock's name. What a replacement left beside it that never took its place is removed.
    pub fn open(rt: HostRuntime, path: &str) -> Result<SystemFile, OpenFault> {
        // What can't be opened gets no lock, and what was replaced before the lock was taken is opened anew.
        let made = make_sure(&rt, path)?;
        let names = Names::of(&rt, path)?;
        let lock = locked(&rt, names.lock.as_str())?;
        let file = opened_regular(&rt, names.file.as_str())?;
        file.try_lock()?;
        if made {
            sync_folder(&rt, names.file.as_str())?;
        }
        remove_left(&rt, names.new.as_str());
        let length = file.metadata()?.len();
        let reserve = Vec::new(rt.alloc());
        Ok(SystemFile {
            rt,
            names,
            file,
            lock,
            length,
            reserve,
            wanted: 0,
            aside: None,
            why: None,
            failed: 0,
        })
    }

    /// Keeps descriptors in reserve from now on, for replacements.
    pub fn keep_reserve(&mut self) -> io::Result<()> {
        self.wanted = RESERVE;
        fill(&mut self.reserve, self.wanted, &self.lock)
    }

    /// The file's name, behind all links.
    pub fn path(&self) -> &str
        ensures { result.now ≡ string_bytes self.now.names.file }
    {
        let name = &self.names.file;
        name.as_str()
    }

    /// The copy that was set aside last.
    pub fn aside(&self) -> Option<&Aside> {
        self.aside.as_ref()
    }

    /// What became of the file that wasn't done here, if anything did. Where the system doesn't tell, nothing did.
    pub fn change(&self) -> Option<Change> {
        let open = Sight::of(&self.file.metadata().ok()?);
        let named = match fs::metadata(&self.rt, self.names.file.as_str()) {
            Ok(known) => Some(Sight::of(&known)),
            Err(error) => match error.kind() {
                ErrorKind::NotFound | ErrorKind::NotADirectory => None,
                _ => return None,
            },
        };
        open.change(named, self.length)
    }

    /// Why the last call that failed did so.
    pub fn why(&self) -> io::Error {
        let Some(error) = &self.why else {
            return io::Error::from(ErrorKind::Other);
        };
        match error.raw_os_error() {
            Some(code) => io::Error::from_raw_os_error(code),
            None => io::Error::from(error.kind()),
        }
    }

    /// Remembers why a call fails, and counts the failure. The count stays at its greatest.
    fn failure(&mut self, error: io::Error) -> Failed
        ensures later { self.old.failed ≤ self.new.failed }
        ensures rose { Rose self.old.failed self.new.failed }
    {
        self.why = Some(error);
        self.failed = self.failed.saturating_add(1);
        Failed
    }

    /// Writes these bytes to a file under the name for it, and gives it the file's name once they are on the disk. Who opens it then
    /// finds it locked.
    fn written(&self, mut file: File, whole: &[u8]) -> io::Result<File> {
        file.try_lock()?;
        file.write_all(whole)?;
        file.sync_all()?;
        fs::rename(&self.rt, self.names.new.as_str(), self.names.file.as_str())?;
        Ok(file)
    }

    /// Has these bytes take the file's place. What stands under the name for them already isn't of this file, and stays.
    fn replaced(&mut self, whole: &[u8]) -> io::Result<()>
        ensures { self.new.failed ≡ self.old.failed }
    {
        let made = made_like(&self.rt, &self.file, self.names.new.as_str())?;
        match self.written(made, whole) {
            Ok(file) => {
                self.file = file;
                self.length = whole.len() as u64;
                sync_folder(&self.rt, self.names.file.as_str())
            }
            Err(error) => {
                let _removed = fs::remove_file(&self.rt, self.names.new.as_str());
                Err(error)
            }
        }
    }
}

impl LogFile for SystemFile {
    ghost told = { λ _. None };

    ghost synced = { λ _. None };

    ghost aside = { λ _. None };

    ghost failures = { λ f. f.failed };

    fn read(&mut self, at: u64, into: &mut [u8]) -> Result<usize, Failed> {
        let count = match read_again(&self.file, into, at) {
            Ok(count) => count,
            Err(error) => return Err(self.failure(error)),
        };
        if at.checked_add(count as u64).is_none() {
            return Err(self.failure(io::Error::from(ErrorKind::InvalidData)));
        }
        Ok(count)
    }

    fn write(&mut self, piece: &[u8]) -> Result<usize, Failed> {
        let count = match write_again(&mut self.file, piece) {
            Ok(count) => count,
            Err(error) => return Err(self.failure(error)),
        };
        if count == 0 && !piece.is_empty() {
            return Err(self.failure(io::Error::from(ErrorKind::WriteZero)));
        }
        self.length = self.length.saturating_add(count as u64);
        Ok(count)
    }

    fn sync(&mut self) -> Result<(), Failed> {
        match self.file.sync_data() {
            Ok(()) => Ok(()),
            Err(error) => Err(self.failure(error)),
        }
    }

    fn set_aside(&mut self, from: u64) -> Result<(), Failed> {
        match copied(&self.rt, &self.file, self.names.file.as_str(), from) {
            Ok(aside) => {
                self.aside = Some(aside);
                Ok(())
            }
            Err(error) => Err(self.failure(error)),
        }
    }

    fn cut(&mut self, len: u64) -> Result<(), Failed> {
        match self.file.set_len(len) {
            Ok(()) => {
                self.length = len;
                Ok(())
            }
            Err(error) => Err(self.failure(error)),
        }
    }

    fn replace(&mut self, whole: &[u8]) -> Result<(), Failed> {
        self.reserve.clear();
        let replaced = self.replaced(whole);
        let _filled = fill(&mut self.reserve, self.wanted, &self.lock);
        match replaced {
            Ok(()) => Ok(()),
            Err(error) => Err(self.failure(error)),
        }
    }
}
