//! The file that a node is to start with, and which of its calls fail.
use mr_file::{MemFile, SyncMode};
use rehearse_shared::{RehearsalFault, bytes_of, count_of};
use std::alloc::Global;
use std::mem;

/// A file in memory, as lines describe it.
#[derive(Drop)]
pub struct ListedFile {
    alloc: Global,
    held: Vec<u8>,
    mode: SyncMode,
    /// Which call fails, counted from 1. At 0 none does.
    fails: u64,
    /// A write appends no more bytes. At 0 it appends all.
    most: usize,
}

impl ListedFile {
    /// An empty file, each append to which is synced, and no call on which fails.
    pub fn new(alloc: Global) -> ListedFile {
        ListedFile {
            alloc,
            held: Vec::new(alloc),
            mode: SyncMode::Always,
            fails: 0,
            most: 0,
        }
    }

    /// The file that was described, and whether each append to it is to be synced. The next one is the usual one.
    pub fn take(&mut self) -> (MemFile, SyncMode) {
        let usual = ListedFile::new(self.alloc);
        let ListedFile {
            alloc,
            held,
            mode,
            fails,
            most,
        } = mem::replace(self, usual);
        let mut file = MemFile::new(held, Vec::new(alloc));
        file.fail_at(fails);
        if most > 0 {
            file.short(most);
        }
        (file, mode)
    }

    /// The file holds the bytes that a word spells.
    pub fn set_held(&mut self, word: &str) -> Result<(), RehearsalFault> {
        self.held = bytes_of(self.alloc, word)?;
        Ok(())
    }

    /// Each append is synced, or none, as a word says. Fails where it says neither.
    pub fn set_mode(&mut self, word: &str) -> Result<(), RehearsalFault> {
        self.mode = match word {
            "always" => SyncMode::Always,
            "no" => SyncMode::No,
            _ => return Err(RehearsalFault::Line),
        };
        Ok(())
    }

    /// The call fails whose number a word spells.
    pub fn set_fails(&mut self, word: &str) -> Result<(), RehearsalFault> {
        self.fails = count_of(word)?;
        Ok(())
    }

    /// A write appends no more bytes than a word spells.
    pub fn set_most(&mut self, word: &str) -> Result<(), RehearsalFault> {
        self.most = count_of(word)? as usize;
        Ok(())
    }
}
