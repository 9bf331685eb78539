ghost use Rattle.std.specs.Prelude.{◌≡◌, ◌==◌, ◌-◌, ◌<◌, ◌≤◌, ◌^◌, length, min, Some, IsTrue};
ghost use Rattle.mr_file.specs.LogFile.{Rose};

use crate::log_file::{Failed, LogFile};
use std::alloc::{Allocator, Global};

/// A file in memory, whose calls can be made to fail. Where memory runs out it fails too.
#[derive(Drop)]
pub struct MemFile<A: Allocator = Global> {
    held: Vec<u8, A>,
    covered: usize,
    aside: Vec<u8, A>,
    /// Which call from now on fails, counted from 1. At 0 none does.
    countdown: u64,
    /// A write appends no more bytes.
    most: usize,
    failed: u64,
    ghost some: { 0 < most },
}

impl<A: Allocator> MemFile<A> {
    /// A file of these bytes, none of which was synced, and of others that were set aside. No call fails, and a write appends all
    /// of its piece.
    pub fn new(held: Vec<u8, A>, aside: Vec<u8, A>) -> Self
        ensures held { result.held ≡ held }
        ensures covered { result.covered ≡ 0 }
        ensures aside { result.aside ≡ aside }
        ensures countdown { result.countdown ≡ 0 }
        ensures most { result.most ≡ 2 ^ 64 - 1 }
        ensures failed { result.failed ≡ 0 }
    {
        MemFile {
            held,
            covered: 0,
            aside,
            countdown: 0,
            most: usize::MAX,
            failed: 0,
        }
    }

    /// Its bytes.
    pub fn bytes(&self) -> &[u8]
        ensures { result.now ≡ self.now.held.items }
    {
        self.held.as_slice()
    }

    /// How many bytes the last sync covered.
    pub fn synced(&self) -> usize
        ensures { result ≡ self.now.covered }
    {
        self.covered
    }

    /// What was set aside, one piece behind another.
    pub fn aside(&self) -> &[u8]
        ensures { result.now ≡ self.now.aside.items }
    {
        self.aside.as_slice()
    }

    /// The k-th call from now on fails and does nothing, counted from 1. Later calls work.
    pub fn fail_at(&mut self, k: u64)
        ensures countdown { self.new.countdown ≡ k }
        ensures held { self.new.held ≡ self.old.held }
        ensures covered { self.new.covered ≡ self.old.covered }
        ensures aside { self.new.aside ≡ self.old.aside }
        ensures most { self.new.most ≡ self.old.most }
        ensures failed { self.new.failed ≡ self.old.failed }
    {
        self.countdown = k;
    }

    /// From now on a write appends at most so many bytes.
    pub fn short(&mut self, most: usize)
        requires { 0 < most }
        ensures most { self.new.most ≡ most }
        ensures held { self.new.held ≡ self.old.held }
        ensures covered { self.new.covered ≡ self.old.covered }
        ensures aside { self.new.aside ≡ self.old.aside }
        ensures countdown { self.new.countdown ≡ self.old.countdown }
        ensures failed { self.new.failed ≡ self.old.failed }
    {
        self.most = most;
    }

    /// Counts a failure. The count stays at its greatest.
    fn count_failure(&mut self)
        ensures held { self.new.held ≡ self.old.held }
        ensures covered { self.new.covered ≡ self.old.covered }
        ensures aside { self.new.aside ≡ self.old.aside }
        ensures countdown { self.new.countdown ≡ self.old.countdown }
        ensures later { self.old.failed ≤ self.new.failed }
        ensures rose { Rose self.old.failed self.new.failed }
    {
        self.failed = self.failed.saturating_add(1);
    }

    /// Covers all bytes.
    fn cover(&mut self)
        ensures held { self.new.held ≡ self.old.held }
        ensures covered { self.new.covered ≡ length self.old.held.items }
        ensures aside { self.new.aside ≡ self.old.aside }
        ensures failed { self.new.failed ≡ self.old.failed }
    {
        let len = self.held.len();
        self.covered = len;
    }

    /// Covers no byte behind the first so many.
    fn uncover(&mut self, len: u64)
        ensures held { self.new.held ≡ self.old.held }
        ensures covered { self.new.covered ≡ min self.old.covered len }
        ensures aside { self.new.aside ≡ self.old.aside }
        ensures failed { self.new.failed ≡ self.old.failed }
    {
        self.covered = self.covered.min(len as usize);
    }

    /// Whether this call is to fail, in which case the failure is counted.
    fn fails(&mut self) -> bool
        ensures held { self.new.held ≡ self.old.held }
        ensures covered { self.new.covered ≡ self.old.covered }
        ensures aside { self.new.aside ≡ self.old.aside }
        ensures due { result ≡ (self.old.countdown == 1) }
        ensures countdown { self.new.countdown ≡ self.old.countdown - 1 }
        ensures later { self.old.failed ≤ self.new.failed }
        ensures rose { IsTrue result → Rose self.old.failed self.new.failed }
    {
        if self.countdown == 0 {
            return false;
        }
        self.countdown -= 1;
        if self.countdown != 0 {
            return false;
        }
        self.count_failure();
        true
    }
}

impl<A: Allocator> LogFile for MemFile<A> {
    ghost told = { λ f. Some f.held.items };

    ghost synced = { λ f. Some f.covered };

    ghost aside = { λ f. Some f.aside.items };

    ghost failures = { λ f. f.failed };

    fn read(&mut self, at: u64, into: &mut [u8]) -> Result<usize, Failed> {
        if self.fails() {
            return Err(Failed);
        }
        let from = if at < self.held.len() as u64 {
            at as usize
        } else {
            self.held.len()
        };
        let rest = &self.held[from..];
        let count = rest.len().min(into.len());
        into[..count].copy_from_slice(&rest[..count]);
        Ok(count)
    }

    fn write(&mut self, piece: &[u8]) -> Result<usize, Failed> {
        if self.fails() {
            return Err(Failed);
        }
        let count = piece.len().min(self.most);
        match self.held.extend_from_slice(&piece[..count]) {
            Ok(()) => Ok(count),
            Err(_refused) => {
                self.count_failure();
                Err(Failed)
            }
        }
    }

    fn sync(&mut self) -> Result<(), Failed> {
        if self.fails() {
            return Err(Failed);
        }
        self.cover();
        Ok(())
    }

    fn set_aside(&mut self, from: u64) -> Result<(), Failed> {
        if self.fails() {
            return Err(Failed);
        }
        let at = if from < self.held.len() as u64 {
            from as usize
        } else {
            self.held.len()
        };
        match self.aside.extend_from_slice(&self.held[at..]) {
            Ok(()) => Ok(()),
            Err(_refused) => {
                self.count_failure();
                Err(Failed)
            }
        }
    }

    fn cut(&mut self, len: u64) -> Result<(), Failed> {
        if self.fails() {
            return Err(Failed);
        }
        self.uncover(len);
        if len < self.held.len() as u64 {
            self.held.truncate(len as usize);
        }
        Ok(())
    }

    fn replace(&mut self, whole: &[u8]) -> Result<(), Failed> {
        if self.fails() {
            return Err(Failed);
        }
        let missing = whole.len().saturating_sub(self.held.len());
        if self.held.reserve(missing).is_err() {
            self.count_failure();
            return Err(Failed);
        }
        self.held.clear();
        match self.held.extend_from_slice(whole) {
            Ok(()) => {
                self.cover();
                Ok(())
            }
            Err(_refused) => unreachable!(),
        }
    }
}
