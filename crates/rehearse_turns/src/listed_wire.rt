//! What the calls on a wire are to come to.
use mr_wire::{Accepting, Connecting, MemWire, Reading, Waiting, Writing};
use rehearse_shared::{RehearsalFault, bytes_of, count_of};
use std::alloc::Global;
use std::collections::VecDeque;
use std::mem;

/// What the calls on a wire in memory are to come to, as lines list it.
#[derive(Drop)]
pub struct ListedWire {
    alloc: Global,
    waits: VecDeque<Waiting>,
    accepts: VecDeque<Accepting>,
    connects: VecDeque<Connecting>,
    /// Of the link that is listed next.
    reads: VecDeque<Reading>,
    writes: VecDeque<Writing>,
}

impl ListedWire {
    /// Nothing is listed.
    pub fn new(alloc: Global) -> ListedWire {
        ListedWire {
            alloc,
            waits: VecDeque::new(alloc),
            accepts: VecDeque::new(alloc),
            connects: VecDeque::new(alloc),
            reads: VecDeque::new(alloc),
            writes: VecDeque::new(alloc),
        }
    }

    /// The wire whose calls come to what was listed.
    pub fn take(&mut self) -> MemWire {
        let waits = mem::replace(&mut self.waits, VecDeque::new(self.alloc));
        let accepts = mem::replace(&mut self.accepts, VecDeque::new(self.alloc));
        let connects = mem::replace(&mut self.connects, VecDeque::new(self.alloc));
        MemWire::new(self.alloc, waits, accepts, connects)
    }

    /// Lists what a wait is to come to. Fails where a word says none of it.
    pub fn list_wait(&mut self, word: &str) -> Result<(), RehearsalFault> {
        let waiting = match word {
            "done" => Waiting::Done,
            "failed" => Waiting::Failed,
            _ => return Err(RehearsalFault::Line),
        };
        self.waits.push_back(waiting)?;
        Ok(())
    }

    /// Lists what a read is to come to, of the link that is listed next. Fails where a word says none of it.
    pub fn list_read(&mut self, word: &str) -> Result<(), RehearsalFault> {
        let reading = match word {
            "not-ready" => Reading::NotReady,
            "end" => Reading::End,
            "failed" => Reading::Failed,
            bytes => Reading::Bytes(bytes_of(self.alloc, bytes)?),
        };
        self.reads.push_back(reading)?;
        Ok(())
    }

    /// Lists what a write is to come to, of the link that is listed next. Fails where a word says none of it.
    pub fn list_write(&mut self, word: &str) -> Result<(), RehearsalFault> {
        let writing = match word {
            "all" => Writing::AtMost(usize::MAX),
            "not-ready" => Writing::NotReady,
            "failed" => Writing::Failed,
            count => Writing::AtMost(count_of(count)? as usize),
        };
        self.writes.push_back(writing)?;
        Ok(())
    }

    /// Lists what an accept is to come to: a link has the reads and writes that were listed for it. Fails where a word
    /// says none of it.
    pub fn list_accept(&mut self, word: &str) -> Result<(), RehearsalFault> {
        match word {
            "link" => {
                let (reads, writes) = self.take_listed();
                self.accepts.push_back(Accepting::Link(reads, writes))?
            }
            "not-ready" => self.accepts.push_back(Accepting::NotReady)?,
            "failed" => self.accepts.push_back(Accepting::Failed)?,
            _ => return Err(RehearsalFault::Line),
        }
        Ok(())
    }

    /// Lists what a connect is to come to: a link has the reads and writes that were listed for it. Fails where a word
    /// says none of it.
    pub fn list_connect(&mut self, word: &str) -> Result<(), RehearsalFault> {
        match word {
            "link" => {
                let (reads, writes) = self.take_listed();
                self.connects.push_back(Connecting::Link(reads, writes))?
            }
            "failed" => self.connects.push_back(Connecting::Failed)?,
            _ => return Err(RehearsalFault::Line),
        }
        Ok(())
    }

    /// The reads and writes that were listed since the link before.
    fn take_listed(&mut self) -> (VecDeque<Reading>, VecDeque<Writing>) {
        let reads = mem::replace(&mut self.reads, VecDeque::new(self.alloc));
        let writes = mem::replace(&mut self.writes, VecDeque::new(self.alloc));
        (reads, writes)
    }
}
