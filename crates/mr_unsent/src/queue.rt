// Bytes of one link's own.
ghost use Rattle.std.specs.Prelude.{◌≡◌, ◌++◌, ◌≤◌, ◌↔◌, [], length, drop, IsTrue, OnOk, OnErr};

use std::alloc::{AllocError, Global};
use std::marker::Model;
use std::mem;

/// No more room than this is ever given back.
const LEAST_ROOM: usize = 65_536;

/// As many bytes as a turn of the event loop reads of one connection. More room is given back as soon as nothing waits.
const MOST_ROOM: usize = 4_194_304;

/// Room that this many rests in succession found unneeded is given back.
const RESTS: u8 = 8;

/// Bytes that wait, in order, and belong to nobody else. Bytes that were moved make room only when more come and they are more
/// than what waits, so that fewer bytes are shifted than were moved. Room is kept for what comes next as long as about as much of
/// it is needed now and then: growing copies what waits.
#[derive(Drop)]
pub(crate) struct Queue {
    alloc: Global,
    bytes: Vec<u8>,
    /// How many of the bytes were moved.
    moved: usize,
    /// How many bytes there were at most since the last rest, those included that were moved.
    needed: usize,
    /// How many rests in succession found most of the room unneeded.
    unneeded: u8,
}

impl Model for Queue {
    ghost use Rattle.std.specs.Prelude.{ℕ, List, ◌≤◌, length, drop};

    ghost Value = { List ℕ };

    ghost view = { λ u. drop u.moved u.bytes.items };

    ghost invariant = { λ u. u.moved ≤ length u.bytes.items };
}

impl Queue {
    /// Nothing.
    pub(crate) fn new(alloc: Global) -> Queue
        ensures { result ≡ [] }
    {
        Queue {
            alloc,
            bytes: Vec::new(alloc),
            moved: 0,
            needed: 0,
            unneeded: 0,
        }
    }

    /// What waits.
    pub(crate) fn waiting(&self) -> &[u8]
        ensures { result.now ≡ self.now }
    {
        &self.bytes[self.moved..]
    }

    /// Whether nothing waits.
    pub(crate) fn is_empty(&self) -> bool
        ensures { IsTrue result ↔ (self.now ≡ []) }
    {
        self.waiting().is_empty()
    }

    /// Puts bytes behind what waits.
    pub(crate) fn push(&mut self, bytes: &[u8]) -> Result<(), AllocError>
        ensures ok { OnOk result (self.new ≡ self.old ++ bytes.now) }
        ensures err { OnErr result (self.new ≡ self.old) }
    {
        self.compact();
        self.bytes.extend_from_slice(bytes)?;
        self.needed = self.needed.max(self.bytes.len());
        Ok(())
    }

    /// Puts bytes behind what waits. Where nothing does, they aren't copied: they change places with the room that is here, and
    /// what stands in `bytes` then says nothing.
    pub(crate) fn push_whole(&mut self, bytes: &mut Vec<u8>) -> Result<(), AllocError>
        ensures ok { OnOk result (self.new ≡ self.old ++ bytes.old.items) }
        ensures err { OnErr result (self.new ≡ self.old) }
    {
        if !self.is_empty() {
            return self.push(bytes.as_slice());
        }
        self.fill(bytes);
        Ok(())
    }

    /// These bytes wait, in place of those that did. They change places with the room that is here, and what stands in `bytes` then
    /// says nothing.
    pub(crate) fn fill(&mut self, bytes: &mut Vec<u8>)
        ensures { self.new ≡ bytes.old.items }
    {
        self.moved = 0;
        mem::swap(&mut self.bytes, bytes);
        self.needed = self.needed.max(self.bytes.len());
    }

    /// So many of the bytes that wait were moved.
    pub(crate) fn advance(&mut self, count: usize)
        requires { count ≤ length self.old }
        ensures { self.new ≡ drop count self.old }
    {
        self.moved += count;
        if self.is_empty() {
            self.clear();
        }
    }

    /// Drops what waits.
    pub(crate) fn clear(&mut self)
        ensures { self.new ≡ [] }
    {
        self.moved = 0;
        if self.bytes.capacity() > MOST_ROOM {
            self.bytes = Vec::new(self.alloc);
        } else {
            self.bytes.clear();
        }
    }

    /// A while has passed. Where nothing waits, and only little of the room was needed for several of them, it is given back.
    pub(crate) fn rest(&mut self)
        ensures { self.new ≡ self.old }
    {
        if self.has_spare_room() {
            self.unneeded = self.unneeded.saturating_add(1);
        } else {
            self.unneeded = 0;
        }
        self.needed = self.bytes.len();
        if self.unneeded >= RESTS && self.is_empty() {
            self.unneeded = 0;
            self.moved = 0;
            self.bytes = Vec::new(self.alloc);
        }
    }

    /// Whether there is much room, and most of it wasn't needed since the last rest.
    fn has_spare_room(&self) -> bool {
        let room = self.bytes.capacity();
        room > LEAST_ROOM && self.needed <= room / 4
    }

    /// Bytes that were moved go where they are more than what waits.
    fn compact(&mut self)
        ensures { self.new ≡ self.old }
    {
        let left = self.bytes.len() - self.moved;
        if left < self.moved {
            self.bytes.copy_within(self.moved.., 0);
            self.bytes.truncate(left);
            self.moved = 0;
        }
    }
}
