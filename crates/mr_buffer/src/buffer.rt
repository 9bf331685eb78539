ghost use Rattle.std.specs.Prelude.{◌≡◌, ◌++◌, ◌≤◌, ◌↔◌, [], length, drop, IsTrue, OnOk, OnErr};

use crate::room::reserve;
use std::alloc::{AllocError, Global};
use std::marker::Model;

/// What an emptied buffer keeps of its room at most.
const KEPT_ROOM: usize = 65_536;

/// Where more bytes were used, they don't wait until more come.
const MUCH_USED: usize = 1_048_576;

/// The bytes that came and weren't used, in order. Used bytes make room only when more come, or once they are many, and where
/// they are more than what is left: so fewer bytes are moved than were used.
#[derive(Drop)]
pub struct Buffer {
    alloc: Global,
    bytes: Vec<u8>,
    /// How many of the bytes were used.
    used: usize,
}

impl Model for Buffer {
    ghost use Rattle.std.specs.Prelude.{ℕ, List, ◌≤◌, length, drop};

    ghost Value = { List ℕ };

    ghost view = { λ b. drop b.used b.bytes.items };

    ghost invariant = { λ b. b.used ≤ length b.bytes.items };
}

impl Buffer {
    /// Nothing. It takes no memory.
    pub fn new(alloc: Global) -> Buffer
        ensures { result ≡ [] }
    {
        Buffer {
            alloc,
            bytes: Vec::new(alloc),
            used: 0,
        }
    }

    /// What is left.
    pub fn left(&self) -> &[u8]
        ensures { result.now ≡ self.now }
    {
        &self.bytes[self.used..]
    }

    /// How many bytes are left.
    pub fn len(&self) -> usize
        ensures { result ≡ length self.now }
    {
        self.left().len()
    }

    /// Whether nothing is left.
    pub fn is_empty(&self) -> bool
        ensures { IsTrue result ↔ (self.now ≡ []) }
    {
        self.left().is_empty()
    }

    /// Puts bytes behind what is left. Where memory is lacking nothing has changed.
    pub fn push(&mut self, bytes: &[u8]) -> Result<(), AllocError>
        ensures ok { OnOk result (self.new ≡ self.old ++ bytes.now) }
        ensures err { OnErr result (self.new ≡ self.old) }
    {
        self.compact();
        reserve(&mut self.bytes, bytes.len())?;
        self.bytes.extend_from_slice(bytes)?;
        Ok(())
    }

    /// Uses so many of the bytes that are left. Many used bytes go at once, with their room.
    pub fn take(&mut self, count: usize)
        requires { count ≤ length self.old }
        ensures { self.new ≡ drop count self.old }
    {
        self.used += count;
        if self.used > MUCH_USED {
            self.compact();
            self.give_back();
        }
    }

    /// Drops what is left. Of its room it keeps 64 KiB at most.
    pub fn clear(&mut self)
        ensures { self.new ≡ [] }
    {
        self.used = 0;
        if self.bytes.capacity() > KEPT_ROOM {
            self.bytes = Vec::new(self.alloc);
        } else {
            self.bytes.clear();
        }
    }

    /// Drops what is left, with all its room.
    pub fn release(&mut self)
        ensures { self.new ≡ [] }
    {
        self.used = 0;
        self.bytes = Vec::new(self.alloc);
    }

    /// Room that isn't needed goes, unless there are used bytes still.
    fn give_back(&mut self)
        ensures { self.new ≡ self.old }
    {
        if self.used == 0 {
            self.bytes.shrink_to(KEPT_ROOM);
        }
    }

    /// Used bytes go where they are more than what is left.
    fn compact(&mut self)
        ensures { self.new ≡ self.old }
    {
        let left = self.bytes.len() - self.used;
        if left == 0 {
            self.clear();
            return;
        }
        if left < self.used {
            self.bytes.copy_within(self.used.., 0);
            self.bytes.truncate(left);
            self.used = 0;
        }
    }
}
