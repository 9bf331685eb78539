// What is put among short strings, and taken from them.
ghost use Rattle.std.specs.Prelude.{◌≡◌, ◌+◌, ◌++◌, ◌∷◌, ◌<◌, ◌≤◌, [], get_or, IsOk, length, OnErr, OnOk, set, slice_range};
ghost use Rattle.std.specs.List.{insert, remove, remove_range};

use crate::bytes;
use crate::packed::Packed;
use std::alloc::AllocError;

impl Packed {
    /// Puts a string behind the others. Where memory is lacking nothing has changed.
    pub fn push(&mut self, string: &[u8]) -> Result<(), AllocError>
        requires short { length string.now < 256 }
        ensures ok { OnOk result (self.new ≡ self.old ++ string.now ∷ []) }
        ensures err { OnErr result (self.new ≡ self.old) }
    {
        bytes::append(&mut self.bytes, string)?;
        Ok(())
    }

    /// Puts a string in front of the others. Where memory is lacking nothing has changed.
    pub fn push_front(&mut self, string: &[u8]) -> Result<(), AllocError>
        requires short { length string.now < 256 }
        ensures ok { OnOk result (self.new ≡ string.now ∷ self.old) }
        ensures err { OnErr result (self.new ≡ self.old) }
    {
        self.insert(0, string)
    }

    /// Puts a string in front of the one at a place, or behind all. Where memory is lacking nothing has changed.
    pub fn insert(&mut self, at: usize, string: &[u8]) -> Result<(), AllocError>
        requires within { at ≤ length self.old }
        requires short { length string.now < 256 }
        ensures ok { OnOk result (self.new ≡ insert self.old at string.now) }
        ensures err { OnErr result (self.new ≡ self.old) }
    {
        let start = self.start(at);
        bytes::insert(&mut self.bytes, start, string)?;
        Ok(())
    }

    /// Puts two strings, one behind the other, in front of the one at a place, or behind all. What comes after moves once. Where
    /// memory is lacking nothing has changed.
    pub fn insert_two(&mut self, at: usize, first: &[u8], second: &[u8]) -> Result<(), AllocError>
        requires within { at ≤ length self.old }
        requires first { length first.now < 256 }
        requires second { length second.now < 256 }
        ensures ok { OnOk result (self.new ≡ insert (insert self.old at second.now) at first.now) }
        ensures err { OnErr result (self.new ≡ self.old) }
    {
        let start = self.start(at);
        bytes::insert_two(&mut self.bytes, start, first, second)?;
        Ok(())
    }

    /// Puts a string in the place of another. Where memory is lacking nothing has changed; one that isn't longer takes none, and
    /// only another length moves what comes after.
    pub fn replace(&mut self, at: usize, string: &[u8]) -> Result<(), AllocError>
        requires within { at < length self.old }
        requires short { length string.now < 256 }
        ensures ok { OnOk result (self.new ≡ set self.old at string.now) }
        ensures err { OnErr result (self.new ≡ self.old) }
        ensures fits { length string.now ≤ length (get_or self.old at []) → IsOk result }
    {
        prove!(at < self.bytes.len());
        let start = self.start(at);
        let end = bytes::walk(&self.bytes, at, start, at + 1);
        bytes::replace(&mut self.bytes, start, end, string)?;
        Ok(())
    }

    /// Drops the string at a place. It takes no memory.
    pub fn remove(&mut self, at: usize)
        requires within { at < length self.old }
        ensures { self.new ≡ remove self.old at }
    {
        prove!(at < self.bytes.len());
        self.remove_range(at, at + 1);
    }

    /// Drops the strings from one place to another, the second left out. It takes no memory, and gives room back once less than half
    /// of it is used.
    pub fn remove_range(&mut self, from: usize, to: usize)
        requires ordered { from ≤ to }
        requires within { to ≤ length self.old }
        ensures { self.new ≡ remove_range self.old from to }
    {
        let start = self.start(from);
        let end = bytes::walk(&self.bytes, from, start, to);
        self.bytes.drain(start..end);
        bytes::give_room_back(&mut self.bytes);
    }

    /// Puts the strings of another behind its own. Where memory is lacking nothing has changed.
    pub fn append(&mut self, other: &Packed) -> Result<(), AllocError>
        ensures ok { OnOk result (self.new ≡ self.old ++ other.now) }
        ensures err { OnErr result (self.new ≡ self.old) }
    {
        bytes::extend(&mut self.bytes, &other.bytes)?;
        Ok(())
    }

    /// Puts the strings of another from one place to another, the second left out, behind its own. Where memory is lacking nothing
    /// has changed.
    pub fn append_range(&mut self, other: &Packed, from: usize, to: usize) -> Result<(), AllocError>
        requires ordered { from ≤ to }
        requires within { to ≤ length other.now }
        ensures ok { OnOk result (self.new ≡ self.old ++ slice_range other.now from to) }
        ensures err { OnErr result (self.new ≡ self.old) }
    {
        let start = other.start(from);
        let end = bytes::walk(&other.bytes, from, start, to);
        let part = bytes::between(&other.bytes, start, end);
        bytes::extend(&mut self.bytes, part)?;
        Ok(())
    }
}
