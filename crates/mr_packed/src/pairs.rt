// Pairs of short strings, one after another.
ghost use Rattle.std.specs.Prelude.{◌≡◌, ◌*◌, ◌^◌, ◌<◌, ◌≤◌, ◌↔◌, [], get_or, IfErr, IfNone, IfOk, IfSome, IsOk, IsTrue, length, OnErr, OnOk, set};
ghost use Rattle.std.specs.List.{insert, remove};
ghost use Rattle.mr_packed.specs.Pairs.{IsAt, IsBefore, IsFirstAt, IsNone, pair_at};

use crate::packed::Packed;
use crate::two_by_two::TwoByTwo;
use std::alloc::{AllocError, Global};
use std::marker::Model;

/// Pairs of strings of less than 256 bytes, in the order in which they were put: fields with their values, names with what they
/// name. They lie in one piece of memory, the first of a pair in front of the second, and are found by their firsts alone.
#[derive(Drop)]
pub struct PackedPairs {
    strings: Packed,
}

impl Model for PackedPairs {
    ghost use Rattle.std.specs.Prelude.{ℕ, List};
    ghost use Rattle.mr_packed.specs.Pairs.{ArePairs, pairs_in};

    ghost Value = { List (List ℕ × List ℕ) };

    ghost view = { λ p. pairs_in p.strings };

    ghost invariant = { λ p. ArePairs p.strings };
}

impl PackedPairs {
    /// No pairs. It takes no memory.
    pub fn new(alloc: Global) -> PackedPairs
        ensures { result ≡ [] }
    {
        PackedPairs {
            strings: Packed::new(alloc),
        }
    }

    /// How many pairs there are.
    pub fn len(&self) -> usize
        ensures len { result ≡ length self.now }
        ensures small { 2 * result < 2 ^ 63 }
    {
        self.strings.len() / 2
    }

    /// Whether there are none.
    pub fn is_empty(&self) -> bool
        ensures { IsTrue result ↔ (self.now ≡ []) }
    {
        self.len() == 0
    }

    /// The first of the pair at a place.
    pub fn first_at(&self, at: usize) -> &[u8]
        requires within { at < length self.now }
        ensures string { result.now ≡ (pair_at self.now at).0 }
        ensures short { length result.now < 256 }
    {
        self.strings.at(self.place(at))
    }

    /// The second of the pair at a place.
    pub fn second_at(&self, at: usize) -> &[u8]
        requires within { at < length self.now }
        ensures string { result.now ≡ (pair_at self.now at).1 }
        ensures short { length result.now < 256 }
    {
        self.strings.at(self.place(at) + 1)
    }

    /// The place of the first pair with this first.
    pub fn find(&self, first: &[u8]) -> Option<usize>
        ensures found { IfSome result (λ at. IsFirstAt self.now first.now at) }
        ensures none { IfNone result (IsNone self.now first.now (length self.now)) }
    {
        match self.strings.find(first, 2) {
            Some(at) => Some(at / 2),
            None => None,
        }
    }

    /// The place of a pair with this first, behind others whose firsts are less, or else the place in front of which it comes. So in
    /// pairs that ascend by their firsts it is found, or where it belongs.
    pub fn seek(&self, first: &[u8]) -> Result<usize, usize>
        ensures found { IfOk result (λ at. IsAt self.now first.now at) }
        ensures before { IfErr result (λ at. IsBefore self.now first.now at) }
    {
        match self.strings.seek(first) {
            Ok(at) => Ok(at / 2),
            Err(at) => Err(at / 2),
        }
    }

    /// Puts a pair in front of the one at a place, or behind all. Where memory is lacking nothing has changed.
    pub fn insert(&mut self, at: usize, first: &[u8], second: &[u8]) -> Result<(), AllocError>
        requires within { at ≤ length self.old }
        requires first { length first.now < 256 }
        requires second { length second.now < 256 }
        ensures ok { OnOk result (self.new ≡ insert self.old at (first.now, second.now)) }
        ensures err { OnErr result (self.new ≡ self.old) }
    {
        let place = self.place(at);
        self.strings.insert_two(place, first, second)?;
        Ok(())
    }

    /// Gives the pair at a place another second. Where memory is lacking nothing has changed; one that isn't longer takes none.
    pub fn replace_second(&mut self, at: usize, second: &[u8]) -> Result<(), AllocError>
        requires within { at < length self.old }
        requires short { length second.now < 256 }
        ensures ok { OnOk result (self.new ≡
            set self.old at ((pair_at self.old at).0, second.now)) }
        ensures err { OnErr result (self.new ≡ self.old) }
        ensures fits { length second.now ≤ length (pair_at self.old at).1 → IsOk result }
    {
        let place = self.place(at) + 1;
        self.strings.replace(place, second)?;
        Ok(())
    }

    /// Drops the pair at a place. It takes no memory.
    pub fn remove(&mut self, at: usize)
        requires within { at < length self.old }
        ensures { self.new ≡ remove self.old at }
    {
        let place = self.place(at);
        self.strings.remove_range(place, place + 2);
    }

    /// The pairs, in order.
    pub fn iter(&self) -> TwoByTwo
        ensures { result ≡ self.now }
    {
        TwoByTwo::new(self.strings.iter())
    }

    /// Where the first of a pair stands among the strings.
    fn place(&self, at: usize) -> usize
        requires within { at ≤ length self.now }
        ensures place { result ≡ 2 * at }
        ensures small { result < 2 ^ 63 }
    {
        prove!(at <= self.len());
        2 * at
    }
}
