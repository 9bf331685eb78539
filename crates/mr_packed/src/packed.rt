// Short strings one after another, and what is read of them.
ghost use Rattle.std.specs.Prelude.{◌≡◌, ◌-◌, ◌%◌, ◌^◌, ◌<◌, ◌≤◌, ◌↔◌, [], get_or, IfErr, IfNone, IfOk, IfSome, IsTrue, length};
ghost use Rattle.std.specs.Cmp.Lexicographic.{slice_cmp};
ghost use Rattle.std.specs.Ordering.{nat_cmp};
ghost use Rattle.std.specs.declared.cmp.Ordering.TheVariants.{Less, Equal, Greater};
ghost use Rattle.mr_packed.specs.Packing.{IsFirst, IsNowhere, IsPassed, IsReached, start_of};

mod changing;

use crate::bytes;
use crate::strings::Strings;
use std::alloc::Global;
use std::cmp::Ordering;
use std::marker::Model;

/// Strings of less than 256 bytes, in the order in which they were put. They lie in one piece of memory, one after another, each
/// with its length before it. It is meant for some 4 KiB: a place is found by a walk over the lengths.
#[derive(Drop)]
pub struct Packed {
    bytes: Vec<u8>,
}

impl Model for Packed {
    ghost use Rattle.std.specs.Prelude.{ℕ, List};
    ghost use Rattle.mr_packed.specs.Packing.{IsPacking, strings_of};

    ghost Value = { List (List ℕ) };

    ghost view = { λ p. strings_of p.bytes.items };

    ghost invariant = { λ p. IsPacking p.bytes.items };
}

impl Packed {
    /// No strings. It takes no memory.
    pub fn new(alloc: Global) -> Packed
        ensures { result ≡ [] }
    {
        Packed {
            bytes: Vec::new(alloc),
        }
    }

    /// How many strings there are.
    pub fn len(&self) -> usize
        ensures len { result ≡ length self.now }
        ensures small { result < 2 ^ 63 }
    {
        bytes::count(&self.bytes)
    }

    /// Whether there are none.
    pub fn is_empty(&self) -> bool
        ensures { IsTrue result ↔ (self.now ≡ []) }
    {
        self.bytes.is_empty()
    }

    /// The string at a place.
    pub fn at(&self, at: usize) -> &[u8]
        requires within { at < length self.now }
        ensures string { result.now ≡ get_or self.now at [] }
        ensures short { length result.now < 256 }
    {
        let start = self.start(at);
        bytes::read(&self.bytes, start)
    }

    /// The first string.
    pub fn first(&self) -> &[u8]
        requires some { 0 < length self.now }
        ensures string { result.now ≡ get_or self.now 0 [] }
        ensures short { length result.now < 256 }
    {
        self.at(0)
    }

    /// The last string. It is found by a walk over the others' lengths.
    pub fn last(&self) -> &[u8]
        requires some { 0 < length self.now }
        ensures string { result.now ≡ get_or self.now (length self.now - 1) [] }
        ensures short { length result.now < 256 }
    {
        self.at(self.len() - 1)
    }

    /// Whether a string stands at a place. Nothing is copied.
    pub fn is_at(&self, at: usize, string: &[u8]) -> bool
        requires within { at < length self.now }
        ensures { IsTrue result ↔ (get_or self.now at [] ≡ string.now) }
    {
        self.at(at) == string
    }

    /// How what stands at a place compares with a string, in byte order. Nothing is copied.
    pub fn cmp_at(&self, at: usize, string: &[u8]) -> Ordering
        requires within { at < length self.now }
        ensures { result ≡ slice_cmp nat_cmp (get_or self.now at []) string.now }
    {
        self.at(at).cmp(string)
    }

    /// The first of the places 0, `step`, twice `step` and so on at which a string stands: with the step 2, what stands at odd places
    /// isn't looked for.
    pub fn find(&self, string: &[u8], step: usize) -> Option<usize>
        requires some { 0 < step }
        ensures found { IfSome result (λ at. IsFirst self.now step string.now at) }
        ensures none { IfNone result (IsNowhere self.now step string.now (length self.now)) }
    {
        let mut start = 0;
        for at in 0..self.bytes.len() {
            if start == self.bytes.len() {
                return None;
            }
            let here = bytes::read(&self.bytes, start);
            if is_found(at, step, here, string) {
                return Some(at);
            }
            start += here.len() + 1;
        }
        None
    }

    /// Where a string stands among what is at even places in byte order, or else in front of which of these it comes.
    pub(crate) fn seek(&self, string: &[u8]) -> Result<usize, usize>
        ensures found { IfOk result (λ at. IsReached self.now string.now at) }
        ensures before { IfErr result (λ at. IsPassed self.now string.now at) }
    {
        let mut start = 0;
        for at in 0..self.bytes.len() {
            if start == self.bytes.len() {
                return Err(at);
            }
            let here = bytes::read(&self.bytes, start);
            match even_cmp(at, here, string) {
                Ordering::Less => start += here.len() + 1,
                Ordering::Equal => return Ok(at),
                Ordering::Greater => return Err(at),
            }
        }
        Err(self.bytes.len())
    }

    /// The strings, in order.
    pub fn iter(&self) -> Strings
        ensures { result ≡ self.now }
    {
        Strings::new(&self.bytes)
    }

    /// How many bytes lie in front of the string at a place.
    fn start(&self, at: usize) -> usize
        requires within { at ≤ length self.now }
        ensures { result ≡ start_of self.now at }
    {
        bytes::walk(&self.bytes, 0, 0, at)
    }
}

/// Whether a place is one of each step-th, and what stands there is what is looked for.
fn is_found(at: usize, step: usize, here: &[u8], string: &[u8]) -> bool
    requires some { 0 < step }
    ensures { IsTrue result ↔ ((at % step ≡ 0) × (here.now ≡ string.now)) }
{
    here == string && at % step == 0
}

/// How what stands at a place compares with a string. What stands at an odd place is passed, as if it were less.
fn even_cmp(at: usize, here: &[u8], string: &[u8]) -> Ordering
    ensures less { result ≡ Less → at % 2 ≡ 0 → slice_cmp nat_cmp here.now string.now ≡ Less }
    ensures equal { result ≡ Equal → (at % 2 ≡ 0) × (here.now ≡ string.now) }
    ensures greater { result ≡ Greater → (at % 2 ≡ 0) ×
        (slice_cmp nat_cmp here.now string.now ≡ Greater) }
{
    if at % 2 == 0 {
        here.cmp(string)
    } else {
        Ordering::Less
    }
}
