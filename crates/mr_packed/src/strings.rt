// The strings that are still to come.
ghost use Rattle.std.specs.Prelude.{◌≡◌, ◌<◌, length};
ghost use Rattle.std.specs.Iterator.{YieldsFirstRef, YieldsLastRef, item_count};
ghost use Rattle.mr_packed.specs.Packing.{IsMark, IsMarked, IsPacking, strings_of};

use crate::bytes;
use std::marker::Model;

/// The strings that are still to come, seen as a list.
#[derive(Drop)]
pub struct Strings<'a> {
    left: &'a [u8],
    /// A place among them, where the string there begins, and how many there are from it on: over these the last is walked to.
    /// With none, there is no such place.
    mark: usize,
    start: usize,
    tail: usize,
}

/// How many strings are gone back over from one mark.
const STRETCH: usize = 16;

impl<'a> Model for Strings<'a> {
    ghost use Rattle.std.specs.Prelude.{ℕ, List};
    ghost use Rattle.mr_packed.specs.Packing.{IsMarked, strings_of};

    ghost Value = { List (List ℕ) };

    ghost view = { λ s. strings_of s.left.now };

    ghost invariant = { λ s. IsMarked s.left.now s.mark s.start s.tail };
}

impl<'a> Strings<'a> {
    /// The strings that bytes are.
    pub(crate) fn new(left: &'a [u8]) -> Self
        requires { IsPacking left.now }
        ensures { result ≡ strings_of left.now }
    {
        Strings {
            left,
            mark: 0,
            start: 0,
            tail: 0,
        }
    }
}

impl<'a> Iterator for Strings<'a> {
    type Item = &'a [u8];

    ghost next_gives = { YieldsFirstRef (λ s. s) };

    ghost remaining = { item_count (λ s. s) };

    fn next(&mut self) -> Option<&'a [u8]> {
        if self.left.is_empty() {
            return None;
        }
        let string = bytes::read(self.left, 0);
        let rest = bytes::after(self.left, string.len() + 1);
        self.left = rest;
        self.tail = 0;
        Some(string)
    }
}

/// Back from the last string. A walk over lengths leads to each, from a mark that is at most as many strings in front of it as are
/// gone back over from one.
impl<'a> DoubleEndedIterator for Strings<'a> {
    ghost next_back_gives = { YieldsLastRef (λ s. s) };

    fn next_back(&mut self) -> Option<&'a [u8]> {
        if self.left.is_empty() {
            return None;
        }
        let (mark, start, tail) = mark_of(self.left, self.mark, self.start, self.tail);
        let end = bytes::walk(self.left, mark, start, mark + (tail - 1));
        let string = bytes::read(self.left, end);
        let rest = bytes::before(self.left, end);
        self.left = rest;
        self.mark = mark;
        self.start = start;
        self.tail = tail - 1;
        Some(string)
    }
}

/// The mark, if there are strings from it on, and else another that is a little in front of the last string.
fn mark_of(left: &[u8], mark: usize, start: usize, tail: usize) -> (usize, usize, usize)
    requires some { 0 < length left.now }
    requires marked { IsMarked left.now mark start tail }
    ensures some { 0 < result.2 }
    ensures mark { IsMark (strings_of left.now) result.0 result.1 result.2 }
{
    if tail > 0 {
        return (mark, start, tail);
    }
    let count = bytes::count(left);
    let mark = count.saturating_sub(STRETCH);
    let start = bytes::walk(left, 0, 0, mark);
    (mark, start, count - mark)
}
