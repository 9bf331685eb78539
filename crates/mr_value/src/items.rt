// The items of a list, the front first.
ghost use Rattle.std.specs.Prelude.{◌≡◌};
ghost use Rattle.std.specs.Iterator.{YieldsFirstRef, item_count};
ghost use Rattle.std.specs.VecDeque.Iter.{deque_iter_rest};

use crate::compact_bytes::CompactBytes;
use std::collections::vec_deque;
use std::marker::Model;

/// The items that are still to come, seen as a list.
#[derive(Drop)]
pub struct Items<'a> {
    inner: vec_deque::Iter<'a, CompactBytes>,
}

impl<'a> Model for Items<'a> {
    ghost use Rattle.std.specs.Prelude.{ℕ, List};
    ghost use Rattle.std.specs.VecDeque.Iter.{deque_iter_rest};

    ghost Value = { List (List ℕ) };

    ghost view = { λ a. deque_iter_rest a.inner };
}

impl<'a> Items<'a> {
    /// The items that are still to come from a deque's walk.
    pub(crate) fn new(inner: vec_deque::Iter<'a, CompactBytes>) -> Self
        ensures { result ≡ deque_iter_rest inner.entry }
    {
        Items { inner }
    }
}

impl<'a> Iterator for Items<'a> {
    type Item = &'a [u8];

    ghost next_gives = { YieldsFirstRef (λ s. s) };

    ghost remaining = { item_count (λ s. s) };

    fn next(&mut self) -> Option<&'a [u8]> {
        match self.inner.next() {
            Some(item) => Some(item.as_slice()),
            None => None,
        }
    }
}
