// The members of a set, in byte order.
ghost use Rattle.std.specs.Prelude.{◌≡◌};
ghost use Rattle.std.specs.Iterator.{YieldsFirstRef, item_count};

use crate::compact_bytes::CompactBytes;
use mr_order::Iter;
use std::marker::Model;

/// The members that are still to come, seen as a list.
#[derive(Drop)]
pub struct Members<'a> {
    inner: Iter<'a, CompactBytes>,
}

impl<'a> Model for Members<'a> {
    ghost use Rattle.std.specs.Prelude.{ℕ, List};

    ghost Value = { List (List ℕ) };

    ghost view = { λ a. a.inner };
}

impl<'a> Members<'a> {
    /// The members that are still to come from an order's walk.
    pub(crate) fn new(inner: Iter<'a, CompactBytes>) -> Self
        ensures { result ≡ inner.entry }
    {
        Members { inner }
    }
}

impl<'a> Iterator for Members<'a> {
    type Item = &'a [u8];

    ghost next_gives = { YieldsFirstRef (λ s. s) };

    ghost remaining = { item_count (λ s. s) };

    fn next(&mut self) -> Option<&'a [u8]> {
        match self.inner.next() {
            Some(member) => Some(member.as_slice()),
            None => None,
        }
    }
}
