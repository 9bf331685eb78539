// The keys of a map that lie elsewhere with their values, in byte order.
ghost use Rattle.std.specs.Prelude.{◌≡◌};
ghost use Rattle.std.specs.Iterator.{YieldsFirstBy, item_count};
ghost use Rattle.mr_map.specs.Bytes.{named_by, slice_of, deref_pair};

use std::collections::btree_map;
use std::marker::Model;

/// The pairs that are still to come, seen as a list.
#[derive(Drop)]
pub struct SlicePairs<'m, 'a, V> {
    inner: btree_map::Iter<'m, &'a [u8], V>,
}

impl<'m, 'a, V> Model for SlicePairs<'m, 'a, V> {
    ghost use Rattle.std.specs.Prelude.{ℕ, List};
    ghost use Rattle.mr_map.specs.Bytes.{named_by, slice_of};

    ghost Value = { List (List ℕ × V) };

    ghost view = { λ a. named_by slice_of a.inner };
}

impl<'m, 'a, V> SlicePairs<'m, 'a, V> {
    /// The pairs that are still to come from a walk, with their keys as slices.
    pub(crate) fn new(inner: btree_map::Iter<'m, &'a [u8], V>) -> Self
        ensures { result ≡ named_by slice_of inner.entry }
    {
        SlicePairs { inner }
    }
}

impl<'m, 'a, V> Iterator for SlicePairs<'m, 'a, V> {
    type Item = (&'a [u8], &'m V);

    ghost next_gives = { YieldsFirstBy deref_pair (λ s. s) };

    ghost remaining = { item_count (λ s. s) };

    fn next(&mut self) -> Option<(&'a [u8], &'m V)> {
        match self.inner.next() {
            Some((key, value)) => Some((*key, value)),
            None => None,
        }
    }
}
