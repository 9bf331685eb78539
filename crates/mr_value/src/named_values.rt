// The values of a map under their names, in byte order.
ghost use Rattle.std.specs.Prelude.{◌≡◌, map};
ghost use Rattle.std.specs.Iterator.{YieldsFirstBy, item_count};
ghost use Rattle.mr_map.specs.Bytes.{deref_pair};
ghost use Rattle.mr_value.specs.Named.{entry};

use crate::named::Named;
use mr_order::Iter;
use std::marker::Model;

/// The names that are still to come with their values, seen as a list.
#[derive(Drop)]
pub struct NamedValues<'a, V: Drop> {
    inner: Iter<'a, Named<V>>,
}

impl<'a, V: Drop> Model for NamedValues<'a, V> {
    ghost use Rattle.std.specs.Prelude.{ℕ, List, map};
    ghost use Rattle.mr_value.specs.Named.{entry};

    ghost Value = { List (List ℕ × V) };

    ghost view = { λ a. map entry a.inner };
}

impl<'a, V: Drop> NamedValues<'a, V> {
    /// The names that are still to come from an order's walk, with their values.
    pub(crate) fn new(inner: Iter<'a, Named<V>>) -> Self
        ensures { result ≡ map entry inner.entry }
    {
        NamedValues { inner }
    }
}

impl<'a, V: Drop> Iterator for NamedValues<'a, V> {
    type Item = (&'a [u8], &'a V);

    ghost next_gives = { YieldsFirstBy deref_pair (λ s. s) };

    ghost remaining = { item_count (λ s. s) };

    fn next(&mut self) -> Option<(&'a [u8], &'a V)> {
        match self.inner.next() {
            Some(named) => Some((named.name.as_slice(), &named.value)),
            None => None,
        }
    }
}
