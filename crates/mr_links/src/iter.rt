//! Iterators over open links, in the order of their ids. They take no memory.
ghost use Rattle.std.specs.Prelude.{◌≡◌};
ghost use Rattle.std.specs.Iterator.{YieldsFirst, YieldsFirstBy, item_count};
ghost use Rattle.mr_links.specs.Rows.{by_ids, ids_of};

use crate::LinkId;
use crate::rows::Row;
use std::marker::Model;

/// The open links that are still to come with their ids, seen as a list.
#[derive(Drop)]
pub struct Iter<'a, T> {
    inner: slab::Iter<'a, Row<T>>,
}

impl<'a, T> Model for Iter<'a, T> {
    ghost use Rattle.std.specs.Prelude.{List};
    ghost use Rattle.mr_links.specs.LinkId.{LinkId};

    ghost Value = { List (LinkId × T) };

    ghost use Rattle.mr_links.specs.Rows.{by_ids};

    ghost view = { λ it. by_ids it.inner };
}

impl<'a, T> Iter<'a, T> {
    /// The open links that are still to come from a slab's walk, with their ids.
    pub(crate) fn new(inner: slab::Iter<'a, Row<T>>) -> Self
        ensures { result ≡ by_ids inner.entry }
    {
        Iter { inner }
    }
}

impl<'a, T> Iterator for Iter<'a, T> {
    type Item = (LinkId, &'a T);

    ghost next_gives = { YieldsFirstBy (λ item. (item.0, item.1.now)) (λ rest. rest) };

    ghost remaining = { item_count (λ rest. rest) };

    fn next(&mut self) -> Option<(LinkId, &'a T)> {
        match self.inner.next() {
            Some((index, row)) => Some((row.id_at(index), &row.link)),
            None => None,
        }
    }
}

/// The ids of the open links that are still to come, seen as a list.
#[derive(Drop)]
pub struct Ids<'a, T> {
    inner: Iter<'a, T>,
}

impl<'a, T> Model for Ids<'a, T> {
    ghost use Rattle.std.specs.Prelude.{List};
    ghost use Rattle.mr_links.specs.LinkId.{LinkId};

    ghost Value = { List LinkId };

    ghost use Rattle.mr_links.specs.Rows.{ids_of};

    ghost view = { λ it. ids_of it.inner };
}

impl<'a, T> Ids<'a, T> {
    /// The ids of the open links that are still to come.
    pub(crate) fn new(inner: Iter<'a, T>) -> Self
        ensures { result ≡ ids_of inner.entry }
    {
        Ids { inner }
    }
}

impl<'a, T> Iterator for Ids<'a, T> {
    type Item = LinkId;

    ghost next_gives = { YieldsFirst (λ rest. rest) };

    ghost remaining = { item_count (λ rest. rest) };

    fn next(&mut self) -> Option<LinkId> {
        match self.inner.next() {
            Some((id, _link)) => Some(id),
            None => None,
        }
    }
}
