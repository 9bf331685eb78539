// The items between two places.
ghost use Rattle.std.specs.Prelude.{◌≡◌, ◌-◌, ◌<◌, ◌≤◌, length, slice_range};
ghost use Rattle.std.specs.Iterator.{YieldsFirstRef, YieldsLastRef, item_count};
ghost use Rattle.mr_order.specs.Runs.{IsIn};

use crate::places::Places;
use std::marker::Model;

/// The items that are still to come, seen as a list. They come chunk by chunk, from the front or from the back.
#[derive(Drop)]
pub struct Iter<'a, T: Ord + Drop> {
    places: &'a Places<T>,
    from: usize,
    to: usize,
    front: &'a [T],
    back: &'a [T],
}

impl<'a, T: Ord + Drop> Model for Iter<'a, T> {
    ghost use Rattle.std.specs.Prelude.{List, slice_range};
    ghost use Rattle.mr_order.specs.Runs.{AreRuns};

    ghost Value = { List T };

    ghost view = { λ i. slice_range i.places.now i.from i.to };

    ghost invariant = { λ i. AreRuns i.places.now i.from i.to i.front.now i.back.now };
}

impl<'a, T: Ord + Drop> Iter<'a, T> {
    /// The items from one place on, up to another, which is not among them.
    pub(crate) fn new(places: &'a Places<T>, from: usize, to: usize) -> Self
        requires ordered { from ≤ to }
        requires within { to ≤ length places.now }
        ensures { result ≡ slice_range places.now from to }
    {
        Iter {
            places,
            from,
            to,
            front: &[],
            back: &[],
        }
    }
}

/// The items at hand from a place on, of which there is one at least.
fn ahead<'a, T: Ord + Drop>(places: &'a Places<T>, run: &'a [T], at: usize) -> &'a [T]
    requires within { at < length places.now }
    requires run { IsIn places.now run.now at }
    ensures some { 0 < length result.now }
    ensures run { IsIn places.now result.now at }
{
    if run.is_empty() {
        places.run_from(at)
    } else {
        run
    }
}

/// The items at hand in front of a place, of which there is one at least.
fn behind<'a, T: Ord + Drop>(places: &'a Places<T>, run: &'a [T], at: usize) -> &'a [T]
    requires some { 0 < at }
    requires within { at ≤ length places.now }
    requires fits { length run.now ≤ at }
    requires run { IsIn places.now run.now (at - length run.now) }
    ensures some { 0 < length result.now }
    ensures fits { length result.now ≤ at }
    ensures run { IsIn places.now result.now (at - length result.now) }
{
    if run.is_empty() {
        places.run_to(at)
    } else {
        run
    }
}

impl<'a, T: Ord + Drop> Iterator for Iter<'a, T> {
    type Item = &'a T;

    ghost next_gives = { YieldsFirstRef (λ s. s) };

    ghost remaining = { item_count (λ s. s) };

    fn next(&mut self) -> Option<&'a T> {
        if self.from == self.to {
            return None;
        }
        let run = ahead(self.places, self.front, self.from);
        let (first, rest) = run.split_first()?;
        self.front = rest;
        self.from += 1;
        Some(first)
    }
}

impl<'a, T: Ord + Drop> DoubleEndedIterator for Iter<'a, T> {
    ghost next_back_gives = { YieldsLastRef (λ s. s) };

    fn next_back(&mut self) -> Option<&'a T> {
        if self.from == self.to {
            return None;
        }
        let run = behind(self.places, self.back, self.to);
        let (last, rest) = run.split_last()?;
        self.back = rest;
        self.to -= 1;
        Some(last)
    }
}
