//! Values under the names that others gave, each in the place of its name.
ghost use Rattle.std.specs.Prelude.{◌≡◌, ◌<◌, ℕ, IsSome, None, Some, OnOk, OnErr, length, option_copied, slice_index_or};
ghost use Rattle.std.specs.Option.{option_copied_mut};
ghost use Rattle.std.specs.FinMap as map;
ghost use Rattle.std.specs.Borrow.{sem};
ghost use Rattle.mr_connections.specs.Lends.{lends_entry};

use mr_links::LinkId;
use std::alloc::{AllocError, Global};
use std::marker::Model;

/// A value, and the generation of its name.
#[derive(Drop)]
pub(crate) struct Entry<T> {
    generation: u64,
    value: T,
}

impl<T> Entry<T> {
    ghost use Rattle.std.specs.Borrow.{sem};
    ghost use Rattle.mr_connections.specs.Lends.{lends_value_of};

    /// The value, to be changed in place.
    fn value_mut(&mut self) -> &mut T
        ensures* writes_back { sem 𝓛 (lends_value_of T.row self.entry result) }
        ensures value { result.now ≡ self.old.value }
    {
        &mut self.value
    }
}

/// Values under names, at most one in each place. Only `put` takes memory.
#[derive(Drop)]
pub(crate) struct Table<T> {
    places: Vec<Option<Entry<T>>>,
}

impl<T> Model for Table<T> {
    ghost use Rattle.std.specs.FinMap as map;
    ghost use Rattle.mr_links.specs.LinkId.{id_cmp, coded_id};

    ghost Value = { map.FinMap id_cmp T };

    ghost coded = { map.code coded_id T.code };

    ghost use Rattle.mr_connections.specs.Table.{table_of};

    ghost view = { λ t. table_of t.places.items };
}

impl<T: Drop> Table<T> {
    ghost use Rattle.std.specs.Borrow.{sem};
    ghost use Rattle.mr_connections.specs.Lends.{lends_value, lends_value_if_there};

    /// No values.
    pub(crate) fn new(alloc: Global) -> Table<T>
        ensures { result ≡ map.empty }
    {
        Table {
            places: Vec::new(alloc),
        }
    }

    /// The value under a name, if there is one.
    pub(crate) fn get(&self, id: LinkId) -> Option<&T>
        ensures { option_copied result ≡ map.get self.now id }
    {
        match entry_at(&self.places, id.index) {
            Some(entry) => {
                if entry.generation == id.generation {
                    Some(&entry.value)
                } else {
                    None
                }
            }
            None => None,
        }
    }

    /// The name of the value in a place, if there is one.
    pub(crate) fn name_at(&self, place: usize) -> Option<LinkId> {
        match entry_at(&self.places, place) {
            Some(entry) => Some(LinkId {
                index: place,
                generation: entry.generation,
            }),
            None => None,
        }
    }

    /// The place behind this one, behind the last the first.
    pub(crate) fn place_behind(&self, place: usize) -> usize {
        let behind = place.saturating_add(1);
        if behind < self.places.len() {
            behind
        } else {
            0
        }
    }

    /// The value under a name, if there is one, to be changed in place.
    pub(crate) fn get_mut(&mut self, id: LinkId) -> Option<&mut T>
        ensures* writes_back { sem 𝓛 (lends_value_if_there T.row self.entry id result) }
        ensures value { option_copied_mut result ≡ map.get self.old id }
    {
        if self.get(id).is_some() {
            Some(self.value_mut(id))
        } else {
            None
        }
    }

    /// A value that is there, to be changed in place.
    fn value_mut(&mut self, id: LinkId) -> &mut T
        requires { IsSome (map.get self.old id) }
        ensures* writes_back { sem 𝓛 (lends_value T.row self.entry id result) }
        ensures value { map.get self.old id ≡ Some result.now }
    {
        entry_mut(&mut self.places[id.index]).value_mut()
    }

    /// Puts a value under a name whose place is free. It is refused where the place is taken, or memory is lacking.
    pub(crate) fn put(&mut self, id: LinkId, value: T) -> Result<(), AllocError>
        ensures free { OnOk result (map.get self.old id ≡ None) }
        ensures ok { OnOk result (self.new ≡ map.insert self.old id value) }
        ensures err { OnErr result (self.new ≡ self.old) }
    {
        if entry_at(&self.places, id.index).is_some() {
            return Err(AllocError);
        }
        fill_to(&mut self.places, id.index)?;
        self.places[id.index] = Some(Entry {
            generation: id.generation,
            value,
        });
        Ok(())
    }

    /// Takes the value under a name out, if there is one.
    pub(crate) fn remove(&mut self, id: LinkId)
        ensures { self.new ≡ map.remove self.old id }
    {
        if self.get(id).is_none() {
            return;
        }
        self.places[id.index] = None;
    }
}

/// What is in a place.
fn entry_at<T>(places: &[Option<Entry<T>>], place: usize) -> Option<&Entry<T>>
    ensures { option_copied result ≡ slice_index_or places.now place None }
{
    match places.get(place) {
        Some(Some(entry)) => Some(entry),
        Some(None) | None => None,
    }
}

/// What is in a place that isn't free, to be changed there.
fn entry_mut<T>(place: &mut Option<Entry<T>>) -> &mut Entry<T>
    requires { IsSome place.old }
    ensures* writes_back { sem 𝓛 (lends_entry T.row place.entry result) }
    ensures value { place.old ≡ Some result.now }
{
    match place {
        Some(entry) => entry,
        None => unreachable!(),
    }
}

/// Makes as many places as it takes for this one.
fn fill_to<T: Drop>(places: &mut Vec<Option<Entry<T>>>, place: usize) -> Result<(), AllocError>
    ensures room { OnOk result (place < length places.new.items) }
    ensures same { (k : ℕ) →
        slice_index_or places.new.items k None ≡ slice_index_or places.old.items k None }
{
    while places.len() <= place {
        places.push(None)?;
    }
    Ok(())
}
