// A list of items with places.
ghost use Rattle.std.specs.Prelude.{◌≡◌, ◌==◌, ◌+◌, ◌-◌, ◌<◌, ◌≤◌, ◌^◌, ℕ, [], IfOk, OnErr, OnOk, length, option_copied, set, slice_index_or, slice_range};
ghost use Rattle.std.specs.List.{insert, remove, remove_range};
ghost use Rattle.mr_order.specs.Changes.{IsFound, IsPut, IsTaken};
ghost use Rattle.mr_order.specs.Runs.{IsIn};
ghost use Rattle.mr_order.specs.Standing.{IsDivided, IsPlaceOf, Tells};
ghost use Rattle.mr_order.specs.Parts.{length_limit};

use crate::cutting::remove_range_from;
use crate::descent::put_into;
use crate::grow::insert_into;
use crate::iter::Iter;
use crate::level::LENGTH_LIMIT;
use crate::locate::{get, locate};
use crate::part::Part;
use crate::parts;
use crate::query::{Query, Steps};
use crate::replace::set;
use crate::root::Root;
use crate::shrink::remove_from;
use std::alloc::{AllocError, Global};
use std::marker::Model;

/// A list of items. An item is found by its place, put in and taken without a walk over all items.
#[derive(Drop)]
pub(crate) struct Places<T: Ord + Drop> {
    root: Root<T>,
}

impl<T: Ord + Drop> Model for Places<T> {
    ghost use Rattle.std.specs.Prelude.{List};
    ghost use Rattle.mr_order.specs.Blocks.{root_items, IsRoot};

    ghost Value = { List T };

    ghost view = { λ p. root_items p.root };

    ghost invariant = { λ p. IsRoot p.root };
}

impl<T: Ord + Drop> Places<T> {
    /// An empty list. It takes no memory.
    pub fn new(alloc: Global) -> Self
        ensures { result ≡ [] }
    {
        Places {
            root: Root::Chunk(Vec::new(alloc)),
        }
    }

    /// How many items there are.
    pub fn len(&self) -> usize
        ensures len { result ≡ length self.now }
        ensures small { result ≤ length_limit }
    {
        self.root.len()
    }

    /// Whether there is no item.
    pub fn is_empty(&self) -> bool
        ensures { result ≡ (length self.now == 0) }
    {
        self.len() == 0
    }

    /// The item at a place, counted from 0.
    pub fn item(&self, at: usize) -> &T
        requires { at < length self.now }
        ensures { result.now ≡ slice_index_or self.now at result.now }
    {
        match &self.root {
            Root::Chunk(chunk) => Part::item(chunk, at),
            Root::Blocks(blocks) => parts::item(blocks, at),
        }
    }

    /// Puts an item where it stands at a place. Where memory runs out, the list is as it was.
    pub fn insert(&mut self, at: usize, item: T) -> Result<(), AllocError>
        requires { at ≤ length self.old }
        ensures ok { OnOk result (self.new ≡ insert self.old at item) }
        ensures err { OnErr result (self.new ≡ self.old) }
    {
        let len = self.len();
        if len == LENGTH_LIMIT {
            return Err(AllocError);
        }
        self.root.make_room()?;
        match &mut self.root {
            Root::Chunk(chunk) => Part::insert(chunk, at, item),
            Root::Blocks(blocks) => insert_into(blocks, len, at, item),
        }
    }

    /// Puts an item where it stands, in a list that it divides. Where an equal one is there, it replaces that one or isn't
    /// put, and the other of the two is answered. Where memory runs out, the list is as it was.
    pub fn put(&mut self, item: T, replaces: bool) -> Result<Option<T>, AllocError>
        requires { IsDivided (T.cmp item) self.old }
        ensures ok { IfOk result (λ other.
            IsPut (T.cmp item) self.old item replaces self.new other) }
        ensures err { OnErr result (self.new ≡ self.old) }
    {
        let len = self.len();
        match &mut self.root {
            Root::Blocks(blocks) if len < LENGTH_LIMIT => put_into(blocks, len, item, replaces),
            _ => self.put_by_place(item, replaces),
        }
    }

    /// The same, where a search has found the place: where an equal item is there it takes no memory.
    fn put_by_place(&mut self, item: T, replaces: bool) -> Result<Option<T>, AllocError>
        requires { IsDivided (T.cmp item) self.old }
        ensures ok { IfOk result (λ other.
            IsPut (T.cmp item) self.old item replaces self.new other) }
        ensures err { OnErr result (self.new ≡ self.old) }
    {
        match self.locate(&item) {
            Ok(at) if replaces => Ok(Some(self.set(at, item))),
            Ok(_) => Ok(Some(item)),
            Err(at) => {
                self.insert(at, item)?;
                Ok(None)
            }
        }
    }

    /// Puts an item in the place of another, which it answers. It takes no memory.
    pub fn set(&mut self, at: usize, item: T) -> T
        requires { at < length self.old }
        ensures set { self.new ≡ set self.old at item }
        ensures before { result ≡ slice_index_or self.old at result }
    {
        match &mut self.root {
            Root::Chunk(chunk) => Part::set(chunk, at, item),
            Root::Blocks(blocks) => set(blocks, at, item),
        }
    }

    /// Takes the item from a place.
    pub fn remove(&mut self, at: usize) -> T
        requires { at < length self.old }
        ensures removed { self.new ≡ remove self.old at }
        ensures value { result ≡ slice_index_or self.old at result }
    {
        match &mut self.root {
            Root::Chunk(chunk) => Part::remove(chunk, at),
            Root::Blocks(blocks) => remove_from(blocks, at),
        }
    }

    /// Takes the items from one place to another, the second left out. It takes no memory.
    pub fn remove_range(&mut self, from: usize, to: usize)
        requires ordered { from ≤ to }
        requires within { to ≤ length self.old }
        ensures { self.new ≡ remove_range self.old from to }
    {
        match &mut self.root {
            Root::Chunk(chunk) => Part::remove_range(chunk, from, to),
            Root::Blocks(blocks) => remove_range_from(blocks, from, to),
        }
    }

    /// Takes the item to which a query is equal, if there is one, from a list that the query divides.
    pub fn take<Q: Query<T>>(&mut self, query: Q) -> Option<T>
        requires { IsDivided (Q.compare query) self.old }
        ensures { IsTaken (Q.compare query) self.old result self.new }
    {
        self.root.take(query)
    }

    /// Takes all items.
    pub fn clear(&mut self)
        ensures { self.new ≡ [] }
    {
        match &mut self.root {
            Root::Chunk(chunk) => chunk.clear(),
            Root::Blocks(blocks) => blocks.clear(),
        }
    }

    /// The place of the item to which a query is equal, or else the place where it would stand, in a list that the query
    /// divides. It is compared with at most as many items as the list's length has binary digits.
    pub fn search<Q: Query<T>>(&self, query: Q, steps: &mut Steps) -> Result<usize, usize>
        requires { IsDivided (Q.compare query) self.now }
        ensures place { IsPlaceOf (Q.compare query) self.now result }
        ensures steps { (digits : ℕ) → length self.now < 2 ^ digits →
            steps.new.count ≤ steps.old.count + digits }
        ensures rising { steps.old.count ≤ steps.new.count }
    {
        let len = self.len();
        match &self.root {
            Root::Chunk(chunk) => chunk.search(query, 0, len, steps),
            Root::Blocks(blocks) => parts::search(blocks, query, 0, len, steps),
        }
    }

    /// The same place, found the quickest way: chunks are told apart by their first items, and only what stands in front of
    /// the chunk is counted. It may compare some items more than `search`.
    pub fn locate<Q: Query<T>>(&self, query: Q) -> Result<usize, usize>
        requires { IsDivided (Q.compare query) self.now }
        ensures { IsPlaceOf (Q.compare query) self.now result }
    {
        match &self.root {
            Root::Chunk(chunk) => chunk.locate(query),
            Root::Blocks(blocks) => locate(blocks, query),
        }
    }

    /// The item to which a query is equal, if there is one. It is found as `locate` finds it, and nothing is counted.
    pub fn get<Q: Query<T>>(&self, query: Q) -> Option<&T>
        requires { IsDivided (Q.compare query) self.now }
        ensures { IsFound (Q.compare query) self.now (option_copied result) }
    {
        match &self.root {
            Root::Chunk(chunk) => Part::get(chunk, query),
            Root::Blocks(blocks) => get(blocks, query),
        }
    }

    /// Whether a query is equal to an item.
    pub fn contains<Q: Query<T>>(&self, query: Q) -> bool
        requires { IsDivided (Q.compare query) self.now }
        ensures { Tells (Q.compare query) self.now result }
    {
        self.get(query).is_some()
    }

    /// The items from one place to another, the second left out.
    pub fn range(&self, from: usize, to: usize) -> Iter<'_, T>
        requires ordered { from ≤ to }
        requires within { to ≤ length self.now }
        ensures { result ≡ slice_range self.now from to }
    {
        Iter::new(self, from, to)
    }

    /// Some items from a place on, one at least.
    pub(crate) fn run_from(&self, at: usize) -> &[T]
        requires { at < length self.now }
        ensures some { 0 < length result.now }
        ensures run { IsIn self.now result.now at }
    {
        match &self.root {
            Root::Chunk(chunk) => chunk.run_from(at),
            Root::Blocks(blocks) => parts::run_from(blocks, at),
        }
    }

    /// Some items in front of a place, one at least.
    pub(crate) fn run_to(&self, at: usize) -> &[T]
        requires some { 0 < at }
        requires within { at ≤ length self.now }
        ensures some { 0 < length result.now }
        ensures fits { length result.now ≤ at }
        ensures run { IsIn self.now result.now (at - length result.now) }
    {
        match &self.root {
            Root::Chunk(chunk) => chunk.run_to(at),
            Root::Blocks(blocks) => parts::run_to(blocks, at),
        }
    }
}
