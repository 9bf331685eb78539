// Items in strict order.
ghost use Rattle.std.specs.Prelude.{◌≡◌, ◌==◌, ◌+◌, ◌-◌, ◌∷◌, ◌++◌, ◌<◌, ◌≤◌, ◌^◌, ℕ, [], IfOk, IsTrue, MatchOption, OnErr, OnOk, drop, if◌then◌else◌, length, option_copied, set, slice_get, slice_index_or, slice_range, take, true};
ghost use Rattle.std.specs.declared.cmp.Ordering.TheVariants.{Equal, Greater};
ghost use Rattle.std.specs.BTreeSet.{insert_key};
ghost use Rattle.std.specs.List.{remove};
ghost use Rattle.std.specs.List.Sorted.{IsPartitionPoint, IsStrictlySortedBy};
ghost use Rattle.std.specs.Ordering.{is_le};
ghost use Rattle.mr_order.specs.Changes.{IsFound, IsPut, IsTaken};
ghost use Rattle.mr_order.specs.Standing.{IsPlaceOf, Tells};
ghost use Rattle.mr_order.specs.Parts.{length_limit};

use crate::iter::Iter;
use crate::places::Places;
use crate::query::{Query, Steps};
use std::alloc::{AllocError, Global};
use std::marker::Model;

/// Items in strict order, each found by its place or by a search.
pub struct Ordered<T: Ord + Drop> {
    places: Places<T>,
}

// By hand, so that it is one call wherever a value goes (docs/PROVING.md).
impl<T: Ord + Drop> Drop for Ordered<T> {
    fn drop(self) {
        let Ordered { places: _ } = self;
    }
}

impl<T: Ord + Drop> Model for Ordered<T> {
    ghost use Rattle.std.specs.Prelude.{List};
    ghost use Rattle.std.specs.List.Sorted.{IsStrictlySortedBy};

    ghost Value = { List T };

    ghost view = { λ o. o.places };

    ghost invariant = { λ o. IsStrictlySortedBy T.cmp o.places };
}

impl<T: Ord + Drop> Ordered<T> {
    /// No items. It takes no memory.
    pub fn new(alloc: Global) -> Self
        ensures { result ≡ [] }
    {
        Ordered {
            places: Places::new(alloc),
        }
    }

    /// How many items there are.
    pub fn len(&self) -> usize
        ensures len { result ≡ length self.now }
        ensures small { result ≤ length_limit }
        ensures ordered { IsStrictlySortedBy T.cmp self.now }
    {
        self.places.len()
    }

    /// Whether there is no item.
    pub fn is_empty(&self) -> bool
        ensures { result ≡ (length self.now == 0) }
    {
        self.places.is_empty()
    }

    /// The item at a place, counted from 0.
    pub fn item(&self, at: usize) -> &T
        requires { at < length self.now }
        ensures { result.now ≡ slice_index_or self.now at result.now }
    {
        self.places.item(at)
    }

    /// The least item.
    pub fn first(&self) -> Option<&T>
        ensures { option_copied result ≡ slice_get self.now 0 }
    {
        if self.is_empty() {
            None
        } else {
            Some(self.item(0))
        }
    }

    /// The greatest item.
    pub fn last(&self) -> Option<&T>
        ensures { option_copied result ≡ slice_get self.now (length self.now - 1) }
    {
        if self.is_empty() {
            None
        } else {
            Some(self.item(self.len() - 1))
        }
    }

    /// The place of the item to which a query is equal, or else the place where it would stand. It is compared with at most
    /// as many items as the number of items has binary digits.
    pub fn search<Q: Query<T>>(&self, query: Q, steps: &mut Steps) -> Result<usize, usize>
        ensures place { IsPlaceOf (Q.compare query) self.now result }
        ensures steps { (digits : ℕ) → length self.now < 2 ^ digits →
            steps.new.count ≤ steps.old.count + digits }
        ensures rising { steps.old.count ≤ steps.new.count }
    {
        self.places.search(query, steps)
    }

    /// The same place, found the quickest way: chunks are told apart by their first items, and only what stands in front of
    /// the chunk is counted. It may compare some items more than `search`.
    pub fn locate<Q: Query<T>>(&self, query: Q) -> Result<usize, usize>
        ensures { IsPlaceOf (Q.compare query) self.now result }
    {
        self.places.locate(query)
    }

    /// The item to which a query is equal, if there is one. It is found as `locate` finds it, and nothing is counted.
    pub fn get<Q: Query<T>>(&self, query: Q) -> Option<&T>
        ensures { IsFound (Q.compare query) self.now (option_copied result) }
    {
        self.places.get(query)
    }

    /// Whether a query is equal to an item.
    pub fn contains<Q: Query<T>>(&self, query: Q) -> bool
        ensures { Tells (Q.compare query) self.now result }
    {
        self.places.contains(query)
    }

    /// How many items a query is greater than, which is the place where it stands or would stand. It is compared with at
    /// most as many items as the number of items has binary digits.
    pub fn place<Q: Query<T>>(&self, query: Q, steps: &mut Steps) -> usize
        ensures within { result ≤ length self.now }
        ensures place { IsPartitionPoint (λ y. Q.compare query y ≡ Greater) (λ y.
            IsTrue (is_le (Q.compare query y))) self.now result }
        ensures steps { (digits : ℕ) → length self.now < 2 ^ digits →
            steps.new.count ≤ steps.old.count + digits }
        ensures rising { steps.old.count ≤ steps.new.count }
    {
        match self.search(query, steps) {
            Ok(at) => at,
            Err(at) => at,
        }
    }

    /// The same count as `place`, found as `locate` finds it: it may compare some items more.
    pub fn count_below<Q: Query<T>>(&self, query: Q) -> usize
        ensures within { result ≤ length self.now }
        ensures place { IsPartitionPoint (λ y. Q.compare query y ≡ Greater) (λ y.
            IsTrue (is_le (Q.compare query y))) self.now result }
    {
        match self.locate(query) {
            Ok(at) | Err(at) => at,
        }
    }

    /// Puts an item where it stands in order, unless an equal one is there, and answers whether it is new. Where memory
    /// runs out, all is as it was.
    pub fn insert(&mut self, item: T) -> Result<bool, AllocError>
        ensures ok { OnOk result (self.new ≡ insert_key T.cmp self.old item) }
        ensures added { IfOk result (λ added.
            length self.new ≡ length self.old + (if added then 1 else 0)) }
        ensures err { OnErr result (self.new ≡ self.old) }
    {
        let other = self.places.put(item, false)?;
        Ok(other.is_none())
    }

    /// Puts an item where it stands in order, in the place of an equal one, which it answers. Where memory runs out, all is as
    /// it was; to replace an item takes none.
    pub fn replace(&mut self, item: T) -> Result<Option<T>, AllocError>
        ensures ok { IfOk result (λ before.
            IsPut (T.cmp item) self.old item true self.new before) }
        ensures err { OnErr result (self.new ≡ self.old) }
    {
        self.places.put(item, true)
    }

    /// Puts an item in the place of an equal one, which it answers. It takes no memory.
    pub fn replace_at(&mut self, at: usize, item: T) -> T
        requires within { at < length self.old }
        requires equal { T.cmp item (slice_index_or self.old at item) ≡ Equal }
        ensures replaced { self.new ≡ set self.old at item }
        ensures before { result ≡ slice_index_or self.old at result }
    {
        self.places.set(at, item)
    }

    /// Takes the item from a place.
    pub fn remove_at(&mut self, at: usize) -> T
        requires { at < length self.old }
        ensures removed { self.new ≡ remove self.old at }
        ensures value { result ≡ slice_index_or self.old at result }
    {
        self.places.remove(at)
    }

    /// Takes the items from one place to another, the second left out. It takes no memory.
    pub fn remove_range(&mut self, from: usize, to: usize)
        requires ordered { from ≤ to }
        requires within { to ≤ length self.old }
        ensures { self.new ≡ take from self.old ++ drop to self.old }
    {
        self.places.remove_range(from, to);
    }

    /// Takes the item to which a query is equal, if there is one. It is found as `contains` finds it.
    pub fn take<Q: Query<T>>(&mut self, query: Q) -> Option<T>
        ensures { IsTaken (Q.compare query) self.old result self.new }
    {
        self.places.take(query)
    }

    /// Takes the least item.
    pub fn pop_first(&mut self) -> Option<T>
        ensures { MatchOption result ((self.old ≡ []) × (self.new ≡ [])) (λ item.
            self.old ≡ item ∷ self.new) }
    {
        if self.is_empty() {
            None
        } else {
            Some(self.remove_at(0))
        }
    }

    /// Takes the greatest item.
    pub fn pop_last(&mut self) -> Option<T>
        ensures { MatchOption result ((self.old ≡ []) × (self.new ≡ [])) (λ item.
            self.old ≡ self.new ++ item ∷ []) }
    {
        if self.is_empty() {
            None
        } else {
            let last = self.len() - 1;
            Some(self.remove_at(last))
        }
    }

    /// Takes all items.
    pub fn clear(&mut self)
        ensures { self.new ≡ [] }
    {
        self.places.clear();
    }

    /// All items, in order.
    pub fn iter(&self) -> Iter<'_, T>
        ensures { result ≡ self.now }
    {
        self.iter_from(0)
    }

    /// The items from a place on.
    pub fn iter_from(&self, from: usize) -> Iter<'_, T>
        requires { from ≤ length self.now }
        ensures { result ≡ drop from self.now }
    {
        self.range(from, self.len())
    }

    /// The items from one place to another, the second left out.
    pub fn range(&self, from: usize, to: usize) -> Iter<'_, T>
        requires ordered { from ≤ to }
        requires within { to ≤ length self.now }
        ensures { result ≡ slice_range self.now from to }
    {
        self.places.range(from, to)
    }
}
