// What a list of items is made of.
ghost use Rattle.std.specs.Prelude.{◌≡◌, ◌+◌, ◌-◌, ◌++◌, ◌∷◌, ◌<◌, ◌≤◌, ◌^◌, [], Bool, List, ℕ, IfErr, IfOk, OnErr, OnOk, false, length, option_copied, set, slice_index_or, true};
ghost use Rattle.std.specs.List.{insert, remove, remove_range};
ghost use Rattle.mr_order.specs.Changes.{IsFound, IsPut, IsTaken};
ghost use Rattle.mr_order.specs.Parts.{IsSound, length_limit};
ghost use Rattle.mr_order.specs.Runs.{IsIn};
ghost use Rattle.mr_order.specs.Standing.{IsBetween, IsDivided, IsPlaceOf};

use crate::query::{Query, Steps};
use std::alloc::{AllocError, Global};

/// Some items that stand next to each other: a chunk of them, or a list of smaller parts.
pub(crate) trait Part: Drop {
    type Item: Ord + Drop;

    // The items, in order.
    ghost items: { Self → List Self.Item };

    // What holds of a part between two calls.
    ghost is_kept: { Self → Type 0 };

    // Whether it is to be cut in two before it takes a further item.
    ghost is_full: { Self → Bool };

    // Whether two parts are so small that they are to be one.
    ghost fits: { Self → Self → Bool };

    /// A part with one item.
    fn one(alloc: Global, item: Self::Item) -> Result<Self, AllocError>
        ensures kept { IfOk result is_kept }
        ensures items { IfOk result (λ part. items part ≡ item ∷ []) };

    /// How many items there are.
    fn len(&self) -> usize
        requires { is_kept self.now }
        ensures len { result ≡ length (items self.now) }
        ensures small { result ≤ length_limit };

    /// Whether it is to be cut in two before it takes a further item.
    fn is_full(&self) -> bool
        ensures { result ≡ is_full self.now };

    /// Whether the two are so small that they are to be one part.
    fn fits(&self, next: &Self) -> bool
        requires kept { is_kept self.now }
        requires next { is_kept next.now }
        ensures { result ≡ fits self.now next.now };

    /// The item at a place.
    fn item(&self, at: usize) -> &Self::Item
        requires kept { is_kept self.now }
        requires within { at < length (items self.now) }
        ensures { result.now ≡ slice_index_or (items self.now) at result.now };

    /// The first item.
    fn first(&self) -> &Self::Item
        requires kept { is_kept self.now }
        requires some { 0 < length (items self.now) }
        ensures { result.now ≡ slice_index_or (items self.now) 0 result.now };

    /// Puts an item where it stands at a place. Where memory runs out, the items stay.
    fn insert(&mut self, at: usize, item: Self::Item) -> Result<(), AllocError>
        requires kept { is_kept self.old }
        requires room { is_full self.old ≡ false }
        requires within { at ≤ length (items self.old) }
        ensures kept { is_kept self.new }
        ensures ok { OnOk result (items self.new ≡ insert (items self.old) at item) }
        ensures err { OnErr result (items self.new ≡ items self.old) };

    /// Puts an item where it stands in order. Where an equal one is there, it replaces that one or isn't put, and the other
    /// of the two is answered. Where memory runs out, the items stay.
    fn put(&mut self, item: Self::Item, replaces: bool) -> Result<Option<Self::Item>, AllocError>
        requires kept { is_kept self.old }
        requires room { is_full self.old ≡ false }
        requires divided { IsDivided (Self.Item.cmp item) (items self.old) }
        ensures kept { is_kept self.new }
        ensures ok { IfOk result (λ other.
            IsPut (Self.Item.cmp item) (items self.old) item replaces (items self.new) other) }
        ensures err { OnErr result (items self.new ≡ items self.old) };

    /// Puts an item in the place of another, which it answers.
    fn set(&mut self, at: usize, item: Self::Item) -> Self::Item
        requires kept { is_kept self.old }
        requires within { at < length (items self.old) }
        ensures kept { is_kept self.new }
        ensures set { items self.new ≡ set (items self.old) at item }
        ensures before { result ≡ slice_index_or (items self.old) at result };

    /// Takes the item from a place.
    fn remove(&mut self, at: usize) -> Self::Item
        requires kept { is_kept self.old }
        requires within { at < length (items self.old) }
        ensures kept { is_kept self.new }
        ensures removed { items self.new ≡ remove (items self.old) at }
        ensures value { result ≡ slice_index_or (items self.old) at result };

    /// Takes the items from one place to another, the second left out. It takes no memory.
    fn remove_range(&mut self, from: usize, to: usize)
        requires kept { is_kept self.old }
        requires ordered { from ≤ to }
        requires within { to ≤ length (items self.old) }
        ensures kept { is_kept self.new }
        ensures removed { items self.new ≡ remove_range (items self.old) from to };

    /// Takes the item to which a query is equal, if there is one.
    fn take<Q: Query<Self::Item>>(&mut self, query: Q) -> Option<Self::Item>
        requires kept { is_kept self.old }
        requires divided { IsDivided (Q.compare query) (items self.old) }
        ensures kept { is_kept self.new }
        ensures taken { IsTaken (Q.compare query) (items self.old) result (items self.new) };

    /// Cuts off what lies behind the middle. Where memory runs out, the items stay.
    fn split(&mut self) -> Result<Self, AllocError>
        requires kept { is_kept self.old }
        requires full { is_full self.old ≡ true }
        ensures ok { IfOk result (λ tail. items self.new ++ items tail ≡ items self.old) }
        ensures err { OnErr result (items self.new ≡ items self.old) }
        ensures kept { is_kept self.new }
        ensures head { OnOk result (IsSound items is_kept self.new ×
            (is_full self.new ≡ false)) }
        ensures tail { IfOk result (λ tail. IsSound items is_kept tail ×
            (is_full tail ≡ false)) };

    /// Takes the items of the next part behind its own. Where memory runs out, both stay.
    fn join(&mut self, next: Self) -> Result<(), Self>
        requires kept { is_kept self.old }
        requires next { is_kept next }
        requires fits { fits self.old next ≡ true }
        ensures kept { is_kept self.new }
        ensures ok { OnOk result (items self.new ≡ items self.old ++ items next) }
        ensures err { OnErr result (items self.new ≡ items self.old) }
        ensures back { IfErr result (λ part. is_kept part × (items part ≡ items next)) };

    /// Where a query stands, or would stand, where it is greater than the items in front of one place and less than those from
    /// another on.
    fn search<Q: Query<Self::Item>>(
        &self,
        query: Q,
        low: usize,
        high: usize,
        steps: &mut Steps,
    ) -> Result<usize, usize>
        requires kept { is_kept self.now }
        requires divided { IsDivided (Q.compare query) (items self.now) }
        requires between { IsBetween (Q.compare query) (items self.now) low high }
        ensures place { IsPlaceOf (Q.compare query) (items self.now) result }
        ensures steps { (digits : ℕ) → high < low + 2 ^ digits →
            steps.new.count ≤ steps.old.count + digits }
        ensures rising { steps.old.count ≤ steps.new.count };

    /// Where a query stands, or would stand. Smaller parts are told apart by their first items, and no place is looked up.
    fn locate<Q: Query<Self::Item>>(&self, query: Q) -> Result<usize, usize>
        requires kept { is_kept self.now }
        requires divided { IsDivided (Q.compare query) (items self.now) }
        ensures { IsPlaceOf (Q.compare query) (items self.now) result };

    /// The item to which a query is equal, if there is one. Nothing is counted.
    fn get<Q: Query<Self::Item>>(&self, query: Q) -> Option<&Self::Item>
        requires kept { is_kept self.now }
        requires divided { IsDivided (Q.compare query) (items self.now) }
        ensures { IsFound (Q.compare query) (items self.now) (option_copied result) };

    /// The items from a place to the end of its chunk.
    fn run_from(&self, at: usize) -> &[Self::Item]
        requires kept { is_kept self.now }
        requires within { at < length (items self.now) }
        ensures some { 0 < length result.now }
        ensures run { IsIn (items self.now) result.now at };

    /// The items of one chunk that stand in front of a place.
    fn run_to(&self, at: usize) -> &[Self::Item]
        requires kept { is_kept self.now }
        requires some { 0 < at }
        requires within { at ≤ length (items self.now) }
        ensures some { 0 < length result.now }
        ensures fits { length result.now ≤ at }
        ensures run { IsIn (items self.now) result.now (at - length result.now) };
}
