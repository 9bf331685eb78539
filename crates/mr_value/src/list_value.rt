// Lists of byte strings.
ghost use Rattle.std.specs.Prelude.{◌≡◌, ◌+◌, ◌-◌, ◌<◌, ◌≤◌, ◌^◌, ◌↔◌, ◌==◌, List, [], ◌∷◌, ◌++◌, length, take, drop, insert, slice_get, slice_set, slice_range, is_some, Some, None, Ok, false, IfOk, IfSome, OnOk, OnErr, MatchOption, option_copied};
ghost use Rattle.mr_value.specs.Lists.{are_equal, first_place, count_of, with_before, with_after, without, removed_count};

use crate::compact_bytes::CompactBytes;
use crate::items::Items;
use crate::room::{give_room_back, make_room};
use crate::{matching, removing};
use std::alloc::{AllocError, Global};
use std::collections::VecDeque;
use std::marker::Model;
use std::mem::replace;

/// A list of byte strings, the front first. Both ends are reached in constant time.
///
/// Where memory runs out, a list is as it was.
#[derive(Drop)]
pub struct ListValue {
    items: VecDeque<CompactBytes>,
}

impl Model for ListValue {
    ghost use Rattle.std.specs.Prelude.{List, ℕ};

    ghost Value = { List (List ℕ) };

    ghost view = { λ a. a.items.items };
}

impl ListValue {
    /// An empty list. It takes no memory.
    pub fn new(alloc: Global) -> ListValue
        ensures { result ≡ [] }
    {
        ListValue {
            items: VecDeque::new(alloc),
        }
    }

    /// How many items there are.
    pub fn len(&self) -> usize
        ensures len { result ≡ length self.now }
        ensures small { result < 2 ^ 62 }
    {
        // Each part takes less than half of memory, so their sum is small.
        let (front, back) = self.items.as_slices();
        front.len() + back.len()
    }

    /// Whether there is no item.
    pub fn is_empty(&self) -> bool
        ensures { result ≡ (length self.now == 0) }
    {
        self.items.is_empty()
    }

    /// The item at a place, counted from 0 at the front.
    pub fn get(&self, place: usize) -> Option<&[u8]>
        ensures { option_copied result ≡ slice_get self.now place }
    {
        match self.items.get(place) {
            Some(item) => Some(item.as_slice()),
            None => None,
        }
    }

    /// The items, the front first. It takes no memory.
    pub fn iter(&self) -> Items<'_>
        ensures { result ≡ self.now }
    {
        Items::new(self.items.iter())
    }

    /// The items at the places from `first` to `last`, both included. It takes no memory, and
    /// doesn't walk to the first of them.
    pub fn range(&self, first: usize, last: usize) -> Items<'_>
        requires order { first ≤ last }
        requires within { last < length self.now }
        ensures { result ≡ slice_range self.now first (last + 1) }
    {
        Items::new(self.items.range(first..last + 1))
    }

    /// The first place of an item.
    pub fn position(&self, item: &[u8]) -> Option<usize>
        ensures place { result ≡ first_place item.now self.now }
        ensures within { IfSome result (λ place. place < length self.now) }
    {
        matching::first_place(&self.items, item)
    }

    /// How often an item stands in the list.
    pub fn count(&self, item: &[u8]) -> usize
        ensures { result ≡ count_of item.now self.now }
    {
        matching::count_of(&self.items, item)
    }

    /// Whether the items equal one another, so that the list is the same however it is turned.
    pub fn is_uniform(&self) -> bool
        ensures { result ≡ are_equal self.now }
    {
        matching::are_equal(&self.items)
    }

    /// How many items `remove_matching` would remove.
    pub fn count_removed(&self, count: i64, item: &[u8]) -> usize
        ensures { result ≡ removed_count count (count_of item.now self.now) }
    {
        let most = count.unsigned_abs() as usize;
        if count < 0 {
            return matching::count_last(&self.items, most, item);
        }
        if count == 0 {
            return self.count(item);
        }
        matching::count_first(&self.items, most, item)
    }

    /// Puts an item in front.
    pub fn push_front(&mut self, item: CompactBytes) -> Result<(), AllocError>
        ensures ok { OnOk result (self.new ≡ item ∷ self.old) }
        ensures err { OnErr result (self.new ≡ self.old) }
    {
        make_room(&mut self.items)?;
        Ok(self.items.push_front(item)?)
    }

    /// Puts an item at the back.
    pub fn push_back(&mut self, item: CompactBytes) -> Result<(), AllocError>
        ensures ok { OnOk result (self.new ≡ self.old ++ item ∷ []) }
        ensures err { OnErr result (self.new ≡ self.old) }
    {
        make_room(&mut self.items)?;
        Ok(self.items.push_back(item)?)
    }

    /// Takes the item in front.
    pub fn pop_front(&mut self) -> Option<CompactBytes>
        ensures { MatchOption result ((self.old ≡ []) × (self.new ≡ [])) (λ item.
            self.old ≡ item ∷ self.new) }
    {
        let item = self.items.pop_front();
        give_room_back(&mut self.items);
        item
    }

    /// Takes the item at the back.
    pub fn pop_back(&mut self) -> Option<CompactBytes>
        ensures { MatchOption result ((self.old ≡ []) × (self.new ≡ [])) (λ item.
            self.old ≡ self.new ++ item ∷ []) }
    {
        let item = self.items.pop_back();
        give_room_back(&mut self.items);
        item
    }

    /// Drops so many items in front, or all.
    pub fn drop_front(&mut self, count: usize)
        ensures { self.new ≡ drop count self.old }
    {
        drop_front(&mut self.items, count);
        give_room_back(&mut self.items);
    }

    /// Drops so many items at the back, or all.
    pub fn drop_back(&mut self, count: usize)
        ensures { self.new ≡ take (length self.old - count) self.old }
    {
        let left = self.len().saturating_sub(count);
        self.items.truncate(left);
        give_room_back(&mut self.items);
    }

    /// Keeps the items at the places from `first` to `last`, both included, and drops the others.
    #[tactic(auto, using(crate::proofs::Removals::kept_part))]
    pub fn keep(&mut self, first: usize, last: usize)
        requires order { first ≤ last }
        requires within { last < length self.old }
        ensures { self.new ≡ slice_range self.old first (last + 1) }
    {
        self.items.truncate(last + 1);
        drop_front(&mut self.items, first);
        give_room_back(&mut self.items);
    }

    /// Moves the item in front to the back. It takes no memory.
    pub fn rotate_left(&mut self)
        requires { 0 < length self.old }
        ensures { self.new ≡ drop 1 self.old ++ take 1 self.old }
    {
        self.items.rotate_left(1);
    }

    /// Moves the item at the back to the front. It takes no memory.
    pub fn rotate_right(&mut self)
        requires { 0 < length self.old }
        ensures { self.new ≡
            drop (length self.old - 1) self.old ++ take (length self.old - 1) self.old }
    {
        self.items.rotate_right(1);
    }

    /// Puts an item in another's place, and answers the one before.
    pub fn set(&mut self, place: usize, item: CompactBytes) -> CompactBytes
        requires { place < length self.old }
        ensures before { slice_get self.old place ≡ Some result }
        ensures set { self.new ≡ slice_set self.old place item }
    {
        match self.items.get_mut(place) {
            Some(slot) => replace(slot, item),
            None => unreachable!(),
        }
    }

    /// Puts an item at a place, before the item that stands there.
    pub fn insert(&mut self, place: usize, item: CompactBytes) -> Result<(), AllocError>
        requires { place ≤ length self.old }
        ensures ok { OnOk result (self.new ≡ insert self.old place item) }
        ensures err { OnErr result (self.new ≡ self.old) }
    {
        make_room(&mut self.items)?;
        Ok(self.items.insert(place, item)?)
    }

    /// Puts an item before the first pivot, and answers whether there is a pivot.
    #[tactic(auto, unfolding(crate::specs::Lists::with_before))]
    pub fn insert_before(&mut self, pivot: &[u8], item: CompactBytes) -> Result<bool, AllocError>
        ensures found { IfOk result (λ found. found ≡ is_some (first_place pivot.now self.old)) }
        ensures ok { OnOk result (self.new ≡ with_before pivot.now item self.old) }
        ensures err { OnErr result (self.new ≡ self.old) }
        ensures absent { first_place pivot.now self.old ≡ None → result ≡ Ok false }
    {
        match matching::first_place(&self.items, pivot) {
            Some(place) => {
                make_room(&mut self.items)?;
                self.items.insert(place, item)?;
                Ok(true)
            }
            None => Ok(false),
        }
    }

    /// Puts an item after the first pivot, and answers whether there is a pivot.
    #[tactic(auto, unfolding(crate::specs::Lists::with_after))]
    pub fn insert_after(&mut self, pivot: &[u8], item: CompactBytes) -> Result<bool, AllocError>
        ensures found { IfOk result (λ found. found ≡ is_some (first_place pivot.now self.old)) }
        ensures ok { OnOk result (self.new ≡ with_after pivot.now item self.old) }
        ensures err { OnErr result (self.new ≡ self.old) }
        ensures absent { first_place pivot.now self.old ≡ None → result ≡ Ok false }
    {
        match matching::first_place(&self.items, pivot) {
            Some(place) => {
                make_room(&mut self.items)?;
                self.items.insert(place + 1, item)?;
                Ok(true)
            }
            None => Ok(false),
        }
    }

    /// Removes items that equal `item`, and answers how many: up to `count` of them from the front
    /// on, for a negative count up to as many from the back on, and all of them for 0.
    pub fn remove_matching(&mut self, count: i64, item: &[u8]) -> usize
        ensures list { self.new ≡ without count item.now self.old }
        ensures removed { result ≡ removed_count count (count_of item.now self.old) }
    {
        let removed = removing::remove_matching(&mut self.items, count, item);
        give_room_back(&mut self.items);
        removed
    }
}

/// Drops so many items in front, or all.
fn drop_front(items: &mut VecDeque<CompactBytes>, count: usize)
    ensures { items.new.items ≡ drop count items.old.items }
{
    for _ in 0..count.min(items.len()) {
        let _ = items.pop_front();
    }
}
