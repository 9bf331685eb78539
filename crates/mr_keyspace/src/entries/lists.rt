// Effects on lists.
ghost use Rattle.std.specs.Prelude.{◌≡◌, ◌≢◌, ◌+◌, ◌<◌, ◌≤◌, [], ◌∷◌, pos, IsTrue, Some, None, false, true, length, unsigned_abs, Err, IfSome, OnOk, MatchOption};
ghost use Rattle.mr_effect.specs.Effects.{is_some_of};
ghost use Rattle.mr_keyspace.specs.Collections.{end_item, put_item, pushed, popped, turned, may_take, is_place_of, is_part_of, place_beside};
ghost use Rattle.mr_keyspace.specs.Changes.{at_key, item_at};
ghost use Rattle.std.specs.FinMap as map;
ghost use Rattle.mr_keyspace.specs.Steps.{push_step, pop_step, set_item_step, insert_item_step, remove_items_step, trim_step, turn_step};
ghost use Rattle.mr_keyspace.specs.Outcome.{Applies};

use crate::entries::Entries;
use crate::fault::ApplyFault;
use crate::value::Value;
use mr_bytes::{End, Side, Word};
use mr_effect::EffectWords;
use mr_value::{CompactBytes, ListValue};
use std::alloc::{AllocError, Global};

impl Entries {
    /// Puts items at an end of the list at a key.
    pub(super) fn push(
        &mut self,
        key: Word<'_>,
        end: End,
        items: EffectWords<'_>,
    ) -> Result<(), ApplyFault>
        requires { IsTrue (is_some_of items) }
        ensures { Applies (at_key (push_step end items.entry) key.entry self.old) self.old result
            self.new }
    {
        let alloc = self.alloc;
        let Some(value) = self.by_key.value_mut(key.as_slice()) else {
            let mut list = ListValue::new(alloc);
            push_items(alloc, &mut list, end, items)?;
            return self.create(key, Value::List(list));
        };
        let Value::List(list) = value else {
            return Err(ApplyFault::Refused);
        };
        push_items(alloc, list, end, items)?;
        Ok(())
    }

    /// Takes so many items from an end of the list at a key, and the key with the last of them.
    pub(super) fn pop(&mut self, key: &[u8], end: End, count: i64) -> Result<(), ApplyFault>
        ensures applies { Applies (at_key (pop_step end count) key.now self.old) self.old result
            self.new }
        ensures memory { result ≢ Err ApplyFault.Memory }
    {
        let Some(value) = self.by_key.value_mut(key) else {
            return Err(ApplyFault::Refused);
        };
        let Value::List(list) = value else {
            return Err(ApplyFault::Refused);
        };
        let Some(taken) = taken_of(count, list.len()) else {
            return Err(ApplyFault::Refused);
        };
        pop_items(list, end, taken);
        if list.is_empty() {
            let _ = self.by_key.remove(key);
            return Ok(());
        }
        Ok(())
    }

    /// Puts an item in another's place in the list at a key.
    pub(super) fn set_item(
        &mut self,
        key: &[u8],
        place: i64,
        item: Word<'_>,
    ) -> Result<(), ApplyFault>
        ensures { Applies (at_key (set_item_step place item.entry) key.now self.old) self.old result
            self.new }
    {
        let alloc = self.alloc;
        let Some(value) = self.by_key.value_mut(key) else {
            return Err(ApplyFault::Refused);
        };
        let Value::List(list) = value else {
            return Err(ApplyFault::Refused);
        };
        let Some(place) = place_of(place, list.len()) else {
            return Err(ApplyFault::Refused);
        };
        let item = CompactBytes::from_word(alloc, item)?;
        let _ = list.set(place, item);
        Ok(())
    }

    /// Puts an item beside the first pivot in the list at a key.
    pub(super) fn insert_item(
        &mut self,
        key: &[u8],
        side: Side,
        pivot: &[u8],
        item: Word<'_>,
    ) -> Result<(), ApplyFault>
        ensures { Applies (at_key (insert_item_step side pivot.now item.entry) key.now self.old)
            self.old result self.new }
    {
        let alloc = self.alloc;
        let Some(value) = self.by_key.value_mut(key) else {
            return Err(ApplyFault::Refused);
        };
        let Value::List(list) = value else {
            return Err(ApplyFault::Refused);
        };
        let Some(place) = place_beside(list, side, pivot) else {
            return Err(ApplyFault::Refused);
        };
        let item = CompactBytes::from_word(alloc, item)?;
        list.insert(place, item)?;
        Ok(())
    }

    /// Removes items that equal one from the list at a key, and the key with the last item.
    pub(super) fn remove_items(
        &mut self,
        key: &[u8],
        count: i64,
        item: &[u8],
    ) -> Result<(), ApplyFault>
        ensures applies { Applies (at_key (remove_items_step count item.now) key.now self.old)
            self.old result self.new }
        ensures memory { result ≢ Err ApplyFault.Memory }
    {
        let Some(value) = self.by_key.value_mut(key) else {
            return Ok(());
        };
        let Value::List(list) = value else {
            return Err(ApplyFault::Refused);
        };
        let _ = list.remove_matching(count, item);
        if list.is_empty() {
            let _ = self.by_key.remove(key);
            return Ok(());
        }
        Ok(())
    }

    /// Keeps a part of the list at a key.
    pub(super) fn trim(&mut self, key: &[u8], first: i64, last: i64) -> Result<(), ApplyFault>
        ensures applies { Applies (at_key (trim_step first last) key.now self.old) self.old result
            self.new }
        ensures memory { result ≢ Err ApplyFault.Memory }
    {
        let Some(value) = self.by_key.value_mut(key) else {
            return Err(ApplyFault::Refused);
        };
        let Value::List(list) = value else {
            return Err(ApplyFault::Refused);
        };
        let Some((first, last)) = part_of(first, last, list.len()) else {
            return Err(ApplyFault::Refused);
        };
        list.keep(first, last);
        Ok(())
    }

    /// Takes an item from an end of the list at a key and puts it at an end of the same list.
    pub(super) fn turn(&mut self, key: &[u8], taken: End, put: End) -> Result<(), ApplyFault>
        ensures { Applies (at_key (turn_step taken put) key.now self.old) self.old result self.new }
    {
        let Some(value) = self.by_key.value_mut(key) else {
            return Err(ApplyFault::Refused);
        };
        let Value::List(list) = value else {
            return Err(ApplyFault::Refused);
        };
        if list.is_empty() {
            return Err(ApplyFault::Refused);
        }
        turn_list(list, taken, put);
        Ok(())
    }

    /// Takes the item at an end of the list at a key, and the key with the last of them.
    pub(super) fn take_item(&mut self, key: &[u8], end: End) -> Option<CompactBytes>
        ensures absent { result ≡ None →
            (item_at end (map.get self.old key.now) ≡ None) × (self.new ≡ self.old) }
        ensures item { IfSome result (λ item.
            item_at end (map.get self.old key.now) ≡ Some item) }
        ensures taken { IfSome result (λ item.
            at_key (pop_step end (pos 1)) key.now self.old ≡ Some self.new) }
    {
        let Some(value) = self.by_key.value_mut(key) else {
            return None;
        };
        let Value::List(list) = value else {
            return None;
        };
        let Some(item) = pop_item(list, end) else {
            return None;
        };
        if list.is_empty() {
            let _ = self.by_key.remove(key);
            return Some(item);
        }
        Some(item)
    }

    /// Puts an item at an end of the list at a key.
    pub(super) fn put_item(
        &mut self,
        key: Word<'_>,
        end: End,
        item: CompactBytes,
    ) -> Result<(), ApplyFault>
        ensures { Applies (at_key (push_step end (item ∷ [])) key.entry self.old) self.old result
            self.new }
    {
        let alloc = self.alloc;
        let Some(value) = self.by_key.value_mut(key.as_slice()) else {
            let mut list = ListValue::new(alloc);
            push_item(&mut list, end, item)?;
            return self.create(key, Value::List(list));
        };
        let Value::List(list) = value else {
            return Err(ApplyFault::Refused);
        };
        push_item(list, end, item)?;
        Ok(())
    }
}

/// Puts items at an end of a list, one after another.
fn push_items(
    alloc: Global,
    list: &mut ListValue,
    end: End,
    items: EffectWords<'_>,
) -> Result<(), AllocError>
    ensures { OnOk result (list.new ≡ pushed end items.entry list.old) }
{
    for item in items.into_vec() {
        push_item(list, end, CompactBytes::from_word(alloc, item)?)?;
    }
    Ok(())
}

/// Puts an item at an end of a list.
fn push_item(list: &mut ListValue, end: End, item: CompactBytes) -> Result<(), AllocError>
    ensures { OnOk result (list.new ≡ put_item end item list.old) }
{
    match end {
        End::Left => list.push_front(item),
        End::Right => list.push_back(item),
    }
}

/// Takes the item at an end of a list. An empty one stays as it is.
fn pop_item(list: &mut ListValue, end: End) -> Option<CompactBytes>
    ensures { MatchOption result ((end_item end list.old ≡ None) ×
        (list.new ≡ list.old)) (λ item. (end_item end list.old ≡ Some item) ×
        (list.new ≡ popped end 1 list.old) × (may_take (pos 1) (length list.old) ≡ true)) }
{
    match end {
        End::Left => list.pop_front(),
        End::Right => list.pop_back(),
    }
}

/// Drops so many items at an end of a list, or all.
fn pop_items(list: &mut ListValue, end: End, count: usize)
    ensures { list.new ≡ popped end count list.old }
{
    match end {
        End::Left => list.drop_front(count),
        End::Right => list.drop_back(count),
    }
}

/// Takes the item at an end of a list and puts it at an end of the same. It takes no memory.
fn turn_list(list: &mut ListValue, taken: End, put: End)
    requires { 0 < length list.old }
    ensures { turned taken put list.old ≡ Some list.new }
{
    match (taken, put) {
        (End::Left, End::Right) => list.rotate_left(),
        (End::Right, End::Left) => list.rotate_right(),
        (End::Left, End::Left) => {}
        (End::Right, End::Right) => {}
    }
}

/// The place beside the first pivot of a list, where an item is put. None where no item equals the pivot.
fn place_beside(list: &ListValue, side: Side, pivot: &[u8]) -> Option<usize>
    ensures place { result ≡ place_beside side pivot.now list.now }
    ensures within { IfSome result (λ place. place ≤ length list.now) }
{
    let len = list.len();
    let place = list.position(pivot)?;
    prove!(place < len);
    match side {
        Side::Before => Some(place),
        Side::After => Some(place + 1),
    }
}

/// How many items a count takes from a list of this length. None for a count below 1 or past the length.
pub(super) fn taken_of(count: i64, len: usize) -> Option<usize>
    ensures { MatchOption result (may_take count len ≡ false) (λ n.
        (may_take count len ≡ true) × (n ≡ unsigned_abs count)) }
{
    if count < 1 {
        return None;
    }
    let taken = count as usize;
    if taken > len {
        return None;
    }
    Some(taken)
}

/// The place, where a list of this length has it.
pub(super) fn place_of(place: i64, len: usize) -> Option<usize>
    ensures { MatchOption result (is_place_of place len ≡ false) (λ i.
        (is_place_of place len ≡ true) × (i ≡ unsigned_abs place) × (i < len)) }
{
    if place < 0 {
        return None;
    }
    let place = place as usize;
    if place >= len {
        return None;
    }
    Some(place)
}

/// The first and the last place of a part, where a list of this length has it and it isn't empty.
pub(super) fn part_of(first: i64, last: i64, len: usize) -> Option<(usize, usize)>
    ensures { MatchOption result (is_part_of first last len ≡ false) (λ p.
        (is_part_of first last len ≡ true) × (p.0 ≡ unsigned_abs first) ×
        (p.1 ≡ unsigned_abs last) × (p.0 ≤ p.1) × (p.1 < len)) }
{
    if first < 0 || last < first {
        return None;
    }
    let first = first as usize;
    let last = last as usize;
    if last >= len {
        return None;
    }
    Some((first, last))
}
