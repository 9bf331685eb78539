// Whether effects can be done, before they are. No look takes memory.
ghost use Rattle.std.specs.Prelude.{◌≡◌, IsTrue, is_some, option_copied};
ghost use Rattle.std.specs.Option.{option_and_then};
ghost use Rattle.std.specs.FinMap as map;
ghost use Rattle.mr_bytes.specs.declared.ends.End.{End};
ghost use Rattle.mr_bytes.specs.declared.ends.Side.{Side};
ghost use Rattle.mr_effect.specs.Effects.{has_spelling};
ghost use Rattle.mr_map.specs.Bytes.{Bytes};
ghost use Rattle.mr_keyspace.specs.Changes.{at_key, change, move_item, move_member};
ghost use Rattle.mr_keyspace.specs.Steps.{append_step, held, increase_step, insert_item_step, list_of, pop_step, set_item_step, set_range_step, sorted_sets, trim_step};

use crate::entries::Entries;
use crate::entries::lists::{part_of, place_of, taken_of};
use crate::entries::texts::sum_with;
use crate::value::Value;
use mr_bytes::fits;
use mr_effect::Effect;
use mr_value::{CompactBytes, ListValue};

impl Entries {
    /// Whether what an effect changes is defined here.
    #[tactic(auto, unfolding(crate::specs::Changes::change))]
    pub fn applies(&self, effect: &Effect<'_>) -> bool
        requires { IsTrue (has_spelling effect.now) }
        ensures { result ≡ is_some (change effect.now self.now) }
    {
        match effect {
            Effect::Set { .. } | Effect::SetUntil { .. } | Effect::SetKeeping { .. } => true,
            Effect::MSet { .. } | Effect::Del { .. } | Effect::Clear | Effect::Ping => true,
            Effect::Expire { key, .. } => self.by_key.contains_key(key.as_slice()),
            Effect::Persist { key } => self.by_key.contains_key(key.as_slice()),
            Effect::Rename { from, .. } => self.by_key.contains_key(from.as_slice()),
            Effect::Append { key, value } => self.can_append(key.as_slice(), value.as_slice()),
            Effect::SetRange { key, offset, value } => {
                self.can_write(key.as_slice(), *offset, value.as_slice())
            }
            Effect::Increase { key, by } => self.can_increase(key.as_slice(), *by),
            Effect::SetFields { key, .. } => self.takes_fields(key.as_slice()),
            Effect::RemoveFields { key, .. } => self.takes_fields(key.as_slice()),
            Effect::Push { key, .. } => self.takes_items(key.as_slice()),
            Effect::RemoveItems { key, .. } => self.takes_items(key.as_slice()),
            Effect::Pop { key, count, .. } => self.can_pop(key.as_slice(), *count),
            Effect::SetItem { key, place, .. } => self.can_set_item(key.as_slice(), *place),
            Effect::InsertItem { key, pivot, .. } => {
                self.has_item(key.as_slice(), pivot.as_slice())
            }
            Effect::Trim { key, first, last } => self.can_trim(key.as_slice(), *first, *last),
            Effect::MoveItem { from, to, .. } => self.can_move_item(from.as_slice(), to.as_slice()),
            Effect::AddMembers { key, .. } => self.takes_members(key.as_slice()),
            Effect::RemoveMembers { key, .. } => self.takes_members(key.as_slice()),
            Effect::MoveMember { from, to, member } => {
                self.can_move_member(from.as_slice(), to.as_slice(), member.as_slice())
            }
            Effect::SetScores { key, .. } => self.takes_scores(key.as_slice()),
            Effect::RemoveScores { key, .. } => self.takes_scores(key.as_slice()),
        }
    }

    /// The list at a key, if it holds one.
    fn list_at(&self, key: &[u8]) -> Option<&ListValue>
        ensures { option_copied result ≡
            option_and_then (λ e. list_of e.value) (map.get self.now key.now) }
    {
        match self.by_key.get(key) {
            None => None,
            Some(entry) => match &entry.value {
                Value::List(list) => Some(list),
                _ => None,
            },
        }
    }

    /// Whether scores may be put to the key.
    fn takes_scores(&self, key: &[u8]) -> bool
        ensures { result ≡ is_some (held sorted_sets (map.get self.now key.now)) }
    {
        match self.by_key.get(key) {
            None => true,
            Some(entry) => is_sorted_set(&entry.value),
        }
    }

    /// Whether more can be put behind the text at a key.
    fn can_append(&self, key: &[u8], more: &[u8]) -> bool
        ensures { result ≡ is_some (at_key (append_step more.now) key.now self.now) }
    {
        match self.by_key.get(key) {
            None => fits(more),
            Some(entry) => match &entry.value {
                Value::Text(text) => text.fits_with(more),
                _ => false,
            },
        }
    }

    /// Whether a part can be written over the text at a key, from an offset on.
    fn can_write(&self, key: &[u8], offset: i64, part: &[u8]) -> bool
        ensures { result ≡ is_some (at_key (set_range_step offset part.now) key.now self.now) }
    {
        if part.is_empty() {
            return self.takes_text(key);
        }
        let offset = offset.unsigned_abs() as usize;
        match self.by_key.get(key) {
            None => CompactBytes::new().fits_overwritten(offset, part),
            Some(entry) => match &entry.value {
                Value::Text(text) => text.fits_overwritten(offset, part),
                _ => false,
            },
        }
    }

    /// Whether the number can be made greater that the text at a key spells.
    fn can_increase(&self, key: &[u8], by: i64) -> bool
        ensures { result ≡ is_some (at_key (increase_step by) key.now self.now) }
    {
        match self.by_key.get(key) {
            None => sum_with(by, b"0").is_some(),
            Some(entry) => match &entry.value {
                Value::Text(text) => sum_with(by, text.as_slice()).is_some(),
                _ => false,
            },
        }
    }

    /// Whether so many items can be taken from the list at a key.
    fn can_pop(&self, key: &[u8], count: i64) -> bool
        ensures { (end : End) → result ≡ is_some (at_key (pop_step end count) key.now self.now) }
    {
        match self.list_at(key) {
            Some(list) => taken_of(count, list.len()).is_some(),
            None => false,
        }
    }

    /// Whether the list at a key has this place.
    fn can_set_item(&self, key: &[u8], place: i64) -> bool
        ensures { (item : Bytes) →
            result ≡ is_some (at_key (set_item_step place item) key.now self.now) }
    {
        match self.list_at(key) {
            Some(list) => place_of(place, list.len()).is_some(),
            None => false,
        }
    }

    /// Whether the list at a key has this item.
    fn has_item(&self, key: &[u8], pivot: &[u8]) -> bool
        ensures { (side : Side) (item : Bytes) →
            result ≡ is_some (at_key (insert_item_step side pivot.now item) key.now self.now) }
    {
        match self.list_at(key) {
            Some(list) => list.position(pivot).is_some(),
            None => false,
        }
    }

    /// Whether the list at a key has this part.
    fn can_trim(&self, key: &[u8], first: i64, last: i64) -> bool
        ensures { result ≡ is_some (at_key (trim_step first last) key.now self.now) }
    {
        match self.list_at(key) {
            Some(list) => part_of(first, last, list.len()).is_some(),
            None => false,
        }
    }

    /// Whether an item can be taken from one key's list and put to another's, or to the same.
    fn can_move_item(&self, from: &[u8], to: &[u8]) -> bool
        ensures { (taken put : End) →
            result ≡ is_some (move_item from.now to.now taken put self.now) }
    {
        let Some(list) = self.list_at(from) else {
            return false;
        };
        if list.is_empty() {
            return false;
        }
        from == to || self.takes_items(to)
    }

    /// Whether a member can be taken from one key's set and put to another's, or to the same.
    fn can_move_member(&self, from: &[u8], to: &[u8], member: &[u8]) -> bool
        ensures { result ≡ is_some (move_member from.now to.now member.now self.now) }
    {
        if !self.has_member(from, member) {
            return false;
        }
        from == to || self.takes_members(to)
    }
}

/// Whether a value is a sorted set.
fn is_sorted_set(value: &Value) -> bool
    ensures { result ≡ is_some (sorted_sets.of value.now) }
{
    match value {
        Value::SortedSet(_) => true,
        Value::Text(_) | Value::Hash(_) | Value::List(_) | Value::Set(_) => false,
    }
}
