// Effects whose lists of words are copied.
ghost use Rattle.std.specs.Prelude.{◌≡◌, is_some, IsTrue, IfOk};
ghost use Rattle.std.specs.FinMap as map;
ghost use Rattle.mr_effect.specs.Effects.{is_some_of};
ghost use Rattle.mr_keyspace.specs.Changes.{at_key};
ghost use Rattle.mr_keyspace.specs.Steps.{hashes, lists, sets, held, set_fields_step, push_step, add_members_step};
ghost use Rattle.mr_keyspace.specs.Outcome.{Applies};

use crate::entries::Entries;
use crate::fault::ApplyFault;
use crate::value::Value;
use mr_bytes::{End, Word};
use mr_effect::{EffectPairs, EffectWords};
use std::alloc::{AllocError, Global};

impl Entries {
    /// Sets fields of the hash at a key.
    pub(super) fn copy_fields(
        &mut self,
        key: &Word<'_>,
        pairs: &EffectPairs<'_>,
    ) -> Result<(), ApplyFault>
        requires { IsTrue (is_some_of pairs.now) }
        ensures { Applies (at_key (set_fields_step pairs.now) key.now self.old) self.old result
            self.new }
    {
        if !self.takes_fields(key.as_slice()) {
            return Err(ApplyFault::Refused);
        }
        let pairs = same_pairs(self.alloc, pairs.as_slice())?;
        self.set_fields(same(key), pairs)
    }

    /// Puts items at an end of the list at a key.
    pub(super) fn copy_items(
        &mut self,
        key: &Word<'_>,
        end: End,
        items: &EffectWords<'_>,
    ) -> Result<(), ApplyFault>
        requires { IsTrue (is_some_of items.now) }
        ensures { Applies (at_key (push_step end items.now) key.now self.old) self.old result
            self.new }
    {
        if !self.takes_items(key.as_slice()) {
            return Err(ApplyFault::Refused);
        }
        let items = same_words(self.alloc, items.as_slice())?;
        self.push(same(key), end, items)
    }

    /// Adds members to the set at a key.
    pub(super) fn copy_members(
        &mut self,
        key: &Word<'_>,
        members: &EffectWords<'_>,
    ) -> Result<(), ApplyFault>
        requires { IsTrue (is_some_of members.now) }
        ensures { Applies (at_key (add_members_step members.now) key.now self.old) self.old result
            self.new }
    {
        if !self.takes_members(key.as_slice()) {
            return Err(ApplyFault::Refused);
        }
        let members = same_words(self.alloc, members.as_slice())?;
        self.add_members(same(key), members)
    }

    /// Whether fields may be put to the key.
    pub(super) fn takes_fields(&self, key: &[u8]) -> bool
        ensures { result ≡ is_some (held hashes (map.get self.now key.now)) }
    {
        match self.by_key.get(key) {
            None => true,
            Some(entry) => is_hash(&entry.value),
        }
    }

    /// Whether items may be put to the key.
    pub(super) fn takes_items(&self, key: &[u8]) -> bool
        ensures { result ≡ is_some (held lists (map.get self.now key.now)) }
    {
        match self.by_key.get(key) {
            None => true,
            Some(entry) => is_list(&entry.value),
        }
    }

    /// Whether members may be put to the key.
    pub(super) fn takes_members(&self, key: &[u8]) -> bool
        ensures { result ≡ is_some (held sets (map.get self.now key.now)) }
    {
        match self.by_key.get(key) {
            None => true,
            Some(entry) => is_set(&entry.value),
        }
    }
}

/// Whether a value is a hash.
fn is_hash(value: &Value) -> bool
    ensures { result ≡ is_some (hashes.of value.now) }
{
    match value {
        Value::Hash(_) => true,
        Value::Text(_) | Value::List(_) | Value::Set(_) | Value::SortedSet(_) => false,
    }
}

/// Whether a value is a list.
fn is_list(value: &Value) -> bool
    ensures { result ≡ is_some (lists.of value.now) }
{
    match value {
        Value::List(_) => true,
        Value::Text(_) | Value::Hash(_) | Value::Set(_) | Value::SortedSet(_) => false,
    }
}

/// Whether a value is a set.
fn is_set(value: &Value) -> bool
    ensures { result ≡ is_some (sets.of value.now) }
{
    match value {
        Value::Set(_) => true,
        Value::Text(_) | Value::Hash(_) | Value::List(_) | Value::SortedSet(_) => false,
    }
}

/// The word, borrowed.
pub(super) fn same<'a>(word: &'a Word<'_>) -> Word<'a>
    ensures { result ≡ word.now }
{
    Word::borrowed(word.as_slice())
}

/// The words, borrowed.
fn same_words<'a>(alloc: Global, words: &'a [Word<'_>]) -> Result<EffectWords<'a>, AllocError>
    ensures { IfOk result (λ ws. ws ≡ words.now) }
{
    let mut same_words = EffectWords::new(alloc);
    for word in words {
        same_words.push(same(word))?;
    }
    Ok(same_words)
}

/// The keys or fields with their values, borrowed.
fn same_pairs<'a>(
    alloc: Global,
    pairs: &'a [(Word<'_>, Word<'_>)],
) -> Result<EffectPairs<'a>, AllocError>
    ensures { IfOk result (λ ps. ps ≡ pairs.now) }
{
    let mut same_pairs = EffectPairs::new(alloc);
    for pair in pairs {
        same_pairs.push(same(&pair.0), same(&pair.1))?;
    }
    Ok(same_pairs)
}
