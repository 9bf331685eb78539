// The effects that make a dataset again, as text.
ghost use Rattle.std.specs.Prelude.{◌≡◌, ◌≤◌, ◌++◌, All, map, length, IfOk, IsTrue, OnOk, Some};
ghost use Rattle.std.specs.FinMap.{empty, get};
ghost use Rattle.mr_bytes.specs.declared.ends.End.TheVariants.{Right};
ghost use Rattle.mr_effect.specs.declared.effect.Effect.TheVariants as made;
ghost use Rattle.mr_effect.specs.Effects.{has_spelling, words_fit};
ghost use Rattle.mr_effect.specs.Spelling.{text, texts, IsShort};
ghost use Rattle.mr_keyspace.specs.Cuts.{cut, most_items};
ghost use Rattle.mr_keyspace.specs.declared.value.Value.TheVariants as stored;
ghost use Rattle.mr_data.specs.Dataset.{IsDataset};
ghost use Rattle.mr_data.specs.Meaning.{apply_all};
ghost use Rattle.mr_data.specs.Rebuilding.{rebuilding, rebuilt, rebuilt_value, rebuilt_deadline};

use crate::dataset::Dataset;
use mr_bytes::{End, Word};
use mr_effect::{Effect, EffectPairs, EffectWords, Scores, encode};
use mr_keyspace::Value;
use mr_value::{Hash, ListValue, SetValue};
use mr_zset::ZSet;
use std::alloc::{AllocError, Global};

// So many items are in one effect at most.
const MOST_ITEMS: usize = 64;

impl Dataset {
    /// The texts of effects that make the dataset again out of nothing, expired keys included, in byte order of keys. Each of
    /// the effects has a command text.
    pub fn rebuild(&self, alloc: Global) -> Result<Vec<u8>, AllocError>
        ensures text { IfOk result (λ text. text.items ≡ texts (rebuilding self.now)) }
        ensures again { apply_all (rebuilding self.now) empty ≡ Some self.now }
        ensures spelled { All (λ e. IsTrue (has_spelling e)) (rebuilding self.now) }
        ensures fit { All (λ e. IsTrue (words_fit e)) (rebuilding self.now) }
        ensures short { All IsShort (rebuilding self.now) }
    {
        self.effect_texts(alloc)
    }

    /// The texts of effects that make the dataset again out of nothing, in byte order of keys.
    fn effect_texts(&self, alloc: Global) -> Result<Vec<u8>, AllocError>
        ensures text { IfOk result (λ text. text.items ≡ texts (rebuilding self.now)) }
        ensures kept { IsDataset self.now }
    {
        let mut out = Vec::new(alloc);
        for key in self.keys() {
            self.push_key(alloc, key, &mut out)?;
        }
        Ok(out)
    }

    /// Appends the texts of the effects that make one key again, and none where it isn't there.
    fn push_key(&self, alloc: Global, key: &[u8], out: &mut Vec<u8>) -> Result<(), AllocError>
        ensures text { OnOk result (out.new.items ≡
            out.old.items ++ texts (rebuilt key.now (get self.now key.now))) }
        ensures kept { IsDataset self.now }
    {
        let Some(entry) = self.entry(key) else {
            return Ok(());
        };
        push_value(alloc, key, &entry.value, out)?;
        push_deadline(key, entry.deadline, out)
    }
}

/// Appends the text of one effect, which is dropped here: one function has to let go of every kind of effect.
fn push_effect(effect: Effect<'_>, out: &mut Vec<u8>) -> Result<(), AllocError>
    ensures { OnOk result (out.new.items ≡ out.old.items ++ text effect.entry) }
{
    encode(&effect, out)
}

/// Appends the text of the effect that gives a key its deadline in milliseconds, if it has one.
fn push_deadline(key: &[u8], deadline: Option<i64>, out: &mut Vec<u8>) -> Result<(), AllocError>
    ensures { OnOk result (out.new.items ≡
        out.old.items ++ texts (rebuilt_deadline key.now deadline)) }
{
    let Some(deadline) = deadline else {
        return Ok(());
    };
    let key = Word::borrowed(key);
    push_effect(Effect::Expire { key, deadline }, out)
}

/// Appends the texts of the effects that make a key's value again, without its deadline.
fn push_value<'d>(
    alloc: Global,
    key: &'d [u8],
    value: &'d Value,
    out: &mut Vec<u8>,
) -> Result<(), AllocError>
    ensures { OnOk result (out.new.items ≡
        out.old.items ++ texts (rebuilt_value key.now value.now)) }
{
    match value {
        Value::Text(text) => push_text(key, text.as_slice(), out),
        Value::Hash(fields) => push_hash(alloc, key, fields, out),
        Value::List(items) => push_list(alloc, key, items, out),
        Value::Set(members) => push_set(alloc, key, members, out),
        Value::SortedSet(scores) => push_sorted_set(alloc, key, scores, out),
    }
}

/// Appends the text of the effect that sets a key to a text.
fn push_text<'d>(key: &'d [u8], text: &'d [u8], out: &mut Vec<u8>) -> Result<(), AllocError>
    ensures { OnOk result (out.new.items ≡
        out.old.items ++ texts (rebuilt_value key.now (stored.Text text.now))) }
{
    let key = Word::borrowed(key);
    let value = Word::borrowed(text);
    push_effect(Effect::Set { key, value }, out)
}

/// Appends the texts of the effects that make a key's hash again, with at most `MOST_ITEMS` fields in each.
fn push_hash<'d>(
    alloc: Global,
    key: &'d [u8],
    fields: &'d Hash,
    out: &mut Vec<u8>,
) -> Result<(), AllocError>
    ensures { OnOk result (out.new.items ≡
        out.old.items ++ texts (rebuilt_value key.now (stored.Hash fields.now))) }
{
    let mut group = EffectPairs::new(alloc);
    for (field, value) in fields.iter() {
        group.push(Word::borrowed(field), Word::borrowed(value))?;
        if group.len() == MOST_ITEMS {
            push_fields(key, group, out)?;
            group = EffectPairs::new(alloc);
        }
    }
    push_fields(key, group, out)
}

/// Appends the text of the effect that sets a group of fields, and nothing where it is empty.
fn push_fields<'d>(
    key: &'d [u8],
    pairs: EffectPairs<'d>,
    out: &mut Vec<u8>,
) -> Result<(), AllocError>
    requires { length pairs ≤ most_items }
    ensures { OnOk result (out.new.items ≡
        out.old.items ++ texts (map (made.SetFields key.now) (cut pairs.entry))) }
{
    if pairs.is_empty() {
        return Ok(());
    }
    let key = Word::borrowed(key);
    push_effect(Effect::SetFields { key, pairs }, out)
}

/// Appends the texts of the effects that make a key's list again, with at most `MOST_ITEMS` items in each.
fn push_list<'d>(
    alloc: Global,
    key: &'d [u8],
    items: &'d ListValue,
    out: &mut Vec<u8>,
) -> Result<(), AllocError>
    ensures { OnOk result (out.new.items ≡
        out.old.items ++ texts (rebuilt_value key.now (stored.List items.now))) }
{
    let mut group = EffectWords::new(alloc);
    for item in items.iter() {
        group.push(Word::borrowed(item))?;
        if group.len() == MOST_ITEMS {
            push_items(key, group, out)?;
            group = EffectWords::new(alloc);
        }
    }
    push_items(key, group, out)
}

/// Appends the text of the effect that puts a group of items at the right end, and nothing where it is empty.
fn push_items<'d>(
    key: &'d [u8],
    items: EffectWords<'d>,
    out: &mut Vec<u8>,
) -> Result<(), AllocError>
    requires { length items ≤ most_items }
    ensures { OnOk result (out.new.items ≡
        out.old.items ++ texts (map (made.Push key.now Right) (cut items.entry))) }
{
    if items.is_empty() {
        return Ok(());
    }
    let key = Word::borrowed(key);
    let end = End::Right;
    push_effect(Effect::Push { key, end, items }, out)
}

/// Appends the texts of the effects that make a key's set again, with at most `MOST_ITEMS` members in each.
fn push_set<'d>(
    alloc: Global,
    key: &'d [u8],
    members: &'d SetValue,
    out: &mut Vec<u8>,
) -> Result<(), AllocError>
    ensures { OnOk result (out.new.items ≡
        out.old.items ++ texts (rebuilt_value key.now (stored.Set members.now))) }
{
    let mut group = EffectWords::new(alloc);
    for member in members.members() {
        group.push(Word::borrowed(member))?;
        if group.len() == MOST_ITEMS {
            push_members(key, group, out)?;
            group = EffectWords::new(alloc);
        }
    }
    push_members(key, group, out)
}

/// Appends the text of the effect that adds a group of members, and nothing where it is empty.
fn push_members<'d>(
    key: &'d [u8],
    members: EffectWords<'d>,
    out: &mut Vec<u8>,
) -> Result<(), AllocError>
    requires { length members ≤ most_items }
    ensures { OnOk result (out.new.items ≡
        out.old.items ++ texts (map (made.AddMembers key.now) (cut members.entry))) }
{
    if members.is_empty() {
        return Ok(());
    }
    let key = Word::borrowed(key);
    push_effect(Effect::AddMembers { key, members }, out)
}

/// Appends the texts of the effects that make a key's sorted set again, with at most `MOST_ITEMS` members in each.
fn push_sorted_set<'d>(
    alloc: Global,
    key: &'d [u8],
    scores: &'d ZSet,
    out: &mut Vec<u8>,
) -> Result<(), AllocError>
    ensures { OnOk result (out.new.items ≡
        out.old.items ++ texts (rebuilt_value key.now (stored.SortedSet scores.now))) }
{
    let mut group = Scores::new(alloc);
    for (member, score) in scores.iter() {
        group.push(Word::borrowed(member), *score)?;
        if group.len() == MOST_ITEMS {
            push_scores(key, group, out)?;
            group = Scores::new(alloc);
        }
    }
    push_scores(key, group, out)
}

/// Appends the text of the effect that sets a group of scores, and nothing where it is empty.
fn push_scores<'d>(key: &'d [u8], scores: Scores<'d>, out: &mut Vec<u8>) -> Result<(), AllocError>
    requires { length scores ≤ most_items }
    ensures { OnOk result (out.new.items ≡
        out.old.items ++ texts (map (made.SetScores key.now) (cut scores.entry))) }
{
    if scores.is_empty() {
        return Ok(());
    }
    let key = Word::borrowed(key);
    push_effect(Effect::SetScores { key, scores }, out)
}
