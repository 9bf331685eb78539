// Fields that get values.
ghost use Rattle.std.specs.Prelude.{◌≡◌, ◌≢◌, ◌<◌, ◌^◌, [], ◌∷◌, ◌++◌, if◌then◌else◌, map, length, filter, not, IfOk, IfSome, IfNone, OnOk, option_copied};
ghost use Rattle.std.specs.FinMap.{entries, get, contains_key};
ghost use Rattle.mr_resp.specs.ReplyView.{view};
ghost use Rattle.mr_effect.specs.declared.effect.Effect.TheVariants as made;
ghost use Rattle.mr_keyspace.specs.Cuts.{cut};
ghost use Rattle.mr_cmd_hash.specs.Hashes.{is_value, last_values, fields_reply, hset, hsetnx, number_at, hincrby};
ghost use Rattle.mr_cmd_hash.specs.Commands.{Makes};

use crate::groups::{PairGroup, end_pairs};
use crate::hash_ask::FieldsReply;
use crate::replies::{no_integer, overflow};
use itoa::Buffer;
use mr_arguments::{Argument, WordPairs};
use mr_bytes::read_i64;
use mr_cmd_shared::{Effects, count, done, integer};
use mr_map::SliceMap;
use mr_resp::Reply;
use mr_value::Hash;
use std::alloc::{AllocError, Global};

/// The fields that pairs name, each with its last value. They are not copied.
fn last_values<'a>(
    alloc: Global,
    pairs: &WordPairs<'a, '_>,
) -> Result<SliceMap<'a, Argument<'a>>, AllocError>
    ensures { IfOk result (λ values. values ≡ last_values pairs.now) }
{
    let mut values = SliceMap::new(alloc);
    for (field, value) in pairs.iter() {
        values.insert(field, Argument::new(value))?;
    }
    Ok(values)
}

/// Puts the effects of fields that get these values, and answers how many of them are new.
fn push_changed(
    key: &Argument<'_>,
    values: &SliceMap<'_, Argument<'_>>,
    hash: &Hash,
    effects: &mut Effects,
) -> Result<usize, AllocError>
    ensures new { IfOk result (λ new.
        new ≡ length (filter (λ p. not (contains_key hash.now p.0)) (entries values.now))) }
    ensures small { IfOk result (λ new. new < 2 ^ 63) }
    ensures effects { OnOk result (effects.new ≡
        effects.old ++
        map (made.SetFields key.now)
        (cut (filter (λ p. not (is_value p.1 (get hash.now p.0))) (entries values.now)))) }
{
    let mut group = PairGroup::new(effects.alloc(), key.as_slice());
    let mut new = values.len();
    for (field, value) in values.iter() {
        let before = hash.get(field);
        group.push(field, value.as_slice(), before, effects)?;
        new -= usize::from(before.is_some());
    }
    end_pairs(group, effects)?;
    Ok(new)
}

/// What is answered where so many fields are new.
fn fields_reply(reply: FieldsReply, new: usize) -> Reply
    requires { new < 2 ^ 63 }
    ensures { view result ≡ fields_reply reply new }
{
    match reply {
        FieldsReply::Added => count(new),
        FieldsReply::Done => done(),
    }
}

/// A field with the value that it gets.
#[derive(Clone, Copy)]
struct FieldValue<'w> {
    field: &'w [u8],
    value: &'w [u8],
}

/// The field with its value, where pairs are one alone.
fn only_pair<'a>(pairs: &WordPairs<'a, '_>) -> Option<FieldValue<'a>>
    ensures one { IfSome result (λ p. pairs.now ≡ (p.field.now, p.value.now) ∷ []) }
    ensures other { IfNone result (length pairs.now ≢ 1) }
{
    if pairs.len() != 1 {
        return None;
    }
    let (field, value) = pairs.iter().next()?;
    Some(FieldValue { field, value })
}

/// Puts the effect of one field that gets a value, unless it has it already.
fn push_pair(
    key: &Argument<'_>,
    pair: FieldValue<'_>,
    before: Option<&[u8]>,
    effects: &mut Effects,
) -> Result<(), AllocError>
    ensures { OnOk result (effects.new ≡
        effects.old ++
        map (made.SetFields key.now)
        (cut (if is_value pair.entry.value.now (option_copied before.entry) then []
        else (pair.entry.field.now, pair.entry.value.now) ∷ []))) }
{
    let mut group = PairGroup::new(effects.alloc(), key.as_slice());
    group.push(pair.field, pair.value, before, effects)?;
    end_pairs(group, effects)?;
    Ok(())
}

/// What `HSET` or `HMSET` of one field is answered, without putting fields in order. Its effect is put behind those
/// that are there.
fn set_field(
    key: &Argument<'_>,
    pair: FieldValue<'_>,
    reply: FieldsReply,
    hash: &Hash,
    effects: &mut Effects,
) -> Result<Reply, AllocError>
    ensures { IfOk result (λ r.
        Makes (hset key.now reply ((pair.entry.field.now, pair.entry.value.now) ∷ []) hash.now)
        (view r) effects.old effects.new) }
{
    let before = hash.get(pair.field);
    push_pair(key, pair, before, effects)?;
    Ok(fields_reply(reply, usize::from(before.is_none())))
}

/// `HSET`, `HMSET`
pub fn hset(
    key: &Argument<'_>,
    pairs: &WordPairs<'_, '_>,
    reply: FieldsReply,
    hash: &Hash,
    effects: &mut Effects,
) -> Result<Reply, AllocError>
    ensures { IfOk result (λ r.
        Makes (hset key.now reply pairs.now hash.now) (view r) effects.old effects.new) }
{
    if let Some(pair) = only_pair(pairs) {
        return set_field(key, pair, reply, hash, effects);
    }
    let values = last_values(effects.alloc(), pairs)?;
    let new = push_changed(key, &values, hash, effects)?;
    Ok(fields_reply(reply, new))
}

/// `HSETNX`
pub fn hsetnx(
    key: &Argument<'_>,
    field: &Argument<'_>,
    value: &Argument<'_>,
    hash: &Hash,
    effects: &mut Effects,
) -> Result<Reply, AllocError>
    ensures { IfOk result (λ r.
        Makes (hsetnx key.now field.now value.now hash.now) (view r) effects.old effects.new) }
{
    if hash.contains(field.as_slice()) {
        return Ok(integer(0));
    }
    let pair = FieldValue {
        field: field.as_slice(),
        value: value.as_slice(),
    };
    push_pair(key, pair, None, effects)?;
    Ok(integer(1))
}

/// The number that a field holds: 0 where it isn't there. None where its value spells none.
fn number_at(before: Option<&[u8]>) -> Option<i64>
    ensures { result ≡ number_at (option_copied before.entry) }
{
    match before {
        None => Some(0),
        Some(text) => read_i64(text),
    }
}

/// `HINCRBY`
pub fn hincrby(
    key: &Argument<'_>,
    field: &Argument<'_>,
    by: i64,
    hash: &Hash,
    effects: &mut Effects,
) -> Result<Reply, AllocError>
    ensures { IfOk result (λ r.
        Makes (hincrby key.now field.now by hash.now) (view r) effects.old effects.new) }
{
    let before = hash.get(field.as_slice());
    let Some(number) = number_at(before) else {
        return Ok(no_integer());
    };
    let Some(sum) = number.checked_add(by) else {
        return Ok(overflow());
    };
    let mut buffer = Buffer::new();
    let text = buffer.format(sum).as_bytes();
    let pair = FieldValue {
        field: field.as_slice(),
        value: text,
    };
    push_pair(key, pair, before, effects)?;
    Ok(integer(sum))
}
