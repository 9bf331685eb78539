// Commands that set texts at several keys.
ghost use Rattle.std.specs.Prelude.{◌≡◌, ◌++◌, map, IfOk, OnOk};
ghost use Rattle.std.specs.FinMap.{entries};
ghost use Rattle.mr_resp.specs.ReplyView.{view};
ghost use Rattle.mr_cmd_shared.specs.Keys.{dels, expired};
ghost use Rattle.mr_cmd_shared.specs.Commands.{Plans, on_keys};
ghost use Rattle.mr_keyspace.specs.Collections.{last_values};
ghost use Rattle.mr_cmd_string.specs.SettingAll.{names, set_effects, mset, msetnx};
ghost use Rattle.mr_cmd_string.specs.Finding.{is_any_live, is_any_expired, changed_at};

use crate::setting::is_plain;
use mr_arguments::{Argument, WordPairs, Words};
use mr_bytes::Word;
use mr_cmd_shared::{Effects, count, done, push_dels, see};
use mr_data::{Dataset, Effect, EffectPairs, Given};
use mr_map::SliceMap;
use mr_resp::Reply;
use std::alloc::{AllocError, Global};
use std::borrow::CowSlice;

/// `MSET`
pub fn mset(
    held: &Dataset,
    pairs: &WordPairs<'_, '_>,
    given: Given,
    effects: &mut Effects,
) -> Result<Reply, AllocError>
    ensures { IfOk result (λ r.
        Plans (on_keys (names pairs.now) (mset pairs.now)) given.now held.now (view r) effects.old
        effects.new) }
{
    let alloc = effects.alloc();
    let values = last_texts(alloc, pairs)?;
    let changed = find_changed(alloc, held, &values, given)?;
    if changed.expired {
        push_expired(held, pairs, given, effects)?;
    }
    push_texts(changed.texts, effects)?;
    Ok(done())
}

/// `MSETNX`
pub fn msetnx(
    held: &Dataset,
    pairs: &WordPairs<'_, '_>,
    given: Given,
    effects: &mut Effects,
) -> Result<Reply, AllocError>
    ensures { IfOk result (λ r.
        Plans (on_keys (names pairs.now) (msetnx pairs.now)) given.now held.now (view r) effects.old
        effects.new) }
{
    let (there, expired) = find_any(held, pairs, given);
    if expired {
        push_expired(held, pairs, given, effects)?;
    }
    if there {
        return Ok(count(0));
    }
    let alloc = effects.alloc();
    let values = last_texts(alloc, pairs)?;
    let texts = copied(alloc, &values)?;
    push_texts(texts, effects)?;
    Ok(count(1))
}

/// The keys that pairs name, each with its last text. They are not copied.
fn last_texts<'a>(
    alloc: Global,
    pairs: &WordPairs<'a, '_>,
) -> Result<SliceMap<'a, Argument<'a>>, AllocError>
    ensures { IfOk result (λ values. values ≡ last_values pairs.now) }
{
    let mut values = SliceMap::new(alloc);
    for (key, text) in pairs.iter() {
        values.insert(key, Argument::new(text))?;
    }
    Ok(values)
}

// The texts that change what their keys hold, and whether one of the keys is expired.
#[derive(Drop)]
struct Changed {
    texts: EffectPairs<'static>,
    expired: bool,
}

/// The keys, with their texts, that don't have these already without a deadline, and whether one of the keys is
/// expired.
fn find_changed(
    alloc: Global,
    held: &Dataset,
    values: &SliceMap<'_, Argument<'_>>,
    given: Given,
) -> Result<Changed, AllocError>
    ensures texts { IfOk result (λ c.
        c.texts ≡ changed_at given.now (entries values.now) held.now) }
    ensures expired { IfOk result (λ c.
        c.expired ≡ is_any_expired given.now (entries values.now) held.now) }
{
    let mut changed = Changed {
        texts: EffectPairs::new(alloc),
        expired: false,
    };
    for (key, text) in values.iter() {
        let (live_entry, expired) = see(held, key, given);
        changed.expired |= expired;
        if !is_plain(text.as_slice(), live_entry) {
            changed.texts.push(
                Word::copied(alloc, key)?,
                Word::copied(alloc, text.as_slice())?,
            )?;
        }
    }
    Ok(changed)
}

/// Whether one of the keys is there and not expired, and whether one is expired.
fn find_any(held: &Dataset, pairs: &WordPairs<'_, '_>, given: Given) -> (bool, bool)
    ensures there { result.0 ≡ is_any_live given.now pairs.now held.now }
    ensures expired { result.1 ≡ is_any_expired given.now pairs.now held.now }
{
    let mut any_there = false;
    let mut any_expired = false;
    for (key, _) in pairs.iter() {
        let (live_entry, expired) = see(held, key, given);
        any_there |= live_entry.is_some();
        any_expired |= expired;
    }
    (any_there, any_expired)
}

/// All keys with their texts, copied.
fn copied(
    alloc: Global,
    values: &SliceMap<'_, Argument<'_>>,
) -> Result<EffectPairs<'static>, AllocError>
    ensures { IfOk result (λ texts. texts ≡ entries values.now) }
{
    let mut texts = EffectPairs::new(alloc);
    for (key, text) in values.iter() {
        texts.push(
            Word::copied(alloc, key)?,
            Word::copied(alloc, text.as_slice())?,
        )?;
    }
    Ok(texts)
}

/// Puts a DEL for each of the keys that is expired, once.
fn push_expired(
    held: &Dataset,
    pairs: &WordPairs<'_, '_>,
    given: Given,
    effects: &mut Effects,
) -> Result<(), AllocError>
    ensures { OnOk result (effects.new ≡
        effects.old ++ dels (expired given.now (names pairs.now) held.now)) }
{
    let mut keys = Vec::new(effects.alloc());
    for (key, _) in pairs.iter() {
        keys.push(CowSlice::Borrowed(key))?;
    }
    let keys = Words::new(keys.as_slice());
    push_dels(held, &keys, given, true, effects)?;
    Ok(())
}

/// Puts the effect of texts that keys get, unless there is none.
fn push_texts(texts: EffectPairs<'static>, effects: &mut Effects) -> Result<(), AllocError>
    ensures { OnOk result (effects.new ≡ effects.old ++ set_effects texts.entry) }
{
    if texts.is_empty() {
        return Ok(());
    }
    effects.push(Effect::MSet { pairs: texts })?;
    Ok(())
}
