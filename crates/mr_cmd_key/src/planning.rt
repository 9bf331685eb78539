// The plan of a command on keys, whatever they hold.
ghost use Rattle.std.specs.Prelude.{◌≡◌, [], ◌∷◌, IfOk, IsTrue, option_copied};
ghost use Rattle.std.specs.List.{list_all};
ghost use Rattle.mr_bytes.specs.Words.{fits};
ghost use Rattle.mr_resp.specs.ReplyView.{view};
ghost use Rattle.mr_data.specs.Dataset.{seen};
ghost use Rattle.mr_cmd_key.specs.Carried.{key_words};
ghost use Rattle.mr_cmd_shared.specs.Commands.{IsPlan, Plans, IsFaithful, HasCommandTexts, on_key, on_keys, on_none};
ghost use Rattle.mr_cmd_key.specs.Commands.{command, HasDeadline};
ghost use Rattle.mr_cmd_key.specs.Kinds.{type_answer};
ghost use Rattle.mr_cmd_key.specs.Expiring.{expire_answer, persist_answer, deadline_answer};
ghost use Rattle.mr_cmd_key.specs.Outcomes.{deleted, counted};
ghost use Rattle.mr_cmd_key.specs.Renaming.{cleared};
ghost use Rattle.mr_cmd_key.specs.Listing.{matching, scanned, sized};

use crate::counting::count_present;
use crate::expiring::{DeadlineForm, ExpireRules};
use crate::key_ask::{Cursor, KeyAsk};
use crate::listing::KeyFilter;
use crate::renaming::{rename, renamenx};
use crate::{expiring, kinds, listing};
use mr_arguments::{Argument, Words};
use mr_bytes::Word;
use mr_cmd_shared::{Effects, count, done, integer, look, push_dels};
use mr_data::{Dataset, Effect, Given, Plan};
use mr_resp::Reply;
use std::alloc::{AllocError, Global};

/// What a command on keys is answered, and its effects. The dataset isn't changed, and the plan owns what it holds.
///
/// # Errors
///
/// Memory ran out.
pub fn plan(
    alloc: Global,
    held: &Dataset,
    ask: &KeyAsk<'_, '_>,
    given: Given,
) -> Result<Plan, AllocError>
    ensures plan { IfOk result (λ p.
        IsPlan (command ask.now given.now) given.now held.now (view p.reply) p.effects.items) }

    // The effects lead to what the command leaves, and its own ones are there exactly where it changes something.
    ensures faithful { IsTrue (list_all fits (key_words ask.now)) →
        IsFaithful (command ask.now given.now) given.now held.now }

    // .. and their texts are command texts.
    ensures texts { IsTrue (list_all fits (key_words ask.now)) →
        HasCommandTexts (command ask.now given.now) given.now held.now }
{
    deadline_can_be_named(ask, given);
    planned(alloc, held, ask, given)
}

/// The deadline that a command sets was read within limits. Where it lies ahead, it is within those of effects.
fn deadline_can_be_named(ask: &KeyAsk<'_, '_>, given: Given)
    ensures { HasDeadline ask.now given.now }
{
    if let KeyAsk::Expire { expiry, .. } = ask {
        let _deadline = expiry.deadline(given.now());
    }
}

/// What a command is answered, and its effects.
fn planned(
    alloc: Global,
    held: &Dataset,
    ask: &KeyAsk<'_, '_>,
    given: Given,
) -> Result<Plan, AllocError>
    ensures { IfOk result (λ p.
        IsPlan (command ask.now given.now) given.now held.now (view p.reply) p.effects.items) }
{
    let mut effects = Effects::new(alloc);
    let reply = reply_to(held, ask, given, &mut effects)?;
    Ok(effects.into_plan(reply))
}

/// What a command is answered. Its effects are put behind those that are there.
fn reply_to(
    held: &Dataset,
    ask: &KeyAsk<'_, '_>,
    given: Given,
    effects: &mut Effects,
) -> Result<Reply, AllocError>
    ensures { IfOk result (λ r.
        Plans (command ask.now given.now) given.now held.now (view r) effects.old effects.new) }
{
    match ask {
        KeyAsk::Del { keys } => delete(held, keys, given, effects),
        KeyAsk::Unlink { keys } => delete(held, keys, given, effects),
        KeyAsk::Exists { keys } => exists(held, keys, given, effects),
        KeyAsk::KeyType { key } => key_type(held, key, given, effects),
        KeyAsk::Keys { pattern } => keys(effects.alloc(), held, pattern, given),
        KeyAsk::Scan {
            cursor,
            pattern,
            kind,
        } => {
            let filter = KeyFilter {
                pattern: bytes_of(pattern),
                kind: *kind,
            };
            scan(effects.alloc(), held, *cursor, filter, given)
        }
        KeyAsk::DbSize => Ok(dbsize(held, given)),
        KeyAsk::Rename { from, to } => rename(held, from, to, given, effects),
        KeyAsk::RenameNx { from, to } => renamenx(held, from, to, given, effects),
        KeyAsk::Clear { .. } => clear(held, given, effects),
        KeyAsk::Expire {
            key,
            expiry,
            condition,
        } => {
            let rules = ExpireRules::said(*condition, *expiry, given);
            expire(held, key, rules, given, effects)
        }
        KeyAsk::Ttl { key } => deadline(held, key, DeadlineForm::SecondsLeft, given, effects),
        KeyAsk::PTtl { key } => {
            deadline(held, key, DeadlineForm::MillisecondsLeft, given, effects)
        }
        KeyAsk::ExpireTime { key } => deadline(held, key, DeadlineForm::Second, given, effects),
        KeyAsk::PExpireTime { key } => {
            deadline(held, key, DeadlineForm::Millisecond, given, effects)
        }
        KeyAsk::Persist { key } => persist(held, key, given, effects),
    }
}

/// What `DEL` and `UNLINK` are answered: how many of the keys were there. The DELs of expired keys and of those that go
/// are put behind the effects that are there.
fn delete(
    held: &Dataset,
    keys: &Words<'_, '_>,
    given: Given,
    effects: &mut Effects,
) -> Result<Reply, AllocError>
    ensures { IfOk result (λ r.
        Plans (on_keys keys.now (deleted keys.now)) given.now held.now (view r) effects.old
        effects.new) }
{
    if let [only] = keys.as_slice() {
        return delete_one(held, &Argument::of(only), given, effects);
    }
    push_dels(held, keys, given, true, effects)?;
    let count = push_dels(held, keys, given, false, effects)?;
    Ok(integer(count))
}

/// What `DEL` and `UNLINK` of one key are answered. It is looked up once.
fn delete_one(
    held: &Dataset,
    key: &Argument<'_>,
    given: Given,
    effects: &mut Effects,
) -> Result<Reply, AllocError>
    ensures { IfOk result (λ r.
        Plans (on_keys (key.now ∷ []) (deleted (key.now ∷ []))) given.now held.now (view r)
        effects.old effects.new) }
{
    let live_entry = look(held, key, given, effects)?;
    if live_entry.is_none() {
        return Ok(integer(0));
    }
    effects.push(Effect::Del {
        key: Word::copied(effects.alloc(), key.as_slice())?,
    })?;
    Ok(integer(1))
}

/// What `EXISTS` is answered. The DELs of expired keys are put behind the effects that are there.
fn exists(
    held: &Dataset,
    keys: &Words<'_, '_>,
    given: Given,
    effects: &mut Effects,
) -> Result<Reply, AllocError>
    ensures { IfOk result (λ r.
        Plans (on_keys keys.now (counted keys.now)) given.now held.now (view r) effects.old
        effects.new) }
{
    if let [only] = keys.as_slice() {
        return exists_one(held, &Argument::of(only), given, effects);
    }
    push_dels(held, keys, given, true, effects)?;
    let present = count_present(held, keys.as_slice(), given);
    Ok(count(present))
}

/// What `EXISTS` of one key is answered. It is looked up once.
fn exists_one(
    held: &Dataset,
    key: &Argument<'_>,
    given: Given,
    effects: &mut Effects,
) -> Result<Reply, AllocError>
    ensures { IfOk result (λ r.
        Plans (on_keys (key.now ∷ []) (counted (key.now ∷ []))) given.now held.now (view r)
        effects.old effects.new) }
{
    let live_entry = look(held, key, given, effects)?;
    Ok(count(usize::from(live_entry.is_some())))
}

/// What `TYPE` is answered. The DEL of an expired key is put behind the effects that are there.
fn key_type(
    held: &Dataset,
    key: &Argument<'_>,
    given: Given,
    effects: &mut Effects,
) -> Result<Reply, AllocError>
    ensures { IfOk result (λ r.
        Plans (on_key key.now type_answer) given.now held.now (view r) effects.old effects.new) }
{
    let live_entry = look(held, key, given, effects)?;
    Ok(kinds::key_type(live_entry))
}

/// What `KEYS` is answered. It has no effect.
fn keys(
    alloc: Global,
    held: &Dataset,
    pattern: &Argument<'_>,
    given: Given,
) -> Result<Reply, AllocError>
    ensures { IfOk result (λ r.
        view r ≡ (matching pattern.now (seen given.now held.now)).reply) }
{
    let filter = KeyFilter {
        pattern: Some(pattern.as_slice()),
        kind: None,
    };
    listing::list_keys(alloc, held, filter, given)
}

/// What `SCAN` is answered. It has no effect.
fn scan(
    alloc: Global,
    held: &Dataset,
    cursor: Cursor,
    filter: KeyFilter<'_>,
    given: Given,
) -> Result<Reply, AllocError>
    ensures { IfOk result (λ r.
        view r ≡ (scanned cursor (option_copied filter.entry.pattern) filter.entry.kind
        (seen given.now held.now)).reply) }
{
    listing::scan(alloc, held, cursor, filter, given)
}

/// The bytes of a word, if there is one.
fn bytes_of<'a>(word: &Option<Argument<'a>>) -> Option<&'a [u8]>
    ensures { option_copied result ≡ word.now }
{
    match word {
        None => None,
        Some(word) => Some(word.as_slice()),
    }
}

/// What `DBSIZE` is answered: how many keys are not expired.
fn dbsize(held: &Dataset, given: Given) -> Reply
    ensures { view result ≡ (sized (seen given.now held.now)).reply }
{
    count(held.live_len(given.now()))
}

/// What `FLUSHALL` and `FLUSHDB` are answered. Unless the dataset is empty, their effect is put behind those that are
/// there.
fn clear(held: &Dataset, given: Given, effects: &mut Effects) -> Result<Reply, AllocError>
    ensures { IfOk result (λ r.
        Plans (on_none cleared) given.now held.now (view r) effects.old effects.new) }
{
    if !held.is_empty() {
        effects.push(Effect::Clear)?;
    }
    Ok(done())
}

/// What `EXPIRE` and its kin are answered. Their effects are put behind those that are there.
fn expire(
    held: &Dataset,
    key: &Argument<'_>,
    rules: ExpireRules,
    given: Given,
    effects: &mut Effects,
) -> Result<Reply, AllocError>
    ensures { IfOk result (λ r.
        Plans (on_key key.now (expire_answer key.now rules.condition given.now rules.deadline))
        given.now held.now (view r) effects.old effects.new) }
{
    let live_entry = look(held, key, given, effects)?;
    expiring::expire(key, rules, live_entry, given, effects)
}

/// What `PERSIST` is answered. Its effects are put behind those that are there.
fn persist(
    held: &Dataset,
    key: &Argument<'_>,
    given: Given,
    effects: &mut Effects,
) -> Result<Reply, AllocError>
    ensures { IfOk result (λ r.
        Plans (on_key key.now (persist_answer key.now)) given.now held.now (view r) effects.old
        effects.new) }
{
    let live_entry = look(held, key, given, effects)?;
    expiring::persist(key, live_entry, effects)
}

/// What `TTL` and its kin are answered. The DEL of an expired key is put behind the effects that are there.
fn deadline(
    held: &Dataset,
    key: &Argument<'_>,
    form: DeadlineForm,
    given: Given,
    effects: &mut Effects,
) -> Result<Reply, AllocError>
    ensures { IfOk result (λ r.
        Plans (on_key key.now (deadline_answer form given.now)) given.now held.now (view r)
        effects.old effects.new) }
{
    let live_entry = look(held, key, given, effects)?;
    let number = expiring::answered_in(form, given, live_entry);
    Ok(integer(number))
}
