// The plan of a command.
ghost use Rattle.std.specs.Prelude.{◌≡◌, [], Some, IfOk, IsTrue, option_copied};
ghost use Rattle.std.specs.List.{list_all};
ghost use Rattle.std.specs.FinMap.{empty};
ghost use Rattle.mr_resp.specs.ReplyView.{view};
ghost use Rattle.mr_bytes.specs.Words.{fits};
ghost use Rattle.mr_data.specs.Dataset.{IsDataset};
ghost use Rattle.mr_keyspace.specs.Steps.{hashes, held};
ghost use Rattle.mr_cmd_hash.specs.Carried.{hash_words};
ghost use Rattle.mr_cmd_shared.specs.Commands.{IsPlan, IsFaithful, HasCommandTexts};
ghost use Rattle.mr_cmd_hash.specs.Commands.{key_of, change, command, Makes};

use crate::hash_ask::HashAsk;
use crate::{reading, removing, setting};
use mr_arguments::Argument;
use mr_cmd_shared::{Effects, look, wrong_kind};
use mr_data::{Dataset, Entry, Given, Plan, Value};
use mr_resp::Reply;
use mr_value::Hash;
use std::alloc::{AllocError, Global};

/// What a command on hashes is answered, and its effects. The dataset isn't changed, and the plan owns what it holds.
pub fn plan(
    alloc: Global,
    held: &Dataset,
    ask: &HashAsk<'_, '_>,
    given: Given,
) -> Result<Plan, AllocError>
    ensures plan { IfOk result (λ p.
        IsPlan (command ask.now) given.now held.now (view p.reply) p.effects.items) }

    // The effects lead to what the command leaves, and its own ones are there exactly where it changes something.
    ensures faithful { IsTrue (list_all fits (hash_words ask.now)) →
        IsFaithful (command ask.now) given.now held.now }

    // .. and their texts are command texts.
    ensures texts { IsTrue (list_all fits (hash_words ask.now)) →
        HasCommandTexts (command ask.now) given.now held.now }
{
    planned(alloc, held, ask, given)
}

/// What a command is answered, and its effects. What the dataset keeps is known from here on.
fn planned(
    alloc: Global,
    held: &Dataset,
    ask: &HashAsk<'_, '_>,
    given: Given,
) -> Result<Plan, AllocError>
    ensures plan { IfOk result (λ p.
        IsPlan (command ask.now) given.now held.now (view p.reply) p.effects.items) }
    ensures kept { IsDataset held.now }
{
    let mut effects = Effects::new(alloc);
    let live_entry = look(held, key_of(ask), given, &mut effects)?;
    let none = Hash::new(alloc);
    let Some(hash) = hash_at(&none, live_entry) else {
        return Ok(effects.into_plan(wrong_kind()));
    };
    let reply = change(ask, hash, &mut effects)?;
    Ok(effects.into_plan(reply))
}

/// The key that a command names.
fn key_of<'c, 'a>(ask: &'c HashAsk<'a, '_>) -> &'c Argument<'a>
    ensures { result.now ≡ key_of ask.now }
{
    match ask {
        HashAsk::HSet { key, .. } => key,
        HashAsk::HSetNx { key, .. } => key,
        HashAsk::HGet { key, .. } => key,
        HashAsk::HMGet { key, .. } => key,
        HashAsk::ListHash { key, .. } => key,
        HashAsk::HDel { key, .. } => key,
        HashAsk::HExists { key, .. } => key,
        HashAsk::HLen { key } => key,
        HashAsk::HStrLen { key, .. } => key,
        HashAsk::HIncrBy { key, .. } => key,
    }
}

/// The hash that an entry is: the empty one where there is no entry. None where it is another kind.
fn hash_at<'h>(none: &'h Hash, live_entry: Option<&'h Entry>) -> Option<&'h Hash>
    requires { none.now ≡ empty }
    ensures { option_copied result ≡ held hashes (option_copied live_entry.entry) }
{
    match live_entry {
        None => Some(none),
        Some(entry) => match &entry.value {
            Value::Hash(hash) => Some(hash),
            Value::Text(_) | Value::List(_) | Value::Set(_) | Value::SortedSet(_) => None,
        },
    }
}

/// What a command on a hash is answered. Its effects are put behind those that are there.
fn change(ask: &HashAsk<'_, '_>, hash: &Hash, effects: &mut Effects) -> Result<Reply, AllocError>
    ensures { IfOk result (λ r. Makes (change ask.now hash.now) (view r) effects.old effects.new) }
{
    let alloc = effects.alloc();
    match ask {
        HashAsk::HSet { key, pairs, reply } => setting::hset(key, pairs, *reply, hash, effects),
        HashAsk::HSetNx { key, field, value } => {
            setting::hsetnx(key, field, value, hash, effects)
        }
        HashAsk::HGet { key: _, field } => reading::hget(alloc, field, hash),
        HashAsk::HMGet { key: _, fields } => reading::hmget(alloc, fields, hash),
        HashAsk::ListHash { key: _, part } => reading::list_hash(alloc, *part, hash),
        HashAsk::HDel { key, fields } => removing::hdel(key, fields, hash, effects),
        HashAsk::HExists { key: _, field } => Ok(reading::hexists(field, hash)),
        HashAsk::HLen { key: _ } => Ok(reading::hlen(hash)),
        HashAsk::HStrLen { key: _, field } => Ok(reading::hstrlen(field, hash)),
        HashAsk::HIncrBy { key, field, by } => { setting::hincrby(key, field, *by, hash, effects) }
    }
}
