// The plan of a command.
ghost use Rattle.std.specs.Prelude.{◌≡◌, true, IsTrue, IfOk};
ghost use Rattle.std.specs.List.{list_all};
ghost use Rattle.mr_bytes.specs.Words.{fits};
ghost use Rattle.mr_resp.specs.ReplyView.{view};
ghost use Rattle.mr_data.specs.Dataset.{IsDataset};
ghost use Rattle.mr_keyspace.specs.Steps.{sets};
ghost use Rattle.mr_cmd_set.specs.Carried.{set_words};
ghost use Rattle.mr_cmd_set.specs.declared.set_ask.SetAsk.TheVariants as asks;
ghost use Rattle.mr_cmd_shared.specs.Collections.{changing};
ghost use Rattle.mr_cmd_shared.specs.Commands.{on_key, IsPlan, Plans, IsFaithful, HasCommandTexts};
ghost use Rattle.mr_cmd_set.specs.Sets.{Makes};
ghost use Rattle.mr_cmd_set.specs.SetCommands.{command, RestsOn, is_on_one_key, change};

use crate::combining::{combined, look_at_all};
use crate::finding::set_at;
use crate::grouping::{Write, write_members};
use crate::moving::{Move, moved, same};
use crate::set_ask::{SetAsk, SetOperation};
use crate::{drawing, telling};
use mr_arguments::{Argument, Words};
use mr_cmd_shared::{Effects, look, wrong_kind};
use mr_data::{Dataset, Given, Plan};
use mr_resp::Reply;
use mr_value::SetValue;
use std::alloc::{AllocError, Global};

/// What a command is answered, and its effects. The dataset isn't changed, and the plan owns what it holds.
pub fn plan(
    alloc: Global,
    held: &Dataset,
    ask: &SetAsk<'_, '_>,
    given: Given,
) -> Result<Plan, AllocError>
    ensures plan { IfOk result (λ p.
        IsPlan (command ask.now given.word) given.now held.now (view p.reply) p.effects.items) }

    // The effects lead to what the command leaves, and its own ones are there exactly where it changes something.
    ensures faithful { IsTrue (list_all fits (set_words ask.now)) →
        IsFaithful (command ask.now given.word) given.now held.now }

    // .. and their texts are command texts.
    ensures texts { IsTrue (list_all fits (set_words ask.now)) →
        HasCommandTexts (command ask.now given.word) given.now held.now }
{
    planned(alloc, held, ask, given)
}

/// What a command is answered, and its effects. What the dataset keeps is known from here on, where the command rests
/// on it.
fn planned(
    alloc: Global,
    held: &Dataset,
    ask: &SetAsk<'_, '_>,
    given: Given,
) -> Result<Plan, AllocError>
    ensures plan { IfOk result (λ p.
        IsPlan (command ask.now given.word) given.now held.now (view p.reply) p.effects.items) }
    ensures rests { RestsOn ask.now held.now }
{
    let mut effects = Effects::new(alloc);
    let reply = reply_to(held, ask, given, &mut effects)?;
    Ok(effects.into_plan(reply))
}

/// What a command is answered. Its effects are put behind those that are there.
fn reply_to(
    held: &Dataset,
    ask: &SetAsk<'_, '_>,
    given: Given,
    effects: &mut Effects,
) -> Result<Reply, AllocError>
    ensures reply { IfOk result (λ r.
        Plans (command ask.now given.word) given.now held.now (view r) effects.old effects.new) }
    ensures rests { RestsOn ask.now held.now }
{
    match ask {
        SetAsk::SAdd { key, .. } => at_key(held, key, ask, given, effects),
        SetAsk::SRem { key, .. } => at_key(held, key, ask, given, effects),
        SetAsk::SIsMember { key, .. } => at_key(held, key, ask, given, effects),
        SetAsk::SMIsMember { key, .. } => at_key(held, key, ask, given, effects),
        SetAsk::SMembers { key } => at_key(held, key, ask, given, effects),
        SetAsk::SCard { key } => at_key(held, key, ask, given, effects),
        SetAsk::SPop { key, .. } => at_key(held, key, ask, given, effects),
        SetAsk::SRandMember { key, .. } => at_key(held, key, ask, given, effects),
        SetAsk::SMove { from, to, member } => {
            let asked = Move { from, to, member };
            smove(held, &asked, given, effects)
        }
        SetAsk::Combine { operation, keys } => combine(held, *operation, keys, given, effects),
    }
}

/// What a command on one key is answered. Its effects are put behind those that are there.
fn at_key(
    held: &Dataset,
    key: &Argument<'_>,
    ask: &SetAsk<'_, '_>,
    given: Given,
    effects: &mut Effects,
) -> Result<Reply, AllocError>
    requires { is_on_one_key ask.now ≡ true }
    ensures reply { IfOk result (λ r.
        Plans (on_key key.now (changing sets (change ask.now given.word))) given.now held.now
        (view r) effects.old effects.new) }
    ensures kept { IsDataset held.now }
{
    let live_entry = look(held, key, given, effects)?;
    let empty = SetValue::new(effects.alloc());
    let Some(set) = set_at(live_entry, &empty) else {
        return Ok(wrong_kind());
    };
    change(ask, set, given.word(), effects)
}

/// What a command on one key is answered by the set there, and by a random word. Its effects are put behind those that
/// are there.
fn change(
    ask: &SetAsk<'_, '_>,
    set: &SetValue,
    word: u64,
    effects: &mut Effects,
) -> Result<Reply, AllocError>
    requires { is_on_one_key ask.now ≡ true }
    ensures { IfOk result (λ r.
        Makes (change ask.now word set.now) (view r) effects.old effects.new) }
{
    let alloc = effects.alloc();
    match ask {
        SetAsk::SAdd { key, members } => write_members(Write::Add, key, members, set, effects),
        SetAsk::SRem { key, members } => {
            write_members(Write::Remove, key, members, set, effects)
        }
        SetAsk::SIsMember { key: _, member } => Ok(telling::sismember(member, set)),
        SetAsk::SMIsMember { key: _, members } => telling::smismember(alloc, members, set),
        SetAsk::SMembers { key: _ } => telling::smembers(alloc, set),
        SetAsk::SCard { key: _ } => Ok(telling::scard(set)),
        SetAsk::SPop { key, count } => drawing::spop(key, *count, word, set, effects),
        SetAsk::SRandMember { key: _, count } => drawing::srandmember(alloc, *count, word, set),
        SetAsk::SMove { .. } | SetAsk::Combine { .. } => unreachable!(),
    }
}

/// What `SMOVE` is answered. Its effects are put behind those that are there.
fn smove(
    held: &Dataset,
    asked: &Move<'_, '_>,
    given: Given,
    effects: &mut Effects,
) -> Result<Reply, AllocError>
    ensures reply { IfOk result (λ r.
        Plans (command (asks.SMove asked.now.from.now asked.now.to.now asked.now.member.now)
        given.word) given.now held.now (view r) effects.old effects.new) }
    ensures kept { IsDataset held.now }
{
    let source = look(held, asked.from, given, effects)?;
    let target = if same(asked.from, asked.to) {
        source
    } else {
        look(held, asked.to, given, effects)?
    };
    moved(asked, source, target, effects)
}

/// What `SINTER`, `SUNION` and `SDIFF` are answered. The DELs of expired keys are put behind the effects that are
/// there.
fn combine(
    held: &Dataset,
    operation: SetOperation,
    keys: &Words<'_, '_>,
    given: Given,
    effects: &mut Effects,
) -> Result<Reply, AllocError>
    ensures reply { IfOk result (λ r.
        Plans (command (asks.Combine operation keys.now) given.word) given.now held.now (view r)
        effects.old effects.new) }
{
    let alloc = effects.alloc();
    let empty = SetValue::new(alloc);
    match look_at_all(held, keys, given, &empty, effects)? {
        Some(sets) => combined(alloc, operation, sets),
        None => Ok(wrong_kind()),
    }
}
