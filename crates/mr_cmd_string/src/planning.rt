// The plan of a command on strings.
ghost use Rattle.std.specs.Prelude.{◌≡◌, ◌<◌, length, IfOk, IsTrue, option_copied};
ghost use Rattle.std.specs.List.{list_all};
ghost use Rattle.mr_bytes.specs.Words.{fits};
ghost use Rattle.mr_resp.specs.ReplyView.{view};
ghost use Rattle.mr_resp.specs.Usual.{commands};
ghost use Rattle.mr_data.specs.Given.{IsMoment};
ghost use Rattle.mr_cmd_string.specs.Carried.{text_words, IsTimed};
ghost use Rattle.mr_cmd_shared.specs.Answered.{Takes};
ghost use Rattle.mr_cmd_shared.specs.Commands.{IsPlan, Plans, IsFaithful, HasCommandTexts, on_key};
ghost use Rattle.mr_cmd_string.specs.Commands.{command, HasNumber, HasLimit};
ghost use Rattle.mr_cmd_string.specs.OneKey.{is_on_one_key, lifetime_of, answer_of};

use crate::changing::{append, increase, setrange};
use crate::setting::{SetRules, getdel, getset, set, setnx};
use crate::setting_all::{mset, msetnx};
use crate::text_ask::{Lifetime, SetReply, TextAsk};
use crate::texts::{get, getrange, mget, strlen};
use mr_arguments::{Argument, Expiry};
use mr_cmd_shared::{Effects, look};
use mr_data::{Dataset, Entry, Given, Plan};
use mr_resp::Reply;
use std::alloc::{AllocError, Global};

/// What a command on strings is answered, and its effects. The dataset isn't changed, and the plan owns what it holds.
///
/// # Errors
///
/// Memory ran out.
pub fn plan(
    alloc: Global,
    held: &Dataset,
    ask: &TextAsk<'_, '_>,
    given: Given,
) -> Result<Plan, AllocError>
    ensures plan { IfOk result (λ p.
        IsPlan (command ask.now given.now) given.now held.now (view p.reply) p.effects.items) }

    // The effects lead to what the command leaves, and its own ones are there exactly where it changes something.
    ensures faithful { IsTrue (list_all fits (text_words ask.now)) → IsTimed ask.now →
        IsFaithful (command ask.now given.now) given.now held.now }

    // .. and their texts are command texts. (MSET's effect has as many words as its request at most.)
    ensures texts { IsTrue (list_all fits (text_words ask.now)) → IsTimed ask.now →
        length (text_words ask.now) < commands.words →
        HasCommandTexts (command ask.now given.now) given.now held.now }
{
    numbers_are_limited(ask, given);
    planned(alloc, held, ask, given)
}

/// What a request says of time is within its limit, so is the moment, and a number that it adds has 64 bits.
fn numbers_are_limited(ask: &TextAsk<'_, '_>, given: Given)
    ensures moment { IsMoment given.now }
    ensures limit { HasLimit ask.now }
    ensures number { HasNumber ask.now }
{
    let _now = given.now();
    match ask {
        TextAsk::Set {
            lifetime: Lifetime::Until(expiry),
            ..
        } => {
            let _time = expiry.milliseconds();
        }
        TextAsk::SetEx { seconds, .. } => {
            let _time = Expiry::Seconds(*seconds).milliseconds();
        }
        TextAsk::PSetEx { milliseconds, .. } => {
            let _time = Expiry::Milliseconds(*milliseconds).milliseconds();
        }
        TextAsk::Increase { by, .. } => {
            let _number = by.number();
        }
        _ => {}
    }
}

/// What a command is answered, and its effects.
fn planned(
    alloc: Global,
    held: &Dataset,
    ask: &TextAsk<'_, '_>,
    given: Given,
) -> Result<Plan, AllocError>
    ensures { IfOk result (λ p.
        IsPlan (command ask.now given.now) given.now held.now (view p.reply) p.effects.items) }
{
    let mut effects = Effects::new(alloc);
    let reply = reply_to(held, ask, given, &mut effects)?;
    Ok(effects.into_plan(reply))
}

/// What a command is answered. Its effects are put behind those that are there.
fn reply_to(
    held: &Dataset,
    ask: &TextAsk<'_, '_>,
    given: Given,
    effects: &mut Effects,
) -> Result<Reply, AllocError>
    ensures { IfOk result (λ r.
        Plans (command ask.now given.now) given.now held.now (view r) effects.old effects.new) }
{
    match ask {
        TextAsk::Get { key }
        | TextAsk::Set { key, .. }
        | TextAsk::SetEx { key, .. }
        | TextAsk::PSetEx { key, .. }
        | TextAsk::StrLen { key }
        | TextAsk::GetRange { key, .. }
        | TextAsk::SetNx { key, .. }
        | TextAsk::GetSet { key, .. }
        | TextAsk::GetDel { key }
        | TextAsk::Append { key, .. }
        | TextAsk::SetRange { key, .. }
        | TextAsk::Increase { key, .. } => at_key(held, key, ask, given, effects),
        TextAsk::MGet { keys } => mget(held, keys, given, effects),
        TextAsk::MSet { pairs } => mset(held, pairs, given, effects),
        TextAsk::MSetNx { pairs } => msetnx(held, pairs, given, effects),
    }
}

/// What a command on one key is answered. Its effects are put behind those that are there.
fn at_key(
    held: &Dataset,
    key: &Argument<'_>,
    ask: &TextAsk<'_, '_>,
    given: Given,
    effects: &mut Effects,
) -> Result<Reply, AllocError>
    requires { IsTrue (is_on_one_key ask.now) }
    ensures { IfOk result (λ r.
        Plans (on_key key.now (answer_of ask.now given.now)) given.now held.now (view r) effects.old
        effects.new) }
{
    let live_entry = look(held, key, given, effects)?;
    answer_of(ask, live_entry, given, effects)
}

/// What a command on one key is answered by what that holds. Its effects are put behind those that are there.
fn answer_of(
    ask: &TextAsk<'_, '_>,
    live_entry: Option<&Entry>,
    given: Given,
    effects: &mut Effects,
) -> Result<Reply, AllocError>
    requires { IsTrue (is_on_one_key ask.now) }
    ensures { IfOk result (λ r.
        Takes (answer_of ask.now given.now (option_copied live_entry.entry)) (view r) effects.old
        effects.new) }
{
    match ask {
        TextAsk::Get { .. } => get(effects.alloc(), live_entry),
        TextAsk::Set {
            key,
            value,
            condition,
            reply,
            lifetime,
        } => {
            let rules = SetRules::said(*condition, *reply, *lifetime, given);
            set(key, value, rules, live_entry, effects)
        }
        TextAsk::SetEx { key, value, .. } | TextAsk::PSetEx { key, value, .. } => {
            let rules = SetRules::said(None, SetReply::Done, lifetime_of(ask), given);
            set(key, value, rules, live_entry, effects)
        }
        TextAsk::StrLen { .. } => Ok(strlen(live_entry)),
        TextAsk::GetRange { first, last, .. } => {
            getrange(effects.alloc(), *first, *last, live_entry)
        }
        TextAsk::SetNx { key, value } => setnx(key, value, live_entry, effects),
        TextAsk::GetSet { key, value } => getset(key, value, live_entry, effects),
        TextAsk::GetDel { key } => getdel(key, live_entry, effects),
        TextAsk::Append { key, value } => append(key, value, live_entry, effects),
        TextAsk::SetRange { key, offset, value } => {
            setrange(key, *offset, value, live_entry, effects)
        }
        TextAsk::Increase { key, by } => increase(key, by.number(), live_entry, effects),
        _ => unreachable!(),
    }
}

/// How long a text stays that a command sets.
fn lifetime_of(ask: &TextAsk<'_, '_>) -> Lifetime
    ensures { result ≡ lifetime_of ask.now }
{
    match ask {
        TextAsk::Set { lifetime, .. } => *lifetime,
        TextAsk::SetEx { seconds, .. } => Lifetime::Until(Expiry::Seconds(*seconds)),
        TextAsk::PSetEx { milliseconds, .. } => {
            Lifetime::Until(Expiry::Milliseconds(*milliseconds))
        }
        _ => Lifetime::Endless,
    }
}
