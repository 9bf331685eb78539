// Commands that set a text, or take one away.
ghost use Rattle.std.specs.Prelude.{◌≡◌, [], ◌∷◌, ◌++◌, IfOk, OnOk, option_copied};
ghost use Rattle.mr_resp.specs.Replies.{bytes};
ghost use Rattle.mr_resp.specs.ReplyView.{view};
ghost use Rattle.mr_effect.specs.declared.effect.Effect.TheVariants as effect;
ghost use Rattle.mr_cmd_shared.specs.Answered.{Takes};
ghost use Rattle.mr_cmd_string.specs.declared.text_ask.SetReply.TheVariants as asked;
ghost use Rattle.mr_cmd_string.specs.Setting.{said_at, put, set_answer, setnx_answer, getset_answer, getdel_answer, allows, is_text, is_plain, holds_until, is_other, holds_other};

use crate::deadlines::{NewDeadline, is_same};
use crate::text_ask::{Lifetime, SetCondition, SetReply};
use crate::texts::get;
use mr_arguments::Argument;
use mr_bytes::Word;
use mr_cmd_shared::{Effects, bulk, count, done, wrong_kind};
use mr_data::{Effect, Entry, Given, Value};
use mr_resp::Reply;
use std::alloc::AllocError;

/// What a `SET` is told besides its key and its text.
#[derive(Clone, Copy)]
pub struct SetRules {
    pub condition: Option<SetCondition>,
    pub reply: SetReply,
    pub deadline: NewDeadline,
}

impl SetRules {
    /// Where these are said at this moment.
    pub fn said(
        condition: Option<SetCondition>,
        reply: SetReply,
        lifetime: Lifetime,
        given: Given,
    ) -> SetRules
        ensures { result ≡
            record { condition = condition; reply = reply; deadline = said_at given.now lifetime } }
    {
        SetRules {
            condition,
            reply,
            deadline: NewDeadline::said(lifetime, given),
        }
    }
}

/// `SET`
pub fn set(
    key: &Argument<'_>,
    text: &Argument<'_>,
    rules: SetRules,
    live_entry: Option<&Entry>,
    effects: &mut Effects,
) -> Result<Reply, AllocError>
    ensures { IfOk result (λ r.
        Takes (set_answer key.now text.now rules.condition rules.reply rules.deadline
        (option_copied live_entry.entry)) (view r) effects.old effects.new) }
{
    match rules.reply {
        SetReply::Done => set_and_say(key, text, rules, live_entry, effects),
        SetReply::Before => set_and_get(key, text, rules, live_entry, effects),
    }
}

/// What `SET` without `GET` is answered: whether the key was set. Its effect is put behind those that are there.
fn set_and_say(
    key: &Argument<'_>,
    text: &Argument<'_>,
    rules: SetRules,
    live_entry: Option<&Entry>,
    effects: &mut Effects,
) -> Result<Reply, AllocError>
    ensures { IfOk result (λ r.
        Takes (set_answer key.now text.now rules.condition asked.Done rules.deadline
        (option_copied live_entry.entry)) (view r) effects.old effects.new) }
{
    if !allows(rules.condition, live_entry) {
        return Ok(Reply::NullBulk);
    }
    let text = NewText {
        word: text,
        deadline: rules.deadline,
    };
    put(key, text, done(), live_entry, effects)
}

/// What `SET` with `GET` is answered: the text that was there before, or a refusal where the key holds another kind.
/// Its effect is put behind those that are there.
fn set_and_get(
    key: &Argument<'_>,
    text: &Argument<'_>,
    rules: SetRules,
    live_entry: Option<&Entry>,
    effects: &mut Effects,
) -> Result<Reply, AllocError>
    ensures { IfOk result (λ r.
        Takes (set_answer key.now text.now rules.condition asked.Before rules.deadline
        (option_copied live_entry.entry)) (view r) effects.old effects.new) }
{
    if holds_other(live_entry) {
        return Ok(wrong_kind());
    }
    let before = get(effects.alloc(), live_entry)?;
    if !allows(rules.condition, live_entry) {
        return Ok(before);
    }
    let text = NewText {
        word: text,
        deadline: rules.deadline,
    };
    put(key, text, before, live_entry, effects)
}

/// `SETNX`
pub fn setnx(
    key: &Argument<'_>,
    text: &Argument<'_>,
    live_entry: Option<&Entry>,
    effects: &mut Effects,
) -> Result<Reply, AllocError>
    ensures { IfOk result (λ r.
        Takes (setnx_answer key.now text.now (option_copied live_entry.entry)) (view r) effects.old
        effects.new) }
{
    if live_entry.is_some() {
        return Ok(count(0));
    }
    let text = NewText {
        word: text,
        deadline: NewDeadline::Endless,
    };
    put(key, text, count(1), live_entry, effects)
}

/// `GETSET`
pub fn getset(
    key: &Argument<'_>,
    text: &Argument<'_>,
    live_entry: Option<&Entry>,
    effects: &mut Effects,
) -> Result<Reply, AllocError>
    ensures { IfOk result (λ r.
        Takes (getset_answer key.now text.now (option_copied live_entry.entry)) (view r) effects.old
        effects.new) }
{
    let rules = SetRules {
        condition: None,
        reply: SetReply::Before,
        deadline: NewDeadline::Endless,
    };
    set_and_get(key, text, rules, live_entry, effects)
}

/// `GETDEL`
pub fn getdel(
    key: &Argument<'_>,
    live_entry: Option<&Entry>,
    effects: &mut Effects,
) -> Result<Reply, AllocError>
    ensures { IfOk result (λ r.
        Takes (getdel_answer key.now (option_copied live_entry.entry)) (view r) effects.old
        effects.new) }
{
    let Some(entry) = live_entry else {
        return Ok(Reply::NullBulk);
    };
    match &entry.value {
        Value::Text(text) => take(key, text.as_slice(), effects),
        Value::Hash(_) | Value::List(_) | Value::Set(_) | Value::SortedSet(_) => Ok(wrong_kind()),
    }
}

/// The text is answered, and the key goes. Its DEL is put behind the effects that are there.
fn take(key: &Argument<'_>, text: &[u8], effects: &mut Effects) -> Result<Reply, AllocError>
    ensures reply { IfOk result (λ r. view r ≡ bytes text.now) }
    ensures effects { OnOk result (effects.new ≡ effects.old ++ effect.Del key.now ∷ []) }
{
    let alloc = effects.alloc();
    effects.push(Effect::Del {
        key: Word::copied(alloc, key.as_slice())?,
    })?;
    let reply = bulk(alloc, text)?;
    Ok(reply)
}

/// A text that a key is to get, with what becomes of the key's deadline.
#[derive(Clone, Copy)]
struct NewText<'t> {
    word: &'t Argument<'t>,
    deadline: NewDeadline,
}

/// The key gets the text with its deadline, unless it has both, and this is answered. The effect is put behind those
/// that are there.
fn put(
    key: &Argument<'_>,
    text: NewText<'_>,
    reply: Reply,
    live_entry: Option<&Entry>,
    effects: &mut Effects,
) -> Result<Reply, AllocError>
    ensures { IfOk result (λ r.
        Takes (put key.now text.entry.word.now text.entry.deadline (view reply)
        (option_copied live_entry.entry)) (view r) effects.old effects.new) }
{
    let deadline = text.deadline.until(live_entry);
    if !holds_until(text.word.as_slice(), deadline, live_entry) {
        effects.push(text.deadline.effect(effects.alloc(), key, text.word)?)?;
    }
    Ok(reply)
}

/// Whether the condition lets the key be set.
fn allows(condition: Option<SetCondition>, live_entry: Option<&Entry>) -> bool
    ensures { result ≡ allows condition (option_copied live_entry.entry) }
{
    match condition {
        None => true,
        Some(SetCondition::Absent) => live_entry.is_none(),
        Some(SetCondition::Present) => live_entry.is_some(),
    }
}

/// Whether the key holds another kind of value.
fn holds_other(live_entry: Option<&Entry>) -> bool
    ensures { result ≡ holds_other (option_copied live_entry.entry) }
{
    match live_entry {
        None => false,
        Some(entry) => is_other(&entry.value),
    }
}

/// Whether a value is of another kind than a text.
fn is_other(value: &Value) -> bool
    ensures { result ≡ is_other value.now }
{
    match value {
        Value::Text(_) => false,
        Value::Hash(_) | Value::List(_) | Value::Set(_) | Value::SortedSet(_) => true,
    }
}

/// Whether the entry is this text already, without a deadline.
pub fn is_plain(text: &[u8], live_entry: Option<&Entry>) -> bool
    ensures { result ≡ is_plain text.now (option_copied live_entry.entry) }
{
    holds_until(text, None, live_entry)
}

/// Whether the entry is this text already, with this deadline.
fn holds_until(text: &[u8], deadline: Option<i64>, live_entry: Option<&Entry>) -> bool
    ensures { result ≡ holds_until text.now deadline (option_copied live_entry.entry) }
{
    let Some(entry) = live_entry else {
        return false;
    };
    is_same(entry.deadline, deadline) && is_text(text, &entry.value)
}

/// Whether a value is this text.
fn is_text(text: &[u8], value: &Value) -> bool
    ensures { result ≡ is_text text.now value.now }
{
    match value {
        Value::Text(held) => held.as_slice() == text,
        Value::Hash(_) | Value::List(_) | Value::Set(_) | Value::SortedSet(_) => false,
    }
}
