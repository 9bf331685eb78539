// Deadlines that keys get and lose, and what is answered of them.
ghost use Rattle.std.specs.Prelude.{◌≡◌, ◌≤ℤ◌, pos, IfOk, IfSome, option_copied};
ghost use Rattle.mr_resp.specs.ReplyView.{view};
ghost use Rattle.mr_effect.specs.Effects.{last_deadline};
ghost use Rattle.mr_arguments.specs.Expiry.{deadline_at};
ghost use Rattle.mr_data.specs.Dataset.{IsLifetime};
ghost use Rattle.mr_cmd_shared.specs.Answered.{Takes};
ghost use Rattle.mr_cmd_key.specs.Expiring.{allows, deadline_in, expire_answer, in_seconds, is_until, lifetime_in, persist_answer, answered_in};

use crate::key_ask::ExpireCondition;
use mr_arguments::{Argument, Expiry};
use mr_bytes::Word;
use mr_cmd_shared::{Effects, count};
use mr_data::{Effect, Entry, Given};
use mr_resp::Reply;
use std::alloc::AllocError;

/// What an `EXPIRE` or one of its kin is told besides its key.
#[derive(Clone, Copy)]
pub struct ExpireRules {
    pub condition: Option<ExpireCondition>,
    pub deadline: i64,
}

impl ExpireRules {
    /// Where these are said at this moment.
    pub fn said(condition: Option<ExpireCondition>, expiry: Expiry, given: Given) -> ExpireRules
        ensures { result ≡
            record { condition = condition; deadline = deadline_at given.now expiry } }
    {
        ExpireRules {
            condition,
            deadline: expiry.deadline(given.now()),
        }
    }
}

/// `EXPIRE` and its kin
pub fn expire(
    key: &Argument<'_>,
    rules: ExpireRules,
    live_entry: Option<&Entry>,
    given: Given,
    effects: &mut Effects,
) -> Result<Reply, AllocError>
    ensures { IfOk result (λ r.
        Takes (expire_answer key.now rules.condition given.now rules.deadline
        (option_copied live_entry.entry)) (view r) effects.old effects.new) }
{
    let ExpireRules {
        condition,
        deadline,
    } = rules;
    let Some(entry) = live_entry else {
        return Ok(count(0));
    };
    if !allows(condition, entry.deadline, deadline) {
        return Ok(count(0));
    }
    let alloc = effects.alloc();
    if deadline <= given.now() {
        effects.push(Effect::Del {
            key: Word::copied(alloc, key.as_slice())?,
        })?;
    } else if !is_until(deadline, entry.deadline) {
        effects.push(Effect::Expire {
            key: Word::copied(alloc, key.as_slice())?,
            deadline,
        })?;
    }
    Ok(count(1))
}

/// Whether the condition lets a key with this deadline get another.
fn allows(condition: Option<ExpireCondition>, held: Option<i64>, deadline: i64) -> bool
    ensures { result ≡ allows condition held deadline }
{
    match condition {
        None => true,
        Some(ExpireCondition::Endless) => held.is_none(),
        Some(ExpireCondition::Expiring) => held.is_some(),
        Some(ExpireCondition::Later) => match held {
            None => false,
            Some(held) => held < deadline,
        },
        Some(ExpireCondition::Earlier) => match held {
            None => true,
            Some(held) => deadline < held,
        },
    }
}

/// Whether this is the deadline that a key has.
fn is_until(deadline: i64, held: Option<i64>) -> bool
    ensures { result ≡ is_until deadline held }
{
    match held {
        None => false,
        Some(held) => held == deadline,
    }
}

/// `PERSIST`
pub fn persist(
    key: &Argument<'_>,
    live_entry: Option<&Entry>,
    effects: &mut Effects,
) -> Result<Reply, AllocError>
    ensures { IfOk result (λ r.
        Takes (persist_answer key.now (option_copied live_entry.entry)) (view r) effects.old
        effects.new) }
{
    let Some(entry) = live_entry else {
        return Ok(count(0));
    };
    if entry.deadline.is_none() {
        return Ok(count(0));
    }
    effects.push(Effect::Persist {
        key: Word::copied(effects.alloc(), key.as_slice())?,
    })?;
    Ok(count(1))
}

/// What a key's deadline is answered as.
#[derive(Clone, Copy)]
pub enum DeadlineForm {
    /// The seconds that are left (`TTL`).
    SecondsLeft,
    /// The milliseconds that are left (`PTTL`).
    MillisecondsLeft,
    /// The second (`EXPIRETIME`).
    Second,
    /// The millisecond (`PEXPIRETIME`).
    Millisecond,
}

/// What is answered of the deadline of a key: -2 where there is no key, and -1 where it has none.
pub fn answered_in(form: DeadlineForm, given: Given, live_entry: Option<&Entry>) -> i64
    requires { IfSome (option_copied live_entry) (λ e. IsLifetime e.deadline) }
    ensures { result ≡ answered_in form given.now (option_copied live_entry.entry) }
{
    match live_entry {
        None => -2,
        Some(entry) => lifetime_in(form, given, entry.deadline),
    }
}

/// The deadline of a key, as it is asked for: -1 where it has none.
fn lifetime_in(form: DeadlineForm, given: Given, deadline: Option<i64>) -> i64
    requires { IsLifetime deadline }
    ensures { result ≡ lifetime_in form given.now deadline }
{
    match deadline {
        None => -1,
        Some(deadline) => deadline_in(form, given, deadline),
    }
}

/// A deadline, as it is asked for: what is left till then, or the moment itself.
fn deadline_in(form: DeadlineForm, given: Given, deadline: i64) -> i64
    requires { IsLifetime (Some deadline) }
    ensures { result ≡ deadline_in form given.now deadline }
{
    match form {
        DeadlineForm::SecondsLeft => in_seconds(deadline - given.now()),
        DeadlineForm::MillisecondsLeft => deadline - given.now(),
        DeadlineForm::Second => in_seconds(deadline),
        DeadlineForm::Millisecond => deadline,
    }
}

/// Milliseconds in seconds, rounded to the nearest number.
fn in_seconds(milliseconds: i64) -> i64
    requires { milliseconds ≤ℤ pos last_deadline }
    ensures { result ≡ in_seconds milliseconds }
{
    (milliseconds + 500).div_euclid(1000)
}
