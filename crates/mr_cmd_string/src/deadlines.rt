// What becomes of deadlines.
ghost use Rattle.std.specs.Prelude.{◌≡◌, IfOk, option_copied};
ghost use Rattle.mr_keyspace.specs.Steps.{deadline_of};
ghost use Rattle.mr_cmd_string.specs.Setting.{said_at, until, set_effect, is_same};

use crate::text_ask::Lifetime;
use mr_arguments::Argument;
use mr_bytes::Word;
use mr_data::{Effect, Entry, Given};
use std::alloc::{AllocError, Global};

/// What becomes of the deadline of a key that gets a text.
#[derive(Clone, Copy)]
pub enum NewDeadline {
    /// The key has none from now on.
    Endless,
    /// The key keeps what it has.
    Kept,
    /// The key gets this one.
    At(i64),
}

impl NewDeadline {
    /// Where a lifetime is said at this moment.
    pub fn said(lifetime: Lifetime, given: Given) -> NewDeadline
        ensures { result ≡ said_at given.now lifetime }
    {
        match lifetime {
            Lifetime::Endless => NewDeadline::Endless,
            Lifetime::Kept => NewDeadline::Kept,
            Lifetime::Until(expiry) => NewDeadline::At(expiry.deadline(given.now())),
        }
    }

    /// The deadline that a key gets.
    pub fn until(self, live_entry: Option<&Entry>) -> Option<i64>
        ensures { result ≡ until self (option_copied live_entry.entry) }
    {
        match self {
            NewDeadline::Endless => None,
            NewDeadline::Kept => kept_deadline(live_entry),
            NewDeadline::At(deadline) => Some(deadline),
        }
    }

    /// The effect by which a key gets a text.
    pub fn effect(
        self,
        alloc: Global,
        key: &Argument<'_>,
        text: &Argument<'_>,
    ) -> Result<Effect<'static>, AllocError>
        ensures { IfOk result (λ e. e ≡ set_effect key.now text.now self) }
    {
        let key = Word::copied(alloc, key.as_slice())?;
        let value = Word::copied(alloc, text.as_slice())?;
        Ok(match self {
            NewDeadline::Endless => Effect::Set { key, value },
            NewDeadline::Kept => Effect::SetKeeping { key, value },
            NewDeadline::At(deadline) => Effect::SetUntil {
                key,
                value,
                deadline,
            },
        })
    }
}

/// The deadline that a key has and keeps, in milliseconds, if it is there and has one.
fn kept_deadline(live_entry: Option<&Entry>) -> Option<i64>
    ensures { result ≡ deadline_of (option_copied live_entry.entry) }
{
    match live_entry {
        None => None,
        Some(entry) => entry.deadline,
    }
}

/// Whether it is the same deadline, or none in both.
pub fn is_same(left: Option<i64>, right: Option<i64>) -> bool
    ensures { result ≡ is_same left right }
{
    match (left, right) {
        (None, None) => true,
        (Some(left), Some(right)) => left == right,
        (None, Some(_)) | (Some(_), None) => false,
    }
}
