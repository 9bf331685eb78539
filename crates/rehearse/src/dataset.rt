//! Effects and requests on a dataset alone.
use crate::call::{DatasetCall, Way};
use mr_commands::{Answer, plan_words};
use mr_data::{ApplyFault, Dataset, Effect, Given, decode, encode};
use mr_resp::{Scan, next_command, next_request, write_reply};
use rehearse_shared::{RehearsalFault, tell, tell_bytes, tell_refusal};
use std::alloc::Global;

/// Makes a call, and writes what it answered.
pub fn make(
    alloc: Global,
    held: &mut Dataset,
    call: DatasetCall,
    given: Given,
    out: &mut Vec<u8>,
) -> Result<(), RehearsalFault> {
    match call {
        DatasetCall::Spell(text) => spell(alloc, text.as_slice(), out),
        DatasetCall::Apply(text, way) => apply(alloc, held, text.as_slice(), way, out),
        DatasetCall::Ask(text) => ask(alloc, held, text.as_slice(), given, out),
        DatasetCall::Due => tell_due(alloc, held, given, out),
        DatasetCall::Rebuild => rebuild(alloc, held, out),
    }
}

/// Writes the text of the effect that a command text spells.
fn spell(alloc: Global, text: &[u8], out: &mut Vec<u8>) -> Result<(), RehearsalFault> {
    let Scan::Whole { words, used: _ } = next_command(alloc, text)? else {
        return Err(RehearsalFault::Line);
    };
    match decode(alloc, words.as_slice())? {
        None => tell(out, "no effect"),
        Some(effect) => {
            // The effect is dropped at one place alone: an exit behind a `?` would be one more for each kind.
            let told = tell_spelled(alloc, &effect, out);
            told
        }
    }
}

/// Writes the text of an effect.
fn tell_spelled(
    alloc: Global,
    effect: &Effect<'_>,
    out: &mut Vec<u8>,
) -> Result<(), RehearsalFault> {
    let mut spelled = Vec::new(alloc);
    encode(effect, &mut spelled)?;
    tell(out, "spelled")?;
    tell_bytes(alloc, spelled.as_slice(), out)
}

/// Applies the effect that a command text spells.
fn apply(
    alloc: Global,
    held: &mut Dataset,
    text: &[u8],
    way: Way,
    out: &mut Vec<u8>,
) -> Result<(), RehearsalFault> {
    let Scan::Whole { words, used: _ } = next_command(alloc, text)? else {
        return Err(RehearsalFault::Line);
    };
    let Some(effect) = decode(alloc, words.as_slice())? else {
        return tell(out, "no effect");
    };
    let able = held.applies(&effect);
    if let Way::Moved = way {
        return tell_applied(alloc, able, held.apply_owned(effect), out);
    }
    tell_applied(alloc, able, held.apply(&effect), out)
}

/// Writes whether an effect was applied, or why it was refused. It is refused where it isn't able to be, as was seen before.
fn tell_applied(
    alloc: Global,
    able: bool,
    applied: Result<(), ApplyFault>,
    out: &mut Vec<u8>,
) -> Result<(), RehearsalFault> {
    if able == matches!(applied, Err(ApplyFault::Refused)) {
        return tell(out, "seen otherwise");
    }
    match applied {
        Ok(()) => tell(out, "applied"),
        Err(fault) => tell_refusal(alloc, fault, out),
    }
}

/// Writes the reply to a request.
fn ask(
    alloc: Global,
    held: &Dataset,
    text: &[u8],
    given: Given,
    out: &mut Vec<u8>,
) -> Result<(), RehearsalFault> {
    let Scan::Whole { words, used: _ } = next_request(alloc, text)? else {
        return Err(RehearsalFault::Line);
    };
    if words.is_empty() {
        return Err(RehearsalFault::Line);
    }
    match plan_words(alloc, held, false, words.as_slice(), given)? {
        Answer::Quit => tell(out, "quit"),
        Answer::Rewrite => tell(out, "rewrite"),
        Answer::Tell(_) => tell(out, "tell"),
        Answer::Halt => tell(out, "halt"),
        Answer::Run(plan) => {
            let mut reply = Vec::new(alloc);
            write_reply(&plan.reply, &mut reply)?;
            tell(out, "replied")?;
            tell_bytes(alloc, reply.as_slice(), out)
        }
    }
}

/// Writes the first key that is past.
fn tell_due(
    alloc: Global,
    held: &Dataset,
    given: Given,
    out: &mut Vec<u8>,
) -> Result<(), RehearsalFault> {
    match held.due(given.now()) {
        Some(key) => {
            tell(out, "due")?;
            tell_bytes(alloc, key, out)
        }
        None => tell(out, "nothing due"),
    }
}

/// Writes the texts of the effects that make the dataset again.
fn rebuild(alloc: Global, held: &Dataset, out: &mut Vec<u8>) -> Result<(), RehearsalFault> {
    let text = held.rebuild(alloc)?;
    tell(out, "rebuilt")?;
    tell_bytes(alloc, text.as_slice(), out)
}
