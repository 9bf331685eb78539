//! What one node says to another before the stream.
ghost use Rattle.std.specs.Prelude.{◌≤◌, IfOk};
ghost use Rattle.mr_repl.specs.Backlog.{offset_limit};

use crate::kind::Kind;
use crate::step::Step;
use mr_peer_lines::{
    PeerLine, PeerLineScan, PsyncReply, next_line, read_offset, read_reply, write_continue,
    write_full, write_length,
};
use mr_repl::{OFFSET_LIMIT, ReplId};
use rehearse_shared::{RehearsalFault, bytes_of, count_of, id_of, tell, tell_bytes, tell_shown};
use std::alloc::Global;

/// Lines have no state.
#[derive(Drop)]
pub struct PeerLines;

impl Kind for PeerLines {
    fn make(
        &mut self,
        alloc: Global,
        step: Step<'_>,
        out: &mut Vec<u8>,
    ) -> Result<(), RehearsalFault> {
        match step.name {
            "line" => tell_line(alloc, step, out),
            "answer" => tell_answer(alloc, step, out),
            "offset" => tell_offset(alloc, step, out),
            _ => tell_written(alloc, step, out),
        }
    }
}

/// The line at the front of the input.
fn tell_line(alloc: Global, step: Step<'_>, out: &mut Vec<u8>) -> Result<(), RehearsalFault> {
    let input = bytes_of(alloc, step.first)?;
    match next_line(input.as_slice()) {
        PeerLineScan::Whole { line, used } => {
            tell(out, "line")?;
            tell_shown(alloc, used, out)?;
            tell_said(alloc, line, out)
        }
        PeerLineScan::More => tell(out, "more"),
        PeerLineScan::Bad => tell(out, "bad"),
    }
}

/// What a line says: a status, a refusal or a length.
fn tell_said(alloc: Global, line: PeerLine<'_>, out: &mut Vec<u8>) -> Result<(), RehearsalFault> {
    match line {
        PeerLine::Status(text) => tell_text(alloc, " status", text, out),
        PeerLine::Refusal(text) => tell_text(alloc, " refusal", text, out),
        PeerLine::Length(length) => {
            tell(out, " length")?;
            tell_shown(alloc, length, out)
        }
    }
}

/// A name, and the bytes of a text.
fn tell_text(
    alloc: Global,
    name: &str,
    text: &[u8],
    out: &mut Vec<u8>,
) -> Result<(), RehearsalFault> {
    tell(out, name)?;
    tell_bytes(alloc, text, out)
}

/// What a master answers to PSYNC, behind the `+` of its line.
fn tell_answer(alloc: Global, step: Step<'_>, out: &mut Vec<u8>) -> Result<(), RehearsalFault> {
    let text = bytes_of(alloc, step.first)?;
    let reply = read_reply(text.as_slice());
    tell_reply(alloc, &reply, out)
}

/// What a master answers to PSYNC, if it is an answer.
fn tell_reply(
    alloc: Global,
    reply: &Option<PsyncReply>,
    out: &mut Vec<u8>,
) -> Result<(), RehearsalFault> {
    match reply {
        Some(PsyncReply::FullResync(id, offset)) => tell_full(alloc, *id, *offset, out),
        Some(PsyncReply::Continue(id)) => tell_continue(alloc, *id, out),
        None => tell(out, "no answer"),
    }
}

/// The answer that the stream goes on under this id.
fn tell_continue(alloc: Global, id: ReplId, out: &mut Vec<u8>) -> Result<(), RehearsalFault> {
    tell(out, "continue")?;
    tell_shown(alloc, id, out)
}

/// The answer that a snapshot comes, of this id at this offset.
fn tell_full(
    alloc: Global,
    id: ReplId,
    offset: u64,
    out: &mut Vec<u8>,
) -> Result<(), RehearsalFault> {
    tell(out, "full")?;
    tell_shown(alloc, id, out)?;
    tell_shown(alloc, offset, out)
}

/// The offset that a text spells, if it does.
fn tell_offset(alloc: Global, step: Step<'_>, out: &mut Vec<u8>) -> Result<(), RehearsalFault> {
    let text = bytes_of(alloc, step.first)?;
    match read_offset(text.as_slice()) {
        Some(offset) => {
            tell(out, "offset")?;
            tell_shown(alloc, offset, out)
        }
        None => tell(out, "no offset"),
    }
}

/// A number that a line may have.
fn counted(word: &str) -> Result<u64, RehearsalFault>
    ensures { IfOk result (λ number. number ≤ offset_limit) }
{
    let number = count_of(word)?;
    if number > OFFSET_LIMIT {
        return Err(RehearsalFault::Line);
    }
    Ok(number)
}

/// What a master says, written.
fn tell_written(alloc: Global, step: Step<'_>, out: &mut Vec<u8>) -> Result<(), RehearsalFault> {
    let mut text = Vec::new(alloc);
    match step.name {
        "full" => write_full(id_of(step.first)?, counted(step.second)?, &mut text)?,
        "continue" => write_continue(id_of(step.first)?, &mut text)?,
        "length" => write_length(counted(step.first)?, &mut text)?,
        _ => return Err(RehearsalFault::Line),
    }
    tell(out, "text")?;
    tell_bytes(alloc, text.as_slice(), out)
}
