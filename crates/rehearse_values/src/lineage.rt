//! Streams with their names.
use crate::backlog::tell_tail;
use crate::kind::Kind;
use crate::roles::tell_role;
use crate::standing::tell_answer;
use crate::step::Step;
use mr_repl::{Lineage, MOST_BACKLOG, decide};
use rehearse_shared::{RehearsalFault, bytes_of, count_of, id_of, number_of, tell, tell_shown};
use std::alloc::Global;

/// The greatest offset that a step may name.
pub const MOST: u64 = 1 << 60;

/// A stream with its names, once a step has begun one.
#[derive(Drop)]
pub struct NamedStream {
    lineage: Option<Lineage>,
}

impl NamedStream {
    /// No stream has begun.
    pub fn new() -> NamedStream {
        NamedStream { lineage: None }
    }

    /// Begins a stream under this id, with a backlog of this capacity in bytes, whose next byte follows this offset.
    /// Fails outside their limits.
    fn begin(
        &mut self,
        alloc: Global,
        step: Step<'_>,
        out: &mut Vec<u8>,
    ) -> Result<(), RehearsalFault> {
        let id = id_of(step.first)?;
        let capacity = count_of(step.second)? as usize;
        let offset = count_of(step.third)?;
        if capacity < 1 || capacity > MOST_BACKLOG || offset > MOST {
            return Err(RehearsalFault::Line);
        }
        self.lineage = Some(Lineage::new(alloc, id, capacity, offset)?);
        tell(out, "begun")
    }
}

impl Kind for NamedStream {
    fn make(
        &mut self,
        alloc: Global,
        step: Step<'_>,
        out: &mut Vec<u8>,
    ) -> Result<(), RehearsalFault> {
        if step.name == "new" {
            return self.begin(alloc, step, out);
        }
        match &mut self.lineage {
            Some(lineage) => on_lineage(alloc, lineage, step, out),
            None => Err(RehearsalFault::Line),
        }
    }
}

/// Makes the call on a stream that a step names.
fn on_lineage(
    alloc: Global,
    lineage: &mut Lineage,
    step: Step<'_>,
    out: &mut Vec<u8>,
) -> Result<(), RehearsalFault> {
    match step.name {
        "grow" => grow(alloc, lineage, step, out),
        "promote" => {
            lineage.promote(id_of(step.first)?);
            tell(out, "promoted")
        }
        "continue" => {
            lineage.continue_as(id_of(step.first)?);
            tell(out, "continued")
        }
        "adopt" => adopt(lineage, step, out),
        "asks" => ask(alloc, lineage, step, out),
        "tail" => tell_tail(alloc, lineage.stream(), step, out),
        "shows" => {
            tell(out, "shows")?;
            tell_lineage(alloc, lineage, out)
        }
        _ => tell_role(alloc, lineage, step, out),
    }
}

/// Puts bytes behind a stream. Fails outside the limits of offsets and of bytes.
fn grow(
    alloc: Global,
    lineage: &mut Lineage,
    step: Step<'_>,
    out: &mut Vec<u8>,
) -> Result<(), RehearsalFault> {
    let bytes = bytes_of(alloc, step.first)?;
    let piece = bytes.as_slice();
    let end = lineage.stream().end();
    if end > MOST || piece.len() > MOST_BACKLOG {
        return Err(RehearsalFault::Line);
    }
    lineage.grow(piece);
    tell(out, "grown")
}

/// Another stream takes the place of this one: that under this id, from behind this offset on. Fails where that is past
/// its limit.
fn adopt(lineage: &mut Lineage, step: Step<'_>, out: &mut Vec<u8>) -> Result<(), RehearsalFault> {
    let id = id_of(step.first)?;
    let offset = count_of(step.second)?;
    if offset > MOST {
        return Err(RehearsalFault::Line);
    }
    lineage.adopt(id, offset);
    tell(out, "adopted")
}

/// How a replica is answered that asks, under the id that a text is, from an offset on.
fn ask(
    alloc: Global,
    lineage: &Lineage,
    step: Step<'_>,
    out: &mut Vec<u8>,
) -> Result<(), RehearsalFault> {
    let wanted = number_of(step.second)?;
    let answer = decide(step.first.as_bytes(), wanted, &lineage.standing());
    tell_answer(alloc, answer, out)
}

/// The id, the last offset and the first that is held, and the id before with the first offset that is no longer its own.
pub fn tell_lineage(
    alloc: Global,
    lineage: &Lineage,
    out: &mut Vec<u8>,
) -> Result<(), RehearsalFault> {
    tell_shown(alloc, lineage.id(), out)?;
    tell_shown(alloc, lineage.stream().end(), out)?;
    tell_shown(alloc, lineage.stream().first(), out)?;
    match lineage.second() {
        Some((id, limit)) => {
            tell_shown(alloc, id, out)?;
            tell_shown(alloc, limit, out)
        }
        None => Ok(()),
    }
}
