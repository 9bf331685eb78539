//! Backlogs.
use crate::kind::Kind;
use crate::step::Step;
use crate::telling::tell_whether;
use mr_repl::{Backlog, MOST_BACKLOG};
use rehearse_shared::{RehearsalFault, bytes_of, count_of, tell, tell_bytes, tell_shown};
use std::alloc::Global;

/// The greatest offset that a step may name.
const MOST: u64 = 1 << 60;

/// A backlog, once a step has begun one.
#[derive(Drop)]
pub struct Stream {
    backlog: Option<Backlog>,
}

impl Stream {
    /// No backlog has begun.
    pub fn new() -> Stream {
        Stream { backlog: None }
    }

    /// Begins a backlog of this capacity in bytes, whose next byte follows this offset. Fails outside their limits.
    fn begin(
        &mut self,
        alloc: Global,
        step: Step<'_>,
        out: &mut Vec<u8>,
    ) -> Result<(), RehearsalFault> {
        let capacity = count_of(step.first)? as usize;
        let offset = count_of(step.second)?;
        if capacity < 1 || capacity > MOST_BACKLOG || offset > MOST {
            return Err(RehearsalFault::Line);
        }
        self.backlog = Some(Backlog::new(alloc, capacity, offset)?);
        tell(out, "begun")
    }
}

impl Kind for Stream {
    fn make(
        &mut self,
        alloc: Global,
        step: Step<'_>,
        out: &mut Vec<u8>,
    ) -> Result<(), RehearsalFault> {
        if step.name == "new" {
            return self.begin(alloc, step, out);
        }
        match &mut self.backlog {
            Some(backlog) => on_backlog(alloc, backlog, step, out),
            None => Err(RehearsalFault::Line),
        }
    }
}

/// Makes the call on a backlog that a step names.
fn on_backlog(
    alloc: Global,
    backlog: &mut Backlog,
    step: Step<'_>,
    out: &mut Vec<u8>,
) -> Result<(), RehearsalFault> {
    match step.name {
        "push" => push(alloc, backlog, step, out),
        "restart" => restart(backlog, step, out),
        "tail" => tell_tail(alloc, backlog, step, out),
        "shows" => tell_backlog(alloc, backlog, out),
        _ => Err(RehearsalFault::Line),
    }
}

/// Puts bytes behind those of a backlog. Fails outside the limits of offsets and of bytes.
fn push(
    alloc: Global,
    backlog: &mut Backlog,
    step: Step<'_>,
    out: &mut Vec<u8>,
) -> Result<(), RehearsalFault> {
    let bytes = bytes_of(alloc, step.first)?;
    let piece = bytes.as_slice();
    let end = backlog.end();
    if end > MOST || piece.len() > MOST_BACKLOG {
        return Err(RehearsalFault::Line);
    }
    backlog.push(piece);
    tell(out, "pushed")
}

/// Drops all bytes of a backlog, which goes on behind this offset. Fails where that is past its limit.
fn restart(backlog: &mut Backlog, step: Step<'_>, out: &mut Vec<u8>) -> Result<(), RehearsalFault> {
    let offset = count_of(step.first)?;
    if offset > MOST {
        return Err(RehearsalFault::Line);
    }
    backlog.restart(offset);
    tell(out, "restarted")
}

/// The bytes from an offset on, if they are held.
pub fn tell_tail(
    alloc: Global,
    backlog: &Backlog,
    step: Step<'_>,
    out: &mut Vec<u8>,
) -> Result<(), RehearsalFault> {
    let from = count_of(step.first)?;
    if from < backlog.first() || from > backlog.end() + 1 {
        return tell(out, "not held");
    }
    let bytes = backlog.tail(alloc, from)?;
    tell(out, "tail")?;
    tell_bytes(alloc, bytes.as_slice(), out)
}

/// The capacity, the length, the first offset that is held and the last, and whether no byte is held.
fn tell_backlog(alloc: Global, backlog: &Backlog, out: &mut Vec<u8>) -> Result<(), RehearsalFault> {
    tell(out, "shows")?;
    tell_shown(alloc, backlog.capacity(), out)?;
    tell_shown(alloc, backlog.len(), out)?;
    tell_shown(alloc, backlog.first(), out)?;
    tell_shown(alloc, backlog.end(), out)?;
    tell_whether(out, backlog.is_empty(), " empty", "")
}
