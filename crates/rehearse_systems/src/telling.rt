//! What an event answered, written.
use crate::connection::Tip;
use crate::told::Told;
use mr_links::Side;
use mr_loop::Turn;
use rehearse_shared::{RehearsalFault, tell, tell_bytes, tell_shown};
use std::alloc::Global;

/// A word, a space and a number.
pub fn tell_number(
    alloc: Global,
    word: &str,
    number: usize,
    out: &mut Vec<u8>,
) -> Result<(), RehearsalFault> {
    tell(out, word)?;
    tell_shown(alloc, number, out)
}

/// What a turn counted.
pub fn tell_turn(alloc: Global, told: Turn, out: &mut Vec<u8>) -> Result<(), RehearsalFault> {
    tell(out, if told.halted { "halted" } else { "turned" })?;
    tell_shown(alloc, told.steps, out)?;
    tell_shown(alloc, told.done, out)?;
    tell_shown(alloc, told.used, out)
}

/// A word, and which end it is said of.
fn tell_tip(alloc: Global, word: &str, tip: Tip, out: &mut Vec<u8>) -> Result<(), RehearsalFault> {
    tell_number(alloc, word, tip.number, out)?;
    match tip.side {
        Side::Opener => tell(out, " opener"),
        Side::Server => tell(out, " other"),
    }
}

/// What a wire was asked for in a turn: the ends that it opened, what it wrote, and the ends that it closed, a `;` before each.
pub fn tell_told(alloc: Global, told: &Told, out: &mut Vec<u8>) -> Result<(), RehearsalFault> {
    tell_opened(alloc, told, out)?;
    tell_written(alloc, told, out)?;
    tell_closed(alloc, told, out)
}

/// The ends that it opened.
fn tell_opened(alloc: Global, told: &Told, out: &mut Vec<u8>) -> Result<(), RehearsalFault> {
    for opened in told.opened.as_slice() {
        match opened.peer {
            Some(peer) => {
                tell_number(alloc, ";dialled", opened.tip.number, out)?;
                tell_shown(alloc, peer, out)?;
            }
            None => tell_number(alloc, ";accepted", opened.tip.number, out)?,
        }
    }
    Ok(())
}

/// What it wrote.
fn tell_written(alloc: Global, told: &Told, out: &mut Vec<u8>) -> Result<(), RehearsalFault> {
    for written in told.written.as_slice() {
        tell_tip(alloc, ";wrote", written.tip, out)?;
        tell_bytes(alloc, written.bytes.as_slice(), out)?;
    }
    Ok(())
}

/// The ends that it closed.
fn tell_closed(alloc: Global, told: &Told, out: &mut Vec<u8>) -> Result<(), RehearsalFault> {
    for tip in told.closed.as_slice() {
        tell_tip(alloc, ";closed", *tip, out)?;
    }
    Ok(())
}
