//! What a call answered, written.
use crate::heard::HeardLink;
use crate::heard_wire::HeardWire;
use mr_loop::{Asked, Followed, Lacked, Turn};
use rehearse_shared::{RehearsalFault, tell, tell_bytes, tell_shown};
use std::alloc::Global;

/// What a turn counted.
pub fn tell_turn(alloc: Global, told: Turn, out: &mut Vec<u8>) -> Result<(), RehearsalFault> {
    tell(out, if told.halted { "halted" } else { "turned" })?;
    tell_shown(alloc, told.steps, out)?;
    tell_shown(alloc, told.done, out)?;
    tell_shown(alloc, told.used, out)?;
    tell_shown(alloc, told.deaf, out)?;
    tell_followed(alloc, told.followed, out)?;
    tell_lacked(alloc, told.lacked, out)
}

/// What it counted of following a master.
fn tell_followed(
    alloc: Global,
    followed: Followed,
    out: &mut Vec<u8>,
) -> Result<(), RehearsalFault> {
    tell_shown(alloc, followed.greeted, out)?;
    tell_shown(alloc, followed.announced, out)?;
    tell_shown(alloc, followed.copied, out)?;
    tell_shown(alloc, followed.bytes, out)?;
    tell_shown(alloc, followed.continued, out)?;
    tell_shown(alloc, followed.refused, out)?;
    tell_shown(alloc, followed.spoiled, out)
}

/// How often memory ran out, how many links were closed for it, and what was asked for as the last was.
fn tell_lacked(alloc: Global, lacked: Lacked, out: &mut Vec<u8>) -> Result<(), RehearsalFault> {
    tell_shown(alloc, lacked.times, out)?;
    tell_shown(alloc, lacked.links, out)?;
    match lacked.last {
        None => tell(out, " -"),
        Some(Asked::Accept) => tell(out, " accept"),
        Some(Asked::Dial) => tell(out, " dial"),
        Some(Asked::Bytes(count)) => tell(out, format!(in alloc; " bytes:{count}")?.as_str()),
        Some(Asked::Request(count)) => tell(out, format!(in alloc; " request:{count}")?.as_str()),
        Some(Asked::Copy(count)) => tell(out, format!(in alloc; " copy:{count}")?.as_str()),
        Some(Asked::Stream(count)) => tell(out, format!(in alloc; " stream:{count}")?.as_str()),
    }
}

/// A link, behind a `;`: who opened it, whether it is open, how many bytes were read, what was written, and whom it was dialled to.
pub fn tell_link(
    alloc: Global,
    wire: &HeardWire,
    heard: &HeardLink,
    out: &mut Vec<u8>,
) -> Result<(), RehearsalFault> {
    tell(
        out,
        if heard.is_dialled() {
            ";dialled"
        } else {
            ";accepted"
        },
    )?;
    tell_state(alloc, wire, heard, out)?;
    match heard.peer() {
        Some(peer) => tell_shown(alloc, peer, out),
        None => Ok(()),
    }
}

/// Whether a link is open, or failed, and what went over it.
fn tell_state(
    alloc: Global,
    wire: &HeardWire,
    heard: &HeardLink,
    out: &mut Vec<u8>,
) -> Result<(), RehearsalFault> {
    let Some(link) = heard.link() else {
        return tell(out, " failed");
    };
    match heard.written() {
        Some(written) => tell_moved(alloc, " closed", heard.read(), written, out),
        None => match wire.written(link) {
            Some(written) => tell_moved(alloc, " open", heard.read(), written, out),
            None => Err(RehearsalFault::Memory),
        },
    }
}

/// The state of a link, how many bytes were read, and what was written.
fn tell_moved(
    alloc: Global,
    state: &str,
    read: usize,
    written: &[u8],
    out: &mut Vec<u8>,
) -> Result<(), RehearsalFault> {
    tell(out, state)?;
    tell_shown(alloc, read, out)?;
    tell_bytes(alloc, written, out)
}
