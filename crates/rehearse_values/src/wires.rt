//! Calls on a wire.
ghost use Rattle.std.specs.Prelude.{◌≤◌, length};
ghost use Rattle.mr_wire.specs.Wire as spec;

use crate::step::{Step, link_of};
use mr_links::LinkId;
use mr_wire::{Failed, Moved, Wire};
use rehearse_shared::{RehearsalFault, bytes_of, count_of, port_of, tell, tell_bytes, tell_shown};
use std::alloc::Global;

/// So often a call is made again, each time once something is ready or a second is over.
const MOST_TRIES: u32 = 100_000;

const A_SECOND: u64 = 1000;

/// No read has more room.
const MOST_ROOM: u64 = 1 << 24;

/// Makes the call on a wire that a step names.
pub fn on_wire<W: Wire>(
    alloc: Global,
    wire: &mut W,
    step: Step<'_>,
    out: &mut Vec<u8>,
) -> Result<(), RehearsalFault> {
    match step.name {
        "wait" => wait(wire, step, out),
        "accept" => tell_accepted(alloc, wire.accept(), out),
        "accept-ready" => tell_accepted(alloc, accept_ready(wire), out),
        "connect" => connect(alloc, wire, step, out),
        "ready" => tell_named(alloc, wire.ready(), out),
        "name-ready" => tell_accepted(alloc, name_ready(wire), out),
        "read" => read(alloc, wire, step, out),
        "read-ready" => read_once_ready(alloc, wire, step, out),
        "write" => write(alloc, wire, step, out),
        "write-all" => write_all(alloc, wire, step, out),
        "close" => close(wire, step, out),
        _ => Err(RehearsalFault::Line),
    }
}

/// Waits for so many milliseconds at most, and tells whether that succeeded.
fn wait<W: Wire>(wire: &mut W, step: Step<'_>, out: &mut Vec<u8>) -> Result<(), RehearsalFault> {
    let millis = count_of(step.first)?;
    match wire.wait(millis) {
        Ok(()) => tell(out, "waited"),
        Err(_failed) => tell(out, "failed"),
    }
}

/// Waits until something is ready, and takes the names of what is, so that the next wait waits as well.
fn wait_for<W: Wire>(wire: &mut W) -> Result<(), Failed> {
    wire.wait(A_SECOND)?;
    for _ in 0..MOST_TRIES {
        if wire.ready().is_none() {
            return Ok(());
        }
    }
    Ok(())
}

/// Closes a link.
fn close<W: Wire>(wire: &mut W, step: Step<'_>, out: &mut Vec<u8>) -> Result<(), RehearsalFault> {
    let link = link_of(step)?;
    wire.close(link);
    tell(out, "closed")
}

/// Opens a link to a host and a port, and tells its name, or that it failed.
fn connect<W: Wire>(
    alloc: Global,
    wire: &mut W,
    step: Step<'_>,
    out: &mut Vec<u8>,
) -> Result<(), RehearsalFault> {
    let host = bytes_of(alloc, step.first)?;
    let port = port_of(step.second)?;
    match wire.connect(host.as_slice(), port) {
        Ok(link) => tell_named(alloc, Some(link), out),
        Err(_failed) => tell(out, "failed"),
    }
}

/// The next link, once a peer has opened one.
fn accept_ready<W: Wire>(wire: &mut W) -> Result<Option<LinkId>, Failed> {
    for _ in 0..MOST_TRIES {
        if let Some(link) = wire.accept()? {
            return Ok(Some(link));
        }
        wait_for(wire)?;
    }
    Ok(None)
}

/// The next link that is named, once one is.
fn name_ready<W: Wire>(wire: &mut W) -> Result<Option<LinkId>, Failed> {
    for _ in 0..MOST_TRIES {
        if let Some(link) = wire.ready() {
            return Ok(Some(link));
        }
        wire.wait(A_SECOND)?;
    }
    Ok(None)
}

/// The name of the link that was accepted, if one was, or that it failed.
fn tell_accepted(
    alloc: Global,
    accepted: Result<Option<LinkId>, Failed>,
    out: &mut Vec<u8>,
) -> Result<(), RehearsalFault> {
    match accepted {
        Ok(named) => tell_named(alloc, named, out),
        Err(_failed) => tell(out, "failed"),
    }
}

/// The name of a link, if there is one.
fn tell_named(
    alloc: Global,
    named: Option<LinkId>,
    out: &mut Vec<u8>,
) -> Result<(), RehearsalFault> {
    match named {
        Some(link) => {
            tell(out, "id")?;
            tell_shown(alloc, link.index, out)?;
            tell_shown(alloc, link.generation, out)
        }
        None => tell(out, "none"),
    }
}

/// A buffer for the bytes of a read.
fn buffer_of(alloc: Global, word: &str) -> Result<Vec<u8>, RehearsalFault> {
    let room = count_of(word)?;
    if room > MOST_ROOM {
        return Err(RehearsalFault::Line);
    }
    Ok(Vec::from_elem(alloc, 0u8, room as usize)?)
}

/// Reads on a link into a room of this size in bytes, and tells what came.
fn read<W: Wire>(
    alloc: Global,
    wire: &mut W,
    step: Step<'_>,
    out: &mut Vec<u8>,
) -> Result<(), RehearsalFault> {
    let link = link_of(step)?;
    let mut buffer = buffer_of(alloc, step.third)?;
    let moved = wire.read(link, &mut buffer);
    tell_read(alloc, moved, buffer.as_slice(), out)
}

/// Reads on a link, once something is ready for it, into a room of this size in bytes, and tells what came.
fn read_once_ready<W: Wire>(
    alloc: Global,
    wire: &mut W,
    step: Step<'_>,
    out: &mut Vec<u8>,
) -> Result<(), RehearsalFault> {
    let link = link_of(step)?;
    let mut buffer = buffer_of(alloc, step.third)?;
    let moved = read_ready(wire, link, &mut buffer);
    tell_read(alloc, moved, buffer.as_slice(), out)
}

/// What a read comes to that something is ready for.
fn read_ready<W: Wire>(wire: &mut W, link: LinkId, into: &mut [u8]) -> Moved
    ensures { spec.count_of result ≤ length into.new }
{
    for _ in 0..MOST_TRIES {
        let moved = wire.read(link, into);
        if !matches!(moved, Moved::NotReady) {
            return moved;
        }
        if wait_for(wire).is_err() {
            return Moved::Failed;
        }
    }
    Moved::NotReady
}

/// The bytes that a read moved, or what it came to.
fn tell_read(
    alloc: Global,
    moved: Moved,
    buffer: &[u8],
    out: &mut Vec<u8>,
) -> Result<(), RehearsalFault>
    requires { spec.count_of moved ≤ length buffer.now }
{
    match moved {
        Moved::Bytes(count) => {
            tell(out, "bytes")?;
            tell_bytes(alloc, &buffer[..count], out)
        }
        Moved::NotReady => tell(out, "not ready"),
        Moved::End => tell(out, "end"),
        Moved::Failed => tell(out, "failed"),
    }
}

/// Writes bytes to a link once, and tells how many were moved, or what it came to.
fn write<W: Wire>(
    alloc: Global,
    wire: &mut W,
    step: Step<'_>,
    out: &mut Vec<u8>,
) -> Result<(), RehearsalFault> {
    let link = link_of(step)?;
    let bytes = bytes_of(alloc, step.third)?;
    match wire.write(link, bytes.as_slice()) {
        Moved::Bytes(count) => {
            tell(out, "moved")?;
            tell_shown(alloc, count, out)
        }
        Moved::NotReady => tell(out, "not ready"),
        Moved::End => tell(out, "end"),
        Moved::Failed => tell(out, "failed"),
    }
}

/// Writes all of the bytes to a link, and tells whether that took one write or more, or failed.
fn write_all<W: Wire>(
    alloc: Global,
    wire: &mut W,
    step: Step<'_>,
    out: &mut Vec<u8>,
) -> Result<(), RehearsalFault> {
    let link = link_of(step)?;
    let bytes = bytes_of(alloc, step.third)?;
    match parts_of(wire, link, bytes.as_slice()) {
        Some(1) => tell(out, "moved all"),
        Some(_) => tell(out, "moved all in parts"),
        None => tell(out, "failed"),
    }
}

/// In how many writes all of the bytes were moved, each once something was ready. None where one failed.
fn parts_of<W: Wire>(wire: &mut W, link: LinkId, bytes: &[u8]) -> Option<u32> {
    let mut rest = bytes;
    let mut parts = 0u32;
    for _ in 0..MOST_TRIES {
        match wire.write(link, rest) {
            Moved::Bytes(count) => {
                rest = &rest[count..];
                parts = parts.saturating_add(1);
            }
            Moved::NotReady => {
                if wait_for(wire).is_err() {
                    return None;
                }
            }
            Moved::End | Moved::Failed => return None,
        }
        if rest.is_empty() {
            return Some(parts);
        }
    }
    None
}
