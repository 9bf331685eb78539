//! What a call answered, written.
use mr_links::LinkId;
use mr_node_output::{Address, Out, Outs};
use rehearse_shared::{RehearsalFault, tell, tell_bytes, tell_shown};
use std::alloc::Global;

/// A count, or that the link isn't there.
pub fn tell_count(
    alloc: Global,
    name: &str,
    count: Option<usize>,
    out: &mut Vec<u8>,
) -> Result<(), RehearsalFault> {
    match count {
        Some(count) => {
            tell(out, name)?;
            tell_shown(alloc, count, out)
        }
        None => tell(out, "gone"),
    }
}

/// Each of the outs behind a `;`, in their order.
pub fn tell_outs(alloc: Global, outs: &Outs, out: &mut Vec<u8>) -> Result<(), RehearsalFault> {
    for part in outs.iter() {
        tell_out(alloc, part, out)?;
    }
    Ok(())
}

/// An out behind a `;`.
fn tell_out(alloc: Global, part: Out<'_>, out: &mut Vec<u8>) -> Result<(), RehearsalFault> {
    match part {
        Out::Grow(bytes) => tell_named(alloc, ";grow", bytes, out),
        Out::Append(bytes) => tell_named(alloc, ";append", bytes, out),
        Out::Replace(bytes) => tell_named(alloc, ";replace", bytes, out),
        Out::Send(link, bytes) => tell_sent(alloc, link, bytes, out),
        Out::Close(link) => tell_linked(alloc, ";close", link, out),
        Out::Used(id) => tell(out, format!(in alloc; ";used {id}")?.as_str()),
        Out::Follow(address) => tell_followed(alloc, address, out),
        Out::Halt => tell(out, ";halt"),
    }
}

/// The name of an out, and its bytes.
fn tell_named(
    alloc: Global,
    name: &str,
    bytes: &[u8],
    out: &mut Vec<u8>,
) -> Result<(), RehearsalFault> {
    tell(out, name)?;
    tell_bytes(alloc, bytes, out)
}

/// The number of a link: how many were opened before it.
fn tell_linked(
    alloc: Global,
    name: &str,
    link: LinkId,
    out: &mut Vec<u8>,
) -> Result<(), RehearsalFault> {
    tell(out, name)?;
    tell_shown(alloc, link.generation, out)
}

/// What is sent on a link.
fn tell_sent(
    alloc: Global,
    link: LinkId,
    bytes: &[u8],
    out: &mut Vec<u8>,
) -> Result<(), RehearsalFault> {
    tell_linked(alloc, ";send", link, out)?;
    tell_bytes(alloc, bytes, out)
}

/// The address of the one that the node follows.
fn tell_followed(
    alloc: Global,
    address: &Address,
    out: &mut Vec<u8>,
) -> Result<(), RehearsalFault> {
    tell_named(alloc, ";follow", address.host(), out)?;
    tell_shown(alloc, address.port(), out)
}
