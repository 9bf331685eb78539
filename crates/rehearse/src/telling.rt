//! What a call answered, written.
use mr_links::LinkId;
use mr_node_output::{Address, Out, Outs};
use mr_repl::ReplId;
use rehearse_shared::{RehearsalFault, tell, tell_bytes};
use std::alloc::Global;

/// The outs of a step, a letter each in their order, and then the bytes of the reply, of the effects, and of a file that is replaced.
pub fn tell_outs(alloc: Global, outs: &Outs, out: &mut Vec<u8>) -> Result<(), RehearsalFault> {
    tell(out, "done ")?;
    for part in outs.iter() {
        out.push(letter_of(part))?;
    }
    tell_bytes(alloc, outs.reply(), out)?;
    tell_bytes(alloc, outs.grown(), out)?;
    match outs.replaced() {
        Some(file) => tell_bytes(alloc, file, out),
        None => Ok(()),
    }
}

/// The letter of an out.
fn letter_of(part: Out<'_>) -> u8 {
    match part {
        Out::Grow(_) => b'g',
        Out::Append(_) => b'a',
        Out::Replace(_) => b'r',
        Out::Send(link, _) => letter_of_link(b's', link),
        Out::Close(link) => letter_of_link(b'c', link),
        Out::Used(id) => letter_of_id(id),
        Out::Follow(address) => letter_of_address(address),
        Out::Halt => b'h',
    }
}

/// The letter of an out that names a link.
fn letter_of_link(letter: u8, _: LinkId) -> u8 {
    letter
}

/// The letter of an out that names an id.
fn letter_of_id(_: ReplId) -> u8 {
    b'u'
}

/// The letter of an out that names an address.
fn letter_of_address(_: &Address) -> u8 {
    b'f'
}
