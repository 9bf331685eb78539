//! Replication ids.
use crate::kind::Kind;
use crate::step::Step;
use crate::telling::tell_whether;
use mr_repl::ReplId;
use rehearse_shared::{RehearsalFault, bytes_of, count_of, tell, tell_bytes, tell_shown};
use std::alloc::Global;

/// Ids have no state.
#[derive(Drop)]
pub struct Ids;

impl Kind for Ids {
    fn make(
        &mut self,
        alloc: Global,
        step: Step<'_>,
        out: &mut Vec<u8>,
    ) -> Result<(), RehearsalFault> {
        match step.name {
            "new" => new(alloc, step, out),
            "read" => read(alloc, step, out),
            "number" => tell_id(alloc, ReplId::numbered(count_of(step.first)?), out),
            "zeros" => tell_id(alloc, ReplId::zeros(), out),
            "order" => order(step, out),
            _ => Err(RehearsalFault::Line),
        }
    }
}

/// The id of twenty bytes, as it is shown. Fails for another number of bytes.
fn new(alloc: Global, step: Step<'_>, out: &mut Vec<u8>) -> Result<(), RehearsalFault> {
    let bytes = bytes_of(alloc, step.first)?;
    match <[u8; 20]>::try_from(bytes.as_slice()) {
        Ok(bytes) => tell_id(alloc, ReplId::new(bytes), out),
        Err(_) => Err(RehearsalFault::Line),
    }
}

/// The id that forty digits spell, as it is shown, if they spell one.
fn read(alloc: Global, step: Step<'_>, out: &mut Vec<u8>) -> Result<(), RehearsalFault> {
    match ReplId::read(step.first.as_bytes()) {
        Some(id) => tell_id(alloc, id, out),
        None => tell(out, "no id"),
    }
}

/// Whether the id of one number is less than that of another.
fn order(step: Step<'_>, out: &mut Vec<u8>) -> Result<(), RehearsalFault> {
    let one = ReplId::numbered(count_of(step.first)?);
    let other = ReplId::numbered(count_of(step.second)?);
    tell_whether(out, one < other, "less", "not less")
}

/// An id as it is shown, the bytes of its digits, its own bytes, and whether it stands for none.
pub fn tell_id(alloc: Global, id: ReplId, out: &mut Vec<u8>) -> Result<(), RehearsalFault> {
    tell(out, "id")?;
    tell_shown(alloc, id, out)?;
    tell_bytes(alloc, id.digits().as_slice(), out)?;
    tell_bytes(alloc, id.bytes().as_slice(), out)?;
    tell_whether(out, id.is_zeros(), " zeros", "")
}
