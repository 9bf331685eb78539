//! Kinds of values, and the steps of a line on one of them.
use crate::step::Step;
use rehearse_shared::RehearsalFault;
use std::alloc::Global;

/// A value on which steps call.
pub trait Kind: Drop {
    /// Makes the call that a step names, and writes what it answered.
    fn make(
        &mut self,
        alloc: Global,
        step: Step<'_>,
        out: &mut Vec<u8>,
    ) -> Result<(), RehearsalFault>;
}

/// Makes the calls that the steps name, one after another, and writes a line on each.
pub fn play<K: Kind>(
    alloc: Global,
    mut value: K,
    steps: &str,
    out: &mut Vec<u8>,
) -> Result<(), RehearsalFault> {
    for step in steps.split(';') {
        value.make(alloc, Step::read(step), out)?;
        out.push(b'\n')?;
    }
    Ok(())
}
