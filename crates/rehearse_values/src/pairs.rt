//! Pairs of short strings in one piece of memory.
ghost use Rattle.std.specs.Prelude.{◌<◌, length};

use crate::kind::Kind;
use crate::packed::{place_to, short_of};
use crate::step::Step;
use crate::telling::{tell_place, tell_whether};
use mr_packed::PackedPairs;
use rehearse_shared::{RehearsalFault, bytes_of, tell, tell_bytes, tell_shown};
use std::alloc::Global;

impl Kind for PackedPairs {
    fn make(
        &mut self,
        alloc: Global,
        step: Step<'_>,
        out: &mut Vec<u8>,
    ) -> Result<(), RehearsalFault> {
        match step.name {
            "insert" => insert(alloc, self, step, out),
            "find" => {
                let first = bytes_of(alloc, step.first)?;
                tell_place(alloc, self.find(first.as_slice()), out)
            }
            "seek" => {
                let first = bytes_of(alloc, step.first)?;
                match self.seek(first.as_slice()) {
                    Ok(at) => tell_place(alloc, Some(at), out),
                    Err(at) => {
                        tell(out, "before")?;
                        tell_shown(alloc, at, out)
                    }
                }
            }
            "shows" => tell_all(alloc, self, out),
            "back" => tell_back(alloc, self, out),
            _ => {
                if self.is_empty() {
                    return Err(RehearsalFault::Line);
                }
                make_at(alloc, self, step, out)
            }
        }
    }
}

/// Puts a pair in front of a place.
fn insert(
    alloc: Global,
    pairs: &mut PackedPairs,
    step: Step<'_>,
    out: &mut Vec<u8>,
) -> Result<(), RehearsalFault> {
    let at = place_to(step.first, pairs.len())?;
    let first = short_of(alloc, step.second)?;
    let second = short_of(alloc, step.third)?;
    pairs.insert(at, first.as_slice(), second.as_slice())?;
    tell(out, "put")
}

/// What is done at a place where there is a pair.
fn make_at(
    alloc: Global,
    pairs: &mut PackedPairs,
    step: Step<'_>,
    out: &mut Vec<u8>,
) -> Result<(), RehearsalFault>
    requires some { 0 < length pairs.old }
{
    let at = place_to(step.first, pairs.len() - 1)?;
    match step.name {
        "at" => {
            tell(out, "pair")?;
            tell_bytes(alloc, pairs.first_at(at), out)?;
            tell_bytes(alloc, pairs.second_at(at), out)
        }
        "replace" => {
            let second = short_of(alloc, step.second)?;
            pairs.replace_second(at, second.as_slice())?;
            tell(out, "put")
        }
        "remove" => {
            pairs.remove(at);
            tell(out, "dropped")
        }
        _ => Err(RehearsalFault::Line),
    }
}

/// How many pairs there are, and each, from the front.
fn tell_all(alloc: Global, pairs: &PackedPairs, out: &mut Vec<u8>) -> Result<(), RehearsalFault> {
    tell(out, "shows")?;
    tell_shown(alloc, pairs.len(), out)?;
    for (first, second) in pairs.iter() {
        tell_bytes(alloc, first, out)?;
        tell_bytes(alloc, second, out)?;
    }
    tell_whether(out, pairs.is_empty(), " empty", "")
}

/// Each pair, from the back.
fn tell_back(alloc: Global, pairs: &PackedPairs, out: &mut Vec<u8>) -> Result<(), RehearsalFault> {
    tell(out, "back")?;
    for (first, second) in pairs.iter().rev() {
        tell_bytes(alloc, first, out)?;
        tell_bytes(alloc, second, out)?;
    }
    Ok(())
}
