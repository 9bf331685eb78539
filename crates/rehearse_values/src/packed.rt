//! Short strings in one piece of memory.
ghost use Rattle.std.specs.Prelude.{◌<◌, ◌≤◌, IfOk, length};

use crate::kind::Kind;
use crate::step::Step;
use crate::telling::{tell_order, tell_place, tell_whether};
use mr_packed::Packed;
use rehearse_shared::{RehearsalFault, bytes_of, count_of, tell, tell_bytes, tell_shown};
use std::alloc::Global;
use std::mem;

/// A run of strings, and another, of which parts are put behind it.
#[derive(Drop)]
pub struct Runs {
    run: Packed,
    other: Packed,
}

impl Runs {
    /// No strings in either.
    pub fn new(alloc: Global) -> Runs {
        Runs {
            run: Packed::new(alloc),
            other: Packed::new(alloc),
        }
    }
}

impl Kind for Runs {
    fn make(
        &mut self,
        alloc: Global,
        step: Step<'_>,
        out: &mut Vec<u8>,
    ) -> Result<(), RehearsalFault> {
        match step.name {
            "push" | "front" => push(alloc, &mut self.run, step, out),
            "insert" | "two" | "replace" => put(alloc, &mut self.run, step, out),
            "remove" | "drop" => remove(&mut self.run, step, out),
            "swap" => {
                mem::swap(&mut self.run, &mut self.other);
                tell(out, "swapped")
            }
            "append" => {
                self.run.append(&self.other)?;
                tell(out, "put")
            }
            "part" => append_part(self, step, out),
            _ => ask(alloc, &self.run, step, out),
        }
    }
}

/// Puts a string behind the others, or in front of them.
fn push(
    alloc: Global,
    run: &mut Packed,
    step: Step<'_>,
    out: &mut Vec<u8>,
) -> Result<(), RehearsalFault> {
    let string = short_of(alloc, step.first)?;
    if step.name == "push" {
        run.push(string.as_slice())?;
    } else {
        run.push_front(string.as_slice())?;
    }
    tell(out, "put")
}

/// Puts a string, or two, in front of a place, or one in the place of another.
fn put(
    alloc: Global,
    run: &mut Packed,
    step: Step<'_>,
    out: &mut Vec<u8>,
) -> Result<(), RehearsalFault> {
    let at = place_to(step.first, run.len())?;
    let string = short_of(alloc, step.second)?;
    match step.name {
        "insert" => run.insert(at, string.as_slice())?,
        "two" => {
            let second = short_of(alloc, step.third)?;
            run.insert_two(at, string.as_slice(), second.as_slice())?;
        }
        _ => {
            if at == run.len() {
                return Err(RehearsalFault::Line);
            }
            run.replace(at, string.as_slice())?;
        }
    }
    tell(out, "put")
}

/// Drops the string at a place, or those from one place to another.
fn remove(run: &mut Packed, step: Step<'_>, out: &mut Vec<u8>) -> Result<(), RehearsalFault> {
    let from = place_to(step.first, run.len())?;
    if step.name == "drop" {
        let to = place_to(step.second, run.len())?;
        if to < from {
            return Err(RehearsalFault::Line);
        }
        run.remove_range(from, to);
    } else {
        if from == run.len() {
            return Err(RehearsalFault::Line);
        }
        run.remove(from);
    }
    tell(out, "dropped")
}

/// Puts the other's strings from one place to another behind the run.
fn append_part(runs: &mut Runs, step: Step<'_>, out: &mut Vec<u8>) -> Result<(), RehearsalFault> {
    let to = place_to(step.second, runs.other.len())?;
    let from = place_to(step.first, to)?;
    runs.run.append_range(&runs.other, from, to)?;
    tell(out, "put")
}

/// What is read of a run.
fn ask(
    alloc: Global,
    run: &Packed,
    step: Step<'_>,
    out: &mut Vec<u8>,
) -> Result<(), RehearsalFault> {
    match step.name {
        "find" => {
            let string = bytes_of(alloc, step.first)?;
            let each = count_of(step.second)? as usize;
            if each == 0 {
                return Err(RehearsalFault::Line);
            }
            tell_place(alloc, run.find(string.as_slice(), each), out)
        }
        "shows" => tell_all(alloc, run, out),
        "back" => tell_back(alloc, run, out),
        "ends" => tell_ends(alloc, run, out),
        _ => {
            if run.is_empty() {
                return Err(RehearsalFault::Line);
            }
            ask_at(alloc, run, step, out)
        }
    }
}

/// What stands at a place of a run that has strings.
fn ask_at(
    alloc: Global,
    run: &Packed,
    step: Step<'_>,
    out: &mut Vec<u8>,
) -> Result<(), RehearsalFault>
    requires some { 0 < length run.now }
{
    match step.name {
        "first" => tell_string(alloc, run.first(), out),
        "last" => tell_string(alloc, run.last(), out),
        "at" => tell_string(alloc, run.at(place_to(step.first, run.len() - 1)?), out),
        "is" => {
            let at = place_to(step.first, run.len() - 1)?;
            let string = bytes_of(alloc, step.second)?;
            tell_whether(out, run.is_at(at, string.as_slice()), "is", "is not")
        }
        "order" => {
            let at = place_to(step.first, run.len() - 1)?;
            let string = bytes_of(alloc, step.second)?;
            tell_order(out, run.cmp_at(at, string.as_slice()))
        }
        _ => Err(RehearsalFault::Line),
    }
}

/// A string.
fn tell_string(alloc: Global, string: &[u8], out: &mut Vec<u8>) -> Result<(), RehearsalFault> {
    tell(out, "string")?;
    tell_bytes(alloc, string, out)
}

/// How many strings there are, and each, from the front.
fn tell_all(alloc: Global, run: &Packed, out: &mut Vec<u8>) -> Result<(), RehearsalFault> {
    tell(out, "shows")?;
    tell_shown(alloc, run.len(), out)?;
    for string in run.iter() {
        tell_bytes(alloc, string, out)?;
    }
    tell_whether(out, run.is_empty(), " empty", "")
}

/// Each string, from the back.
fn tell_back(alloc: Global, run: &Packed, out: &mut Vec<u8>) -> Result<(), RehearsalFault> {
    tell(out, "back")?;
    for string in run.iter().rev() {
        tell_bytes(alloc, string, out)?;
    }
    Ok(())
}

/// Each string, one from the front and two from the back in turn.
fn tell_ends(alloc: Global, run: &Packed, out: &mut Vec<u8>) -> Result<(), RehearsalFault> {
    tell(out, "ends")?;
    let mut left = run.iter();
    for turn in 0..run.len() {
        let next = if turn % 3 == 0 {
            left.next()
        } else {
            left.next_back()
        };
        if let Some(string) = next {
            tell_bytes(alloc, string, out)?;
        }
    }
    Ok(())
}

/// The bytes of a string that may be put. Fails where they are too many.
pub fn short_of(alloc: Global, word: &str) -> Result<Vec<u8>, RehearsalFault>
    ensures { IfOk result (λ string. length string.items < 256) }
{
    let string = bytes_of(alloc, word)?;
    if string.len() > 255 {
        return Err(RehearsalFault::Line);
    }
    Ok(string)
}

/// A place, at most this one.
pub fn place_to(word: &str, last: usize) -> Result<usize, RehearsalFault>
    ensures { IfOk result (λ at. at ≤ last) }
{
    let at = count_of(word)? as usize;
    if at > last {
        return Err(RehearsalFault::Line);
    }
    Ok(at)
}
