//! What is read of words, where no reply tells it.
use crate::kind::Kind;
use crate::step::Step;
use mr_arguments::Name;
use mr_ask::{Group, read};
use mr_cmd_string::Amount;
use mr_resp::{Scan, next_request};
use rehearse_shared::{RehearsalFault, bytes_of, number_of, tell, tell_shown};
use std::alloc::Global;

/// Commands have no state.
#[derive(Drop)]
pub struct Asks;

impl Kind for Asks {
    fn make(
        &mut self,
        alloc: Global,
        step: Step<'_>,
        out: &mut Vec<u8>,
    ) -> Result<(), RehearsalFault> {
        match step.name {
            "name" => tell_name(alloc, step, out),
            "group" => tell_group(alloc, step, out),
            "one" => tell_amount(alloc, Amount::One, out),
            "minus-one" => tell_amount(alloc, Amount::MinusOne, out),
            "number" => tell_amount(alloc, Amount::Number(number_of(step.first)?), out),
            "opposite" => tell_amount(alloc, Amount::Opposite(number_of(step.first)?), out),
            _ => Err(RehearsalFault::Line),
        }
    }
}

/// The name of the command that a word is, as it is shown.
fn tell_name(alloc: Global, step: Step<'_>, out: &mut Vec<u8>) -> Result<(), RehearsalFault> {
    match Name::of(step.first.as_bytes()) {
        Some(name) => {
            tell(out, "name")?;
            tell_shown(alloc, name, out)
        }
        None => tell(out, "no name"),
    }
}

/// What a request is about.
fn tell_group(alloc: Global, step: Step<'_>, out: &mut Vec<u8>) -> Result<(), RehearsalFault> {
    let text = bytes_of(alloc, step.first)?;
    let Scan::Whole { words, used: _ } = next_request(alloc, text.as_slice())? else {
        return Err(RehearsalFault::Line);
    };
    if words.is_empty() {
        return Err(RehearsalFault::Line);
    }
    match read(words.as_slice()) {
        Ok(ask) => tell(out, name_of(ask.group())),
        Err(_) => tell(out, "no command"),
    }
}

/// What a command is about, as it is shown.
fn name_of(group: Group) -> &'static str {
    match group {
        Group::Keys => "keys",
        Group::Collections => "collections",
        Group::Server => "server",
    }
}

/// What is added to a number.
fn tell_amount(alloc: Global, amount: Amount, out: &mut Vec<u8>) -> Result<(), RehearsalFault> {
    tell(out, "adds")?;
    tell_shown(alloc, amount.number(), out)
}
