//! Requests: their limits, what of them is borrowed, and how they are written.
use crate::kind::Kind;
use crate::step::Step;
use mr_inline::{LineScan, next_line};
use mr_resp::{
    Fault, Limits, Scan, next_command, next_request, next_request_within, push_request, push_word,
    push_word_count, write_request,
};
use rehearse_shared::{RehearsalFault, bytes_of, count_of, tell, tell_bytes, tell_shown};
use std::alloc::Global;
use std::borrow::CowSlice;

/// Requests within limits, which are a server's at first.
#[derive(Drop)]
pub struct Requests {
    limits: Limits,
}

impl Requests {
    /// Requests within a server's limits.
    pub fn new() -> Requests {
        Requests {
            limits: Limits::usual(),
        }
    }
}

impl Kind for Requests {
    fn make(
        &mut self,
        alloc: Global,
        step: Step<'_>,
        out: &mut Vec<u8>,
    ) -> Result<(), RehearsalFault> {
        match step.name {
            "limits" => self.limit(step, out),
            "next" => {
                let input = bytes_of(alloc, step.first)?;
                let scan = next_request_within(alloc, &self.limits, input.as_slice())?;
                tell_scan(alloc, scan, out)
            }
            "command" => {
                let input = bytes_of(alloc, step.first)?;
                tell_scan(alloc, next_command(alloc, input.as_slice())?, out)
            }
            "kept" => tell_kept(alloc, step, out),
            "line" => tell_line(alloc, step, out),
            _ => write(alloc, step, out),
        }
    }
}

impl Requests {
    /// Sets the limits of a word in bytes, of the number of words, and of a request in bytes, and tells whether they
    /// may be such.
    fn limit(&mut self, step: Step<'_>, out: &mut Vec<u8>) -> Result<(), RehearsalFault> {
        let word = count_of(step.first)? as usize;
        let words = count_of(step.second)? as usize;
        let text = count_of(step.third)? as usize;
        match Limits::new(word, words, text) {
            Some(limits) => {
                self.limits = limits;
                tell(out, "limited")
            }
            None => tell(out, "no limits"),
        }
    }
}

/// What was found at the front of the bytes.
fn tell_scan(alloc: Global, scan: Scan<'_>, out: &mut Vec<u8>) -> Result<(), RehearsalFault> {
    match scan {
        Scan::Whole { words: _, used } => tell_used(alloc, used, out),
        Scan::Skip { used: _ } => tell(out, "skip"),
        Scan::More => tell(out, "more"),
        Scan::Bad(fault) => tell(out, name_of(fault)),
    }
}

/// How many bytes a whole request has.
fn tell_used(alloc: Global, used: usize, out: &mut Vec<u8>) -> Result<(), RehearsalFault> {
    tell(out, "whole")?;
    tell_shown(alloc, used, out)
}

/// The name of a fault, as it is shown.
fn name_of(fault: Fault) -> &'static str {
    match fault {
        Fault::MultibulkLength => "no count",
        Fault::BulkLength => "no length",
        Fault::ExpectedDollar(_) => "no dollar",
        Fault::UnbalancedQuotes => "quotes",
        Fault::TooBigInline => "line too big",
        Fault::WordTooBig => "word too big",
        Fault::TooManyWords => "too many words",
    }
}

/// For each word of a request `b` where it is borrowed, and `o` where it is owned.
fn tell_kept(alloc: Global, step: Step<'_>, out: &mut Vec<u8>) -> Result<(), RehearsalFault> {
    let input = bytes_of(alloc, step.first)?;
    let Scan::Whole { words, used: _ } = next_request(alloc, input.as_slice())? else {
        return Err(RehearsalFault::Line);
    };
    tell(out, "kept ")?;
    for word in &words {
        out.push(letter_of(word))?;
    }
    Ok(())
}

/// `b` where a word is borrowed, and `o` where it is owned.
fn letter_of(word: &CowSlice<'_, u8>) -> u8 {
    match word {
        CowSlice::Borrowed(_) => b'b',
        CowSlice::Owned(_) => b'o',
    }
}

/// The line at the front of bytes of which the first isn't a star.
fn tell_line(alloc: Global, step: Step<'_>, out: &mut Vec<u8>) -> Result<(), RehearsalFault> {
    let limit = count_of(step.first)? as usize;
    let bytes = bytes_of(alloc, step.second)?;
    let input = bytes.as_slice();
    if input.is_empty() || input[0] == b'*' {
        return Err(RehearsalFault::Line);
    }
    match next_line(alloc, limit, input)? {
        LineScan::Whole { words: _, used } => tell_used(alloc, used, out),
        LineScan::Skip { used: _ } => tell(out, "skip"),
        LineScan::More => tell(out, "more"),
        LineScan::Bad(_) => tell(out, "bad"),
    }
}

/// A request of two words, written in one of the ways there are.
fn write(alloc: Global, step: Step<'_>, out: &mut Vec<u8>) -> Result<(), RehearsalFault> {
    let first = bytes_of(alloc, step.first)?;
    let second = bytes_of(alloc, step.second)?;
    let mut text = Vec::new(alloc);
    let words = [first.as_slice(), second.as_slice()];
    match step.name {
        "parts" => push_parts(words, &mut text)?,
        "push" => push_request(&words, &mut text)?,
        "write" => write_request(&words, &mut text)?,
        _ => return Err(RehearsalFault::Line),
    }
    tell(out, "text")?;
    tell_bytes(alloc, text.as_slice(), out)
}

/// Appends a request of two words, part by part.
fn push_parts(words: [&[u8]; 2], text: &mut Vec<u8>) -> Result<(), RehearsalFault> {
    push_word_count(text, 2)?;
    push_word(text, words[0])?;
    push_word(text, words[1])?;
    Ok(())
}
