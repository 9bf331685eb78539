// A line of a script.
ghost use Rattle.std.specs.Prelude.{IfOk, OnErr};
ghost use Rattle.mr_inline.specs.Scans.{BeginsWithLine};
ghost use Rattle.mr_inline.specs.Limits.{line_limit};
ghost use Rattle.mr_trio_script.specs.Lines.{Reads};

use mr_inline::{LINE_LIMIT, LineScan, next_line};
use std::alloc::{AllocError, Global};
use std::borrow::CowSlice;

/// What a line of a script says.
#[derive(Drop)]
pub enum ScriptLine<'a> {
    Words(Vec<CowSlice<'a, u8>>),
    /// No words.
    Blank,
    /// It is no line: a quote isn't closed, it is too long, or it begins with `*`.
    Bad,
}

/// Reads a line by the rules of requests on a line, with its line feed.
pub fn script_line<'a>(alloc: Global, line: &'a [u8]) -> Result<ScriptLine<'a>, AllocError>
    ensures read { IfOk result (λ said. Reads line.now said) }
    ensures refused { OnErr result (BeginsWithLine line_limit line.now) }
{
    if line.first().copied() == Some(b'*') {
        return Ok(ScriptLine::Bad);
    }
    match next_line(alloc, LINE_LIMIT, line)? {
        LineScan::Whole { words, used } => {
            if used == line.len() {
                return Ok(ScriptLine::Words(words));
            }
            Ok(ScriptLine::Bad)
        }
        LineScan::Skip { used } => {
            if used == line.len() {
                return Ok(ScriptLine::Blank);
            }
            Ok(ScriptLine::Bad)
        }
        LineScan::More => Ok(ScriptLine::Bad),
        LineScan::Bad(_fault) => Ok(ScriptLine::Bad),
    }
}
