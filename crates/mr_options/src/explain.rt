//! What an error of the parser comes to.
ghost use Rattle.std.specs.Prelude.{◌≡◌, IfOk, false, string_bytes};
ghost use Rattle.std.specs.Char.{is_control};
ghost use Rattle.mr_options.specs.Outcomes.{IsFaultOf, IsOneLine};

use crate::fault::UsageFault;
use clap::error::ErrorKind;
use std::alloc::{AllocError, Global};

/// The character, or a space for a control character, as a line end in a word.
fn shown(c: char) -> char
    ensures { is_control result ≡ false }
{
    if c.is_control() { ' ' } else { c }
}

/// The first paragraph of the parser's text on one line, without its `error: `.
fn one_line(alloc: Global, text: &str) -> Result<String, AllocError>
    ensures { IfOk result (λ line. IsOneLine (string_bytes line)) }
{
    let said = text.strip_prefix("error: ").unwrap_or(text);
    let first = said.split("\n\n").next().unwrap_or(said).trim_end();
    let mut line = String::new(alloc);
    for c in first.chars() {
        line.push(shown(c))?;
    }
    Ok(line)
}

/// The fault that an error of the parser comes to.
pub(crate) fn fault_from(alloc: Global, error: &clap::Error) -> UsageFault
    ensures { IsFaultOf error.now result }
{
    if matches!(error.kind(), ErrorKind::OutOfMemory) {
        return UsageFault::Memory;
    }
    let text = match error.to_string(alloc) {
        Ok(text) => text,
        Err(_refused) => return UsageFault::Memory,
    };
    match one_line(alloc, text.as_str()) {
        Ok(line) => UsageFault::Line(line),
        Err(_refused) => UsageFault::Memory,
    }
}
