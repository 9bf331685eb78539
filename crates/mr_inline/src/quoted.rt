ghost use Rattle.std.specs.Prelude.{◌≡◌, ◌<◌, ◌≤◌, length, IsTrue, IfOk, slice_index, ◌≢◌};
ghost use Rattle.std.specs.Char.{is_ascii_hexdigit};
ghost use Rattle.mr_inline.specs.Bytes.{double_quote, single_quote};
ghost use Rattle.mr_inline.specs.Line.{hex_value as value_of_hex};
ghost use Rattle.mr_inline.specs.Parts.{Spells, Unquotes};
ghost use Rattle.mr_inline.specs.declared.place.Place.TheVariants.{Double, DoubleEscape, Single};

use std::alloc::AllocError;

/// A byte of a word, and where its spelling ends.
#[derive(Clone, Copy)]
pub(crate) struct Spelled {
    pub(crate) byte: u8,
    pub(crate) end: usize,
}

/// The number that a hexadecimal digit stands for.
fn hex_value(digit: u8) -> u8
    requires { IsTrue (is_ascii_hexdigit digit) }
    ensures value { result ≡ value_of_hex digit }
    ensures small { result < 16 }
{
    match digit {
        b'0'..=b'9' => digit - b'0',
        b'A'..=b'F' => digit - b'A' + 10,
        _ => digit - b'a' + 10,
    }
}

/// The byte that a backslash in double quotes and what follows it, from `at` on, stand for.
fn escaped_at(line: &[u8], at: usize) -> Spelled
    requires { at < length line.now }
    ensures { Spells DoubleEscape Double line.now at result.byte result.end }
{
    let letter = line[at];
    if letter == b'x'
        && line.len() - at > 2
        && line[at + 1].is_ascii_hexdigit()
        && line[at + 2].is_ascii_hexdigit()
    {
        return Spelled {
            byte: 16 * hex_value(line[at + 1]) + hex_value(line[at + 2]),
            end: at + 3,
        };
    }
    let byte = match letter {
        b'n' => b'\n',
        b'r' => b'\r',
        b't' => b'\t',
        _ => letter,
    };
    Spelled { byte, end: at + 1 }
}

/// The byte whose spelling begins at `at`, in double quotes.
fn double_quoted_at(line: &[u8], at: usize) -> Spelled
    requires inside { at < length line.now }
    requires open { slice_index line.now at ≢ double_quote }
    ensures { Spells Double Double line.now at result.byte result.end }
{
    let byte = line[at];
    let next = at + 1;
    if byte == b'\\' && next < line.len() {
        escaped_at(line, next)
    } else {
        Spelled { byte, end: next }
    }
}

/// The byte whose spelling begins at `at`, in single quotes.
fn single_quoted_at(line: &[u8], at: usize) -> Spelled
    requires inside { at < length line.now }
    requires open { slice_index line.now at ≢ single_quote }
    ensures { Spells Single Single line.now at result.byte result.end }
{
    let byte = line[at];
    let next = at + 1;
    if byte == b'\\' && next < line.len() && line[next] == b'\'' {
        Spelled {
            byte: b'\'',
            end: next + 1,
        }
    } else {
        Spelled { byte, end: next }
    }
}

/// Puts what stands in double quotes from `start` on behind `word`. The result is the place behind the closing quote.
pub(crate) fn push_double(
    line: &[u8],
    start: usize,
    word: &mut Vec<u8>,
) -> Result<usize, AllocError>
    requires { start ≤ length line.now }
    ensures { IfOk result (λ end.
        Unquotes Double line.now start end word.old.items word.new.items) }
{
    let mut at = start;
    while at < line.len() {
        if line[at] == b'"' {
            return Ok(at + 1);
        }
        let spelled = double_quoted_at(line, at);
        word.push(spelled.byte)?;
        at = spelled.end;
    }
    Ok(at)
}

/// Puts what stands in single quotes from `start` on behind `word`. The result is the place behind the closing quote.
pub(crate) fn push_single(
    line: &[u8],
    start: usize,
    word: &mut Vec<u8>,
) -> Result<usize, AllocError>
    requires { start ≤ length line.now }
    ensures { IfOk result (λ end.
        Unquotes Single line.now start end word.old.items word.new.items) }
{
    let mut at = start;
    while at < line.len() {
        if line[at] == b'\'' {
            return Ok(at + 1);
        }
        let spelled = single_quoted_at(line, at);
        word.push(spelled.byte)?;
        at = spelled.end;
    }
    Ok(at)
}
