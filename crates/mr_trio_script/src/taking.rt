// The lines of an input.
ghost use Rattle.std.specs.Prelude.{IfOk, IfErr};
ghost use Rattle.mr_trio_script.specs.Inputs.{EndsAs, Took, TookSome};

use std::io::{BufRead, ErrorKind};
use thiserror::Error;

/// What an input had next.
#[derive(Clone, Copy, Debug, PartialEq, Eq)]
pub enum NextLine {
    /// A line, with its line feed.
    Line,
    /// No line feed came any more.
    End,
}

/// Why an input can't be read.
#[derive(Clone, Copy, Debug, PartialEq, Eq, Error)]
pub enum InputFault {
    #[error("file failed")]
    Read,
    #[error("out of memory")]
    Memory,
}

/// Takes the next line of an input, in the place of what the buffer had. What stands behind the last line feed is no line.
pub fn next_line<R: BufRead>(input: &mut R, line: &mut Vec<u8>) -> Result<NextLine, InputFault>
    ensures took { IfOk result (λ next.
        Took next line.new.items (R.remaining input.old) (R.remaining input.new)) }
    ensures failed { IfErr result (λ fault.
        TookSome line.new.items (R.remaining input.old) (R.remaining input.new)) }
{
    line.clear();
    match input.read_until(b'\n', line) {
        Ok(_count) => Ok(ended(line)),
        Err(error) => {
            if error.kind() == ErrorKind::OutOfMemory {
                return Err(InputFault::Memory);
            }
            Err(InputFault::Read)
        }
    }
}

/// Whether a line ends with its line feed.
fn ended(line: &[u8]) -> NextLine
    ensures { EndsAs result line.now }
{
    match line.split_last() {
        Some((last, _rest)) => {
            if *last == b'\n' {
                return NextLine::Line;
            }
            NextLine::End
        }
        None => NextLine::End,
    }
}
