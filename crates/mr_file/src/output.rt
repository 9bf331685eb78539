// Outputs, to which bytes are written in as many writes as it takes.
ghost use Rattle.std.specs.Prelude.{◌≤◌, [], length, take, IfOk, OnOk, OnErr};
ghost use Rattle.std.specs.Io.KnownBytes as known;
ghost use Rattle.mr_file.specs.Outputs.{IsBegun};

use std::io::{ErrorKind, Write};
use thiserror::Error;

/// An output can't be written.
#[derive(Clone, Copy, Debug, PartialEq, Eq, Error)]
#[error("the output failed")]
pub struct OutputFault;

/// Writes once. None is written where the write was interrupted.
fn write_some<W: Write>(output: &mut W, bytes: &[u8]) -> Result<usize, OutputFault>
    ensures within { IfOk result (λ n. n ≤ length bytes.now) }
    ensures written { IfOk result (λ n.
        known.Appends (W.contents output.old) (W.contents output.new) (take n bytes.now)) }
    ensures failed { OnErr result
        (known.Appends (W.contents output.old) (W.contents output.new) []) }
{
    match output.write(bytes) {
        Ok(0) => Err(OutputFault),
        Ok(count) => Ok(count),
        Err(error) => {
            if error.kind() == ErrorKind::Interrupted {
                return Ok(0);
            }
            Err(OutputFault)
        }
    }
}

/// Writes all bytes, in as many writes as it takes. After a fault a beginning of them is written.
pub fn write_out<W: Write>(output: &mut W, bytes: &[u8]) -> Result<(), OutputFault>
    ensures written { OnOk result
        (known.Appends (W.contents output.old) (W.contents output.new) bytes.now) }
    ensures begun { OnErr result
        (IsBegun (W.contents output.old) (W.contents output.new) bytes.now) }
{
    let mut at = 0;
    for _write in 0..u64::MAX {
        if at >= bytes.len() {
            return Ok(());
        }
        at += write_some(output, &bytes[at..])?;
    }
    Err(OutputFault)
}
