//! Reads and writes that are tried again where a signal cut them short.
ghost use Rattle.std.specs.Prelude.{◌≢◌, IfErr};
ghost use Rattle.std.specs.Io.{ReadsAtMost, WritesAtMost};
ghost use Rattle.std.specs.IoError.{error_kind};

use std::fs::File;
use std::io;
use std::io::{ErrorKind, Write};
use std::os::unix::fs::FileExt;

/// No call is cut short so often.
const MOST_TRIES: u64 = u64::MAX;

/// Reads from a place of a file on.
pub(crate) fn read_again(file: &File, into: &mut [u8], at: u64) -> io::Result<usize>
    ensures within { ReadsAtMost result into.new }
    ensures tried { IfErr result (λ error. error_kind error ≢ ErrorKind.Interrupted) }
{
    for _ in 0..MOST_TRIES {
        match file.read_at(into, at) {
            Err(error) if error.kind() == ErrorKind::Interrupted => {}
            read => return read,
        }
    }
    Err(io::Error::from(ErrorKind::TimedOut))
}

/// Appends a beginning of the piece to a file.
pub(crate) fn write_again(file: &mut File, piece: &[u8]) -> io::Result<usize>
    ensures within { WritesAtMost result piece.now }
    ensures tried { IfErr result (λ error. error_kind error ≢ ErrorKind.Interrupted) }
{
    for _ in 0..MOST_TRIES {
        match file.write(piece) {
            Err(error) if error.kind() == ErrorKind::Interrupted => {}
            written => return written,
        }
    }
    Err(io::Error::from(ErrorKind::TimedOut))
}
