// How what others sent is shown.
ghost use Rattle.std.specs.Prelude.{◌≡◌, ◌≤◌};
ghost use Rattle.mr_notices.specs.Lines.{shown_byte};

use std::fmt;
use std::fmt::Write;

/// So many bytes of what others sent are shown.
pub const MOST_SHOWN: usize = 100;

/// What stands in the place of a byte that can't be shown.
const NO_TEXT: u8 = b'?';

/// A byte as it is shown: a printable one as it is, and any other as `?`.
pub fn shown_byte(byte: u8) -> u8
    ensures { result ≡ shown_byte byte }
{
    if b' ' <= byte && byte <= b'~' {
        byte
    } else {
        NO_TEXT
    }
}

/// Bytes that others sent: the first hundred, each as it is shown.
#[derive(Drop)]
pub struct Shown<'a>(pub &'a [u8]);

impl fmt::Display for Shown<'_> {
    fn fmt<W: fmt::Write>(&self, f: &mut fmt::Formatter<W>) -> fmt::Result {
        for byte in self.0.iter().take(MOST_SHOWN) {
            f.write_char(shown_byte(*byte) as char)?;
        }
        Ok(())
    }
}
