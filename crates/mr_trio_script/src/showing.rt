// Bytes as a line that can be read.
ghost use Rattle.std.specs.Prelude.{◌≡◌, ◌++◌, IfOk, OnOk, IsTrue};
ghost use Rattle.mr_trio_script.specs.Shown.{digits_of, is_plain, escaped, shown_byte};

use hex::encode_to_slice;
use std::alloc::{AllocError, Global};

/// The bytes from a space to `~` as they are, but `\`; and of each other byte `\x` and its two hexadecimal digits.
pub fn shown(alloc: Global, bytes: &[u8]) -> Result<Vec<u8>, AllocError>
    ensures { IfOk result (λ text. text.items ≡ escaped bytes.now) }
{
    let mut text = Vec::new(alloc);
    for byte in bytes {
        push_shown(&mut text, *byte)?;
    }
    Ok(text)
}

/// Whether a byte stands as it is.
fn is_plain(byte: u8) -> bool
    ensures { result ≡ is_plain byte }
{
    byte >= b' ' && byte <= b'~' && byte != b'\\'
}

/// Puts a byte behind the text.
fn push_shown(text: &mut Vec<u8>, byte: u8) -> Result<(), AllocError>
    ensures { OnOk result (text.new.items ≡ text.old.items ++ shown_byte byte) }
{
    if is_plain(byte) {
        text.push(byte)?;
        return Ok(());
    }
    let digits = digits_of(byte);
    text.extend_from_slice(b"\\x")?;
    text.extend_from_slice(&digits)
}

/// The two hexadecimal digits of a byte.
fn digits_of(byte: u8) -> [u8; 2]
    ensures { result ≡ digits_of byte }
{
    let mut digits = [0; 2];
    match encode_to_slice([byte].as_slice(), &mut digits) {
        Ok(()) => digits,
        Err(_error) => unreachable!(),
    }
}
