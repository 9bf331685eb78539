// What a call answered, written.
ghost use Rattle.std.specs.Prelude.{◌≡◌, ◌∷◌, ◌++◌, OnOk};
ghost use Rattle.rehearse_shared.specs.Answers.{digits_or_none};

use crate::fault::RehearsalFault;
use std::alloc::Global;
use std::fmt::Display;

/// Writes a text behind what was written.
pub fn tell(out: &mut Vec<u8>, text: &str) -> Result<(), RehearsalFault>
    ensures ok { OnOk result (out.new.items ≡ out.old.items ++ text.now) }
{
    out.extend_from_slice(text.as_bytes())?;
    Ok(())
}

/// A space and the bytes.
pub fn tell_bytes(alloc: Global, bytes: &[u8], out: &mut Vec<u8>) -> Result<(), RehearsalFault>
    ensures ok { OnOk result (out.new.items ≡ out.old.items ++ (32 ∷ digits_or_none bytes.now)) }
{
    if bytes.is_empty() {
        return tell(out, " -");
    }
    tell(out, " ")?;
    tell(out, hex::encode(alloc, bytes)?.as_str())
}

/// A space and what is shown.
pub fn tell_shown<S: Display + Drop>(
    alloc: Global,
    shown: S,
    out: &mut Vec<u8>,
) -> Result<(), RehearsalFault> {
    tell(out, format!(in alloc; " {shown}")?.as_str())
}

/// Writes why a call was refused.
pub fn tell_refusal<F: Display + Drop>(
    alloc: Global,
    fault: F,
    out: &mut Vec<u8>,
) -> Result<(), RehearsalFault> {
    tell(out, format!(in alloc; "refused: {fault}")?.as_str())
}

/// Why the loop ends.
pub fn tell_fault<F: Display + Drop>(
    alloc: Global,
    fault: F,
    out: &mut Vec<u8>,
) -> Result<(), RehearsalFault> {
    tell(out, format!(in alloc; "fault: {fault}")?.as_str())
}
