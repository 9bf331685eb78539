//! The node that a text names.
ghost use Rattle.std.specs.Prelude.{◌≡◌, ◌≢◌, ℕ, IfSome, IfNone, decimal};
ghost use Rattle.clap.specs.Words.{Text};
ghost use Rattle.mr_options.specs.Values.{IsPort, Names, master_text};

use crate::line::Master;
use mr_bytes::read_i64;

/// The port that a text spells, without a sign or a leading zero.
fn port_of(text: &str) -> Option<u16>
    ensures some { IfSome result (λ port. IsPort port × (decimal port ≡ text.now)) }
    ensures none { IfNone result ((port : ℕ) → IsPort port → decimal port ≢ text.now) }
{
    let number = read_i64(text.as_bytes())?;
    if number < 1 || number > 65_535 {
        return None;
    }
    Some(number as u16)
}

/// The node that a text names: what stands before its last colon is the host, and what stands behind it the port.
pub(crate) fn master_named(text: &str) -> Option<Master<'_>>
    ensures some { IfSome result (Names text.now) }
    ensures none { IfNone result ((host : Text) (port : ℕ) → IsPort port →
        master_text host port ≢ text.now) }
{
    let (host, digits) = text.rsplit_once(':')?;
    let port = port_of(digits)?;
    Some(Master { host, port })
}
