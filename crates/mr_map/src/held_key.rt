// A key that a map held.

use crate::short_key::ShortKey;

/// A key that a map held, as it lay there: few bytes in its table, more in memory of their own.
#[derive(Drop)]
pub enum HeldKey {
    Short(ShortKey),
    Long(Vec<u8>),
}
