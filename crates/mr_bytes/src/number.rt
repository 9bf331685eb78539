// Whole numbers of 64 bits as texts.
ghost use Rattle.std.specs.Prelude.{◌≡◌, ◌≢◌, ℕ, ℤ, negsuc, SomeIff, ◌+◌, ◌-◌, ◌<◌, ◌≤◌, ◌^◌, List, ◌∷◌, IsTrue, IfOk, IfSome, IfNone, decimal};
ghost use Rattle.std.specs.Fmt.{signed_decimal};
ghost use Rattle.mr_bytes.specs.Number.{is_i64, number_of};

use crate::bytes::Bytes;
use itoa::Buffer;
use std::alloc::{AllocError, Global};

// No number of 64 bits has more digits.
const MOST_DIGITS: usize = 19;

/// The number that a text spells: digits without leading zeros, after a `-` where it is below
/// zero. A plus, `-0`, an empty text and a number outside 64 bits are none.
pub fn read_i64(text: &[u8]) -> Option<i64>
    ensures number { result ≡ number_of text.now }
    ensures spelled { IfSome result (λ n. text.now ≡ signed_decimal n) }
    ensures other { IfNone result ((n : ℤ) → IsTrue (is_i64 n) →
        text.now ≢ signed_decimal n) }
{
    match text {
        [b'-', digits @ ..] => read_below_zero(digits),
        _ => read_natural(text),
    }
}

/// The number that digits spell behind a `-`, if they spell one below 0 that has 64 bits.
fn read_below_zero(digits: &[u8]) -> Option<i64>
    ensures spelled { IfSome result (λ n. IsTrue (is_i64 n) ×
        (45 ∷ digits.now ≡ signed_decimal n)) }
    ensures other { IfNone result ((n : ℤ) → IsTrue (is_i64 n) →
        45 ∷ digits.now ≢ signed_decimal n) }
{
    negated(read_digits(digits)?)
}

/// The number from 0 on that a text spells, if it spells one that has 64 bits.
fn read_natural(text: &[u8]) -> Option<i64>
    ensures spelled { IfSome result (λ n. IsTrue (is_i64 n) × (text.now ≡ signed_decimal n)) }
    ensures other { IfNone result ((n : ℕ) → n < 2 ^ 63 → text.now ≢ decimal n) }
{
    i64::try_from(read_digits(text)?).ok()
}

/// The number of at most 19 digits that a text spells, if it spells one: no zero stands in front of others.
fn read_digits(text: &[u8]) -> Option<u64>
    ensures small { IfSome result (λ n. n < 10 ^ 19) }
    ensures spelled { IfSome result (λ n. text.now ≡ decimal n) }
    ensures other { IfNone result ((n : ℕ) → n < 10 ^ 19 → text.now ≢ decimal n) }
{
    if text.is_empty() || text.len() > MOST_DIGITS {
        return None;
    }
    if text[0] == b'0' && text.len() > 1 {
        return None;
    }
    let mut value = 0;
    for byte in text {
        if !byte.is_ascii_digit() {
            return None;
        }
        value = value * 10 + u64::from(*byte - b'0');
    }
    Some(value)
}

/// The number below zero with this magnitude, where it has 64 bits. None for 0.
fn negated(magnitude: u64) -> Option<i64>
    ensures { SomeIff result ((0 < magnitude) × (magnitude ≤ 2 ^ 63)) (negsuc (magnitude - 1)) }
{
    if magnitude == 0 || magnitude > 1 << 63 {
        return None;
    }
    // The least number has no counterpart above zero.
    Some(-((magnitude - 1) as i64) - 1)
}

/// The text of a number.
pub fn write_i64(alloc: Global, number: i64) -> Result<Bytes, AllocError>
    ensures { IfOk result (λ text. text ≡ signed_decimal number) }
{
    let mut buffer = Buffer::new();
    Bytes::from_slice(alloc, buffer.format(number).as_bytes())
}
