// Numbers among the words of a request.
ghost use Rattle.std.specs.Prelude.{◌≡◌};
ghost use Rattle.std.specs.Cow.{cow_slice_items};
ghost use Rattle.mr_arguments.specs.Parts.{integer, not_below_0, not_below_1, count, offset};

use crate::fault::{AskFault, BadValue};
use mr_bytes::read_i64;
use std::borrow::CowSlice;

/// A whole number of 64 bits. It takes no memory.
pub fn integer(word: &CowSlice<'_, u8>) -> Result<i64, AskFault>
    ensures { result ≡ integer (cow_slice_items word.now) }
{
    read_i64(word.as_slice()).ok_or(AskFault::Integer)
}

/// A count that isn't below 0. It takes no memory.
pub fn count(word: &CowSlice<'_, u8>) -> Result<usize, AskFault>
    ensures { result ≡ count (cow_slice_items word.now) }
{
    not_below_0(BadValue::Negative, integer(word)?)
}

/// An offset that isn't below 0. It takes no memory.
pub fn offset(word: &CowSlice<'_, u8>) -> Result<usize, AskFault>
    ensures { result ≡ offset (cow_slice_items word.now) }
{
    not_below_0(BadValue::Offset, integer(word)?)
}

/// A number from 0 on, or else that fault.
fn not_below_0(otherwise: BadValue, number: i64) -> Result<usize, AskFault>
    ensures { result ≡ not_below_0 otherwise number }
{
    if number < 0 {
        Err(AskFault::Other(otherwise))
    } else {
        Ok(number as usize)
    }
}

/// A number from 1 on, or else that fault.
pub fn not_below_1(otherwise: AskFault, number: i64) -> Result<i64, AskFault>
    ensures { result ≡ not_below_1 otherwise number }
{
    if number < 1 {
        Err(otherwise)
    } else {
        Ok(number)
    }
}
