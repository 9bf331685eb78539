// What single arguments say.
ghost use Rattle.std.specs.Prelude.{◌≡◌};
ghost use Rattle.std.specs.Cow.{cow_slice_items};
ghost use Rattle.mr_arguments.specs.Parts.{integer};
ghost use Rattle.mr_zset_options.specs.Parts.{bound, bounds, limit, limit_if_any, score};

use crate::choices::{Limit, Order};
use crate::range_options::LimitWords;
use mr_arguments::{AskFault, BadValue};
use mr_bytes::read_i64;
use mr_score::read_score;
use mr_zset::{Bound, read_bound};
use std::borrow::CowSlice;

/// A score.
pub fn score(word: &CowSlice<'_, u8>) -> Result<i64, AskFault>
    ensures { result ≡ score (cow_slice_items word.now) }
{
    read_score(word.as_slice()).ok_or(AskFault::Integer)
}

/// A bound on scores.
pub fn bound(word: &CowSlice<'_, u8>) -> Result<Bound, AskFault>
    ensures { result ≡ bound (cow_slice_items word.now) }
{
    read_bound(word.as_slice()).ok_or(AskFault::Other(BadValue::Bound))
}

/// The lower and the upper bound of a range. In descending order the upper one comes first.
pub fn bounds(
    order: Order,
    first: &CowSlice<'_, u8>,
    second: &CowSlice<'_, u8>,
) -> Result<(Bound, Bound), AskFault>
    ensures { result ≡ bounds order (cow_slice_items first.now) (cow_slice_items second.now) }
{
    match order {
        Order::Ascending => Ok((bound(first)?, bound(second)?)),
        Order::Descending => Ok((bound(second)?, bound(first)?)),
    }
}

/// The part of a range that is answered, where `LIMIT` is there.
pub fn limit_if_any(words: &Option<LimitWords<'_>>) -> Result<Option<Limit>, AskFault>
    ensures { result ≡ limit_if_any words.now }
{
    match words {
        None => Ok(None),
        Some(words) => Ok(Some(limit_of(words)?)),
    }
}

/// The limit that the words behind `LIMIT` spell. It is a fault where one of them is no whole number.
fn limit_of(words: &LimitWords<'_>) -> Result<Limit, AskFault>
    ensures { result ≡ limit words.now }
{
    Ok(Limit {
        offset: integer_text(words.offset.as_slice())?,
        count: integer_text(words.count.as_slice())?,
    })
}

/// The whole number of 64 bits that a text spells, or else the fault that it is none.
fn integer_text(text: &[u8]) -> Result<i64, AskFault>
    ensures { result ≡ integer text.now }
{
    read_i64(text).ok_or(AskFault::Integer)
}
