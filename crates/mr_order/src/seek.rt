// The search in a chunk.
ghost use Rattle.std.specs.Prelude.{◌≡◌, ◌+◌, ◌^◌, ◌<◌, ◌≤◌, ℕ};
ghost use Rattle.mr_order.specs.Standing.{IsBetween, IsDivided, IsPlaceOf};

use crate::query::{Query, Steps};
use std::cmp::Ordering;

/// Where a query stands, or would stand, between two places.
pub(crate) fn seek<T: Ord, Q: Query<T>>(
    items: &[T],
    query: Q,
    low: usize,
    high: usize,
    steps: &mut Steps,
) -> Result<usize, usize>
    requires divided { IsDivided (Q.compare query) items.now }
    requires between { IsBetween (Q.compare query) items.now low high }
    ensures place { IsPlaceOf (Q.compare query) items.now result }
    ensures steps { (digits : ℕ) → high < low + 2 ^ digits →
        steps.new.count ≤ steps.old.count + digits }
    ensures rising { steps.old.count ≤ steps.new.count }
{
    let mut from = low;
    let mut to = high;
    while from < to {
        let middle = from + (to - from) / 2;
        match steps.compare(query, &items[middle]) {
            Ordering::Greater => from = middle + 1,
            Ordering::Equal => return Ok(middle),
            Ordering::Less => to = middle,
        }
    }
    Err(from)
}
