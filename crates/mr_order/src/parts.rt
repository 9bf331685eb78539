// A list of items in parts.
ghost use Rattle.std.specs.Prelude.{◌≡◌, ◌+◌, ◌-◌, ◌<◌, ◌≤◌, ◌^◌, ℕ, MatchResult, length, slice_index_or, take};
ghost use Rattle.std.specs.List.{All, flat_map};
ghost use Rattle.mr_order.specs.Parts.{IsSound};
ghost use Rattle.mr_order.specs.Runs.{IsIn};
ghost use Rattle.mr_order.specs.Standing.{IsBetween, IsDivided, IsPlaceOf, shifted};

use crate::part::Part;
use crate::query::{Query, Steps};
use std::cmp::Ordering;

/// The part in which the item at a place stands, and its place there.
pub(crate) fn find<P: Part>(parts: &[P], at: usize) -> (usize, usize)
    requires sound { All (IsSound P.items P.is_kept) parts.now }
    requires within { at < length (flat_map P.items parts.now) }
    ensures part { result.0 < length parts.now }
    ensures place { length (flat_map P.items (take result.0 parts.now)) + result.1 ≡ at }
    ensures within { (d : P) → result.1 < length (P.items (slice_index_or parts.now result.0 d)) }
{
    let mut rest = at;
    for (index, part) in parts.iter().enumerate() {
        let len = part.len();
        if rest < len {
            return (index, rest);
        }
        rest -= len;
    }
    unreachable!()
}

/// The part into which an item is put that is to stand at a place, and its place there.
pub(crate) fn find_gap<P: Part>(parts: &[P], at: usize) -> (usize, usize)
    requires sound { All (IsSound P.items P.is_kept) parts.now }
    requires some { 0 < length parts.now }
    requires within { at ≤ length (flat_map P.items parts.now) }
    ensures part { result.0 < length parts.now }
    ensures place { length (flat_map P.items (take result.0 parts.now)) + result.1 ≡ at }
    ensures within { (d : P) →
        result.1 ≤ length (P.items (slice_index_or parts.now result.0 d)) }
{
    if at == 0 {
        return (0, 0);
    }
    let (part, place) = find(parts, at - 1);
    (part, place + 1)
}

/// The item at a place.
pub(crate) fn item<P: Part>(parts: &[P], at: usize) -> &P::Item
    requires sound { All (IsSound P.items P.is_kept) parts.now }
    requires within { at < length (flat_map P.items parts.now) }
    ensures { result.now ≡ slice_index_or (flat_map P.items parts.now) at result.now }
{
    let (part, place) = find(parts, at);
    parts[part].item(place)
}

/// Some items from a place on.
pub(crate) fn run_from<P: Part>(parts: &[P], at: usize) -> &[P::Item]
    requires sound { All (IsSound P.items P.is_kept) parts.now }
    requires within { at < length (flat_map P.items parts.now) }
    ensures some { 0 < length result.now }
    ensures run { IsIn (flat_map P.items parts.now) result.now at }
{
    let (part, place) = find(parts, at);
    parts[part].run_from(place)
}

/// Some items in front of a place.
pub(crate) fn run_to<P: Part>(parts: &[P], at: usize) -> &[P::Item]
    requires sound { All (IsSound P.items P.is_kept) parts.now }
    requires some { 0 < at }
    requires within { at ≤ length (flat_map P.items parts.now) }
    ensures some { 0 < length result.now }
    ensures fits { length result.now ≤ at }
    ensures run { IsIn (flat_map P.items parts.now) result.now (at - length result.now) }
{
    let (part, place) = find(parts, at - 1);
    parts[part].run_to(place + 1)
}

/// How many items there are.
pub(crate) fn total<P: Part>(parts: &[P]) -> usize
    requires sound { All (IsSound P.items P.is_kept) parts.now }
    requires small { length (flat_map P.items parts.now) < 2 ^ 63 }
    ensures { result ≡ length (flat_map P.items parts.now) }
{
    let mut total = 0;
    for part in parts {
        total += part.len();
    }
    total
}

/// Where a query stands, or would stand, between two places. It is compared with the item in the middle until one part has
/// what is left, and then in that part, so that few places are looked up from the front.
pub(crate) fn search<P: Part, Q: Query<P::Item>>(
    parts: &[P],
    query: Q,
    low: usize,
    high: usize,
    steps: &mut Steps,
) -> Result<usize, usize>
    requires sound { All (IsSound P.items P.is_kept) parts.now }
    requires small { length (flat_map P.items parts.now) < 2 ^ 63 }
    requires divided { IsDivided (Q.compare query) (flat_map P.items parts.now) }
    requires between { IsBetween (Q.compare query) (flat_map P.items parts.now) low high }
    ensures place { IsPlaceOf (Q.compare query) (flat_map P.items parts.now) result }
    ensures steps { (digits : ℕ) → high < low + 2 ^ digits →
        steps.new.count ≤ steps.old.count + digits }
    ensures rising { steps.old.count ≤ steps.new.count }
{
    let mut from = low;
    let mut to = high;
    while from < to {
        let middle = from + (to - from) / 2;
        let (part, place) = find(parts, middle);
        let start = middle - place;
        if start <= from && to <= start + parts[part].len() {
            let found = parts[part].search(query, from - start, to - start, steps);
            return shifted(found, start);
        }
        match steps.compare(query, parts[part].item(place)) {
            Ordering::Greater => from = middle + 1,
            Ordering::Equal => return Ok(middle),
            Ordering::Less => to = middle,
        }
    }
    Err(from)
}

/// A place in a part, counted from the front of all items.
pub(crate) fn shifted(found: Result<usize, usize>, start: usize) -> Result<usize, usize>
    requires { MatchResult found (λ at. start + at < 2 ^ 64) (λ at. start + at < 2 ^ 64) }
    ensures { result ≡ shifted start found }
{
    match found {
        Ok(at) => Ok(start + at),
        Err(at) => Err(start + at),
    }
}
