// The search that tells parts apart by their first items.
ghost use Rattle.std.specs.Prelude.{◌≡◌, ◌+◌, ◌<◌, ◌^◌, length, option_copied, slice_index_or, take};
ghost use Rattle.std.specs.List.{All, flat_map};
ghost use Rattle.mr_order.specs.Changes.{IsFound};
ghost use Rattle.mr_order.specs.Parts.{IsSound};
ghost use Rattle.mr_order.specs.Standing.{IsBetween, IsDivided, IsPlaceOf};

use crate::part::Part;
use crate::parts::{shifted, total};
use crate::query::Query;

/// The first item.
pub(crate) fn first<P: Part>(parts: &[P]) -> &P::Item
    requires sound { All (IsSound P.items P.is_kept) parts.now }
    requires some { 0 < length (flat_map P.items parts.now) }
    ensures { result.now ≡ slice_index_or (flat_map P.items parts.now) 0 result.now }
{
    parts[0].first()
}

/// Where a query stands, or would stand. What stands in front of its part is counted, and no place is looked up.
pub(crate) fn locate<P: Part, Q: Query<P::Item>>(parts: &[P], query: Q) -> Result<usize, usize>
    requires sound { All (IsSound P.items P.is_kept) parts.now }
    requires small { length (flat_map P.items parts.now) < 2 ^ 63 }
    requires divided { IsDivided (Q.compare query) (flat_map P.items parts.now) }
    ensures { IsPlaceOf (Q.compare query) (flat_map P.items parts.now) result }
{
    if parts.is_empty() {
        return Err(0);
    }
    let part = part_of(parts, query);
    let found = parts[part].locate(query);
    shifted(found, total(&parts[..part]))
}

/// The item to which a query is equal, if there is one. What stands in front of its part isn't counted.
pub(crate) fn get<P: Part, Q: Query<P::Item>>(parts: &[P], query: Q) -> Option<&P::Item>
    requires sound { All (IsSound P.items P.is_kept) parts.now }
    requires divided { IsDivided (Q.compare query) (flat_map P.items parts.now) }
    ensures { IsFound (Q.compare query) (flat_map P.items parts.now) (option_copied result) }
{
    if parts.is_empty() {
        return None;
    }
    let part = part_of(parts, query);
    parts[part].get(query)
}

/// The part in which a query stands, or would stand: the last one whose first item isn't greater than it, or else the first one.
pub(crate) fn part_of<P: Part, Q: Query<P::Item>>(parts: &[P], query: Q) -> usize
    requires sound { All (IsSound P.items P.is_kept) parts.now }
    requires some { 0 < length parts.now }
    requires divided { IsDivided (Q.compare query) (flat_map P.items parts.now) }
    ensures part { result < length parts.now }
    ensures between { IsBetween (Q.compare query) (flat_map P.items parts.now)
        (length (flat_map P.items (take result parts.now)))
        (length (flat_map P.items (take (result + 1) parts.now))) }
{
    let mut part = 0;
    let mut past = parts.len();
    while part + 1 < past {
        let middle = part + (past - part) / 2;
        if query.compare(parts[middle].first()).is_lt() {
            past = middle;
        } else {
            part = middle;
        }
    }
    part
}
