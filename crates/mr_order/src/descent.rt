// How an item is put into a list in parts, or taken from it, in one descent to where it stands.
ghost use Rattle.std.specs.Prelude.{◌≡◌, ◌+◌, ◌<◌, ◌≤◌, ◌^◌, IfOk, OnErr, false, length, slice_index_or, take};
ghost use Rattle.std.specs.List.{All, flat_map};
ghost use Rattle.mr_order.specs.Changes.{IsPut, IsTaken};
ghost use Rattle.mr_order.specs.Parts.{IsSound, length_limit};
ghost use Rattle.mr_order.specs.Standing.{IsBetween, IsDivided};

use crate::grow::insert_into;
use crate::locate::{locate, part_of};
use crate::part::Part;
use crate::query::Query;
use crate::replace::set;
use crate::shrink::{join_around, remove_from};
use std::alloc::AllocError;

/// Puts an item where it stands among so many in order. Where an equal one is there, it replaces that one or isn't put, and
/// the other of the two is answered. Where memory runs out, the items stay. Nothing is counted, but where a part is full.
pub(crate) fn put_into<P: Part>(
    parts: &mut Vec<P>,
    len: usize,
    item: P::Item,
    replaces: bool,
) -> Result<Option<P::Item>, AllocError>
    requires sound { All (IsSound P.items P.is_kept) parts.old.items }
    requires len { len ≡ length (flat_map P.items parts.old.items) }
    requires small { len < length_limit }
    requires divided { IsDivided (P.Item.cmp item) (flat_map P.items parts.old.items) }
    ensures sound { All (IsSound P.items P.is_kept) parts.new.items }
    ensures ok { IfOk result (λ other.
        IsPut (P.Item.cmp item) (flat_map P.items parts.old.items) item replaces
        (flat_map P.items parts.new.items) other) }
    ensures err { OnErr result (flat_map P.items parts.new.items ≡
        flat_map P.items parts.old.items) }
    ensures parts { length parts.new.items ≤ length parts.old.items + 1 }
{
    if parts.is_empty() {
        return put_by_place(parts, len, item, replaces);
    }
    let part = part_of(parts, &item);
    if parts[part].is_full() {
        put_by_place(parts, len, item, replaces)
    } else {
        put_in_part(parts, part, item, replaces)
    }
}

/// The same, where a search among so many has found the place.
fn put_by_place<P: Part>(
    parts: &mut Vec<P>,
    len: usize,
    item: P::Item,
    replaces: bool,
) -> Result<Option<P::Item>, AllocError>
    requires sound { All (IsSound P.items P.is_kept) parts.old.items }
    requires len { len ≡ length (flat_map P.items parts.old.items) }
    requires small { len < length_limit }
    requires divided { IsDivided (P.Item.cmp item) (flat_map P.items parts.old.items) }
    ensures sound { All (IsSound P.items P.is_kept) parts.new.items }
    ensures ok { IfOk result (λ other.
        IsPut (P.Item.cmp item) (flat_map P.items parts.old.items) item replaces
        (flat_map P.items parts.new.items) other) }
    ensures err { OnErr result (flat_map P.items parts.new.items ≡
        flat_map P.items parts.old.items) }
    ensures parts { length parts.new.items ≤ length parts.old.items + 1 }
{
    match locate(parts, &item) {
        Ok(at) if replaces => Ok(Some(set(parts, at, item))),
        Ok(_) => Ok(Some(item)),
        Err(at) => {
            insert_into(parts, len, at, item)?;
            Ok(None)
        }
    }
}

/// The same in the part in which the item stands, and which has room.
fn put_in_part<P: Part>(
    parts: &mut Vec<P>,
    part: usize,
    item: P::Item,
    replaces: bool,
) -> Result<Option<P::Item>, AllocError>
    requires sound { All (IsSound P.items P.is_kept) parts.old.items }
    requires part { part < length parts.old.items }
    requires room { (d : P) → P.is_full (slice_index_or parts.old.items part d) ≡ false }
    requires divided { IsDivided (P.Item.cmp item) (flat_map P.items parts.old.items) }
    requires between { IsBetween (P.Item.cmp item) (flat_map P.items parts.old.items)
        (length (flat_map P.items (take part parts.old.items)))
        (length (flat_map P.items (take (part + 1) parts.old.items))) }
    ensures sound { All (IsSound P.items P.is_kept) parts.new.items }
    ensures ok { IfOk result (λ other.
        IsPut (P.Item.cmp item) (flat_map P.items parts.old.items) item replaces
        (flat_map P.items parts.new.items) other) }
    ensures err { OnErr result (flat_map P.items parts.new.items ≡
        flat_map P.items parts.old.items) }
    ensures parts { length parts.new.items ≡ length parts.old.items }
{
    parts[part].put(item, replaces)
}

/// Takes the item to which a query is equal, if there is one. A part that is left empty goes, and one that fits into a part
/// with a neighbour joins it. Nothing is counted, but where a part has one item.
pub(crate) fn take_out<P: Part, Q: Query<P::Item>>(parts: &mut Vec<P>, query: Q) -> Option<P::Item>
    requires sound { All (IsSound P.items P.is_kept) parts.old.items }
    requires small { length (flat_map P.items parts.old.items) < 2 ^ 63 }
    requires divided { IsDivided (Q.compare query) (flat_map P.items parts.old.items) }
    ensures sound { All (IsSound P.items P.is_kept) parts.new.items }
    ensures taken { IsTaken (Q.compare query) (flat_map P.items parts.old.items) result
        (flat_map P.items parts.new.items) }
    ensures parts { length parts.new.items ≤ length parts.old.items }
{
    if parts.is_empty() {
        return None;
    }
    let part = part_of(parts, query);
    if parts[part].len() == 1 {
        return take_by_place(parts, query);
    }
    let item = take_in_part(parts, part, query)?;
    join_around(parts, part);
    Some(item)
}

/// Takes the item to which a query is equal from the place that a search has found, if there is one.
fn take_by_place<P: Part, Q: Query<P::Item>>(parts: &mut Vec<P>, query: Q) -> Option<P::Item>
    requires sound { All (IsSound P.items P.is_kept) parts.old.items }
    requires small { length (flat_map P.items parts.old.items) < 2 ^ 63 }
    requires divided { IsDivided (Q.compare query) (flat_map P.items parts.old.items) }
    ensures sound { All (IsSound P.items P.is_kept) parts.new.items }
    ensures taken { IsTaken (Q.compare query) (flat_map P.items parts.old.items) result
        (flat_map P.items parts.new.items) }
    ensures parts { length parts.new.items ≤ length parts.old.items }
{
    match locate(parts, query) {
        Ok(at) => Some(remove_from(parts, at)),
        Err(_) => None,
    }
}

/// Takes the item to which a query is equal, if there is one, from the part in which the query stands, and which has
/// others.
fn take_in_part<P: Part, Q: Query<P::Item>>(
    parts: &mut Vec<P>,
    part: usize,
    query: Q,
) -> Option<P::Item>
    requires sound { All (IsSound P.items P.is_kept) parts.old.items }
    requires part { part < length parts.old.items }
    requires others { (d : P) → 1 < length (P.items (slice_index_or parts.old.items part d)) }
    requires divided { IsDivided (Q.compare query) (flat_map P.items parts.old.items) }
    requires between { IsBetween (Q.compare query) (flat_map P.items parts.old.items)
        (length (flat_map P.items (take part parts.old.items)))
        (length (flat_map P.items (take (part + 1) parts.old.items))) }
    ensures sound { All (IsSound P.items P.is_kept) parts.new.items }
    ensures taken { IsTaken (Q.compare query) (flat_map P.items parts.old.items) result
        (flat_map P.items parts.new.items) }
    ensures parts { length parts.new.items ≡ length parts.old.items }
{
    parts[part].take(query)
}
