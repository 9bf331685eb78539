// How a list in parts takes a further item.
ghost use Rattle.std.specs.Prelude.{◌≡◌, ◌+◌, ◌++◌, ◌∷◌, ◌<◌, ◌≤◌, ◌^◌, [], IfOk, List, OnErr, OnOk, false, length, slice_index_or, take, true};
ghost use Rattle.std.specs.List.{All, flat_map, insert};
ghost use Rattle.mr_order.specs.Parts.{IsSound};

use crate::part::Part;
use crate::parts::find_gap;
use std::alloc::AllocError;

/// Puts an item where it stands at a place among so many. Where memory runs out, the items stay. A part that is full is cut in
/// two before, but behind all items a new part begins, so that parts which come in order are full.
pub(crate) fn insert_into<P: Part>(
    parts: &mut Vec<P>,
    len: usize,
    at: usize,
    item: P::Item,
) -> Result<(), AllocError>
    requires sound { All (IsSound P.items P.is_kept) parts.old.items }
    requires len { len ≡ length (flat_map P.items parts.old.items) }
    requires within { at ≤ len }
    ensures sound { All (IsSound P.items P.is_kept) parts.new.items }
    ensures ok { OnOk result (flat_map P.items parts.new.items ≡
        insert (flat_map P.items parts.old.items) at item) }
    ensures err { OnErr result (flat_map P.items parts.new.items ≡
        flat_map P.items parts.old.items) }
    ensures parts { length parts.new.items ≤ length parts.old.items + 1 }
{
    if at == len && !has_room_behind(parts) {
        return push_one(parts, item);
    }
    let (part, place) = find_gap(parts, at);
    if parts[part].is_full() {
        put_in_halves(parts, part, place, item)
    } else {
        put(parts, part, place, item)
    }
}

/// Whether the last part has room.
fn has_room_behind<P: Part>(parts: &[P]) -> bool
    ensures { result ≡ true → 0 < length parts.now }
{
    match parts.last() {
        Some(last) => !last.is_full(),
        None => false,
    }
}

/// Puts an item behind all others, in a part of its own. Where memory runs out, the items stay.
fn push_one<P: Part>(parts: &mut Vec<P>, item: P::Item) -> Result<(), AllocError>
    requires { All (IsSound P.items P.is_kept) parts.old.items }
    ensures sound { All (IsSound P.items P.is_kept) parts.new.items }
    ensures ok { OnOk result (flat_map P.items parts.new.items ≡
        flat_map P.items parts.old.items ++ item ∷ []) }
    ensures err { OnErr result (flat_map P.items parts.new.items ≡
        flat_map P.items parts.old.items) }
    ensures parts { length parts.new.items ≤ length parts.old.items + 1 }
{
    let alloc = *parts.allocator();
    let part = P::one(alloc, item)?;
    parts.push(part)?;
    Ok(())
}

/// Puts an item at a place of a part that has room. Where memory runs out, the items stay.
fn put<P: Part>(
    parts: &mut Vec<P>,
    part: usize,
    place: usize,
    item: P::Item,
) -> Result<(), AllocError>
    requires sound { All (IsSound P.items P.is_kept) parts.old.items }
    requires part { part < length parts.old.items }
    requires within { (d : P) →
        place ≤ length (P.items (slice_index_or parts.old.items part d)) }
    requires room { (d : P) → P.is_full (slice_index_or parts.old.items part d) ≡ false }
    ensures sound { All (IsSound P.items P.is_kept) parts.new.items }
    ensures ok { OnOk result (flat_map P.items parts.new.items ≡
        insert (flat_map P.items parts.old.items)
        (length (flat_map P.items (take part parts.old.items)) + place) item) }
    ensures err { OnErr result (flat_map P.items parts.new.items ≡
        flat_map P.items parts.old.items) }
    ensures parts { length parts.new.items ≡ length parts.old.items }
{
    parts[part].insert(place, item)?;
    Ok(())
}

/// Cuts a full part in two, and puts an item into one of the two. All memory is taken before the parts change.
fn put_in_halves<P: Part>(
    parts: &mut Vec<P>,
    part: usize,
    place: usize,
    item: P::Item,
) -> Result<(), AllocError>
    requires sound { All (IsSound P.items P.is_kept) parts.old.items }
    requires part { part < length parts.old.items }
    requires within { (d : P) →
        place ≤ length (P.items (slice_index_or parts.old.items part d)) }
    requires full { (d : P) → P.is_full (slice_index_or parts.old.items part d) ≡ true }
    ensures sound { All (IsSound P.items P.is_kept) parts.new.items }
    ensures ok { OnOk result (flat_map P.items parts.new.items ≡
        insert (flat_map P.items parts.old.items)
        (length (flat_map P.items (take part parts.old.items)) + place) item) }
    ensures err { OnErr result (flat_map P.items parts.new.items ≡
        flat_map P.items parts.old.items) }
    ensures parts { length parts.new.items ≤ length parts.old.items + 1 }
{
    parts.reserve(1)?;
    let mut tail = parts[part].split()?;
    let outcome = put_in_either(&mut parts[part], &mut tail, place, item);
    match parts.insert(part + 1, tail) {
        Ok(()) => outcome,
        Err(_) => unreachable!(),
    }
}

/// Puts an item at a place of two parts that stand next to each other, into one that has it. Where memory runs out, the
/// items stay.
fn put_in_either<P: Part>(
    head: &mut P,
    tail: &mut P,
    place: usize,
    item: P::Item,
) -> Result<(), AllocError>
    requires head { IsSound P.items P.is_kept head.old }
    requires tail { IsSound P.items P.is_kept tail.old }
    requires head_room { P.is_full head.old ≡ false }
    requires tail_room { P.is_full tail.old ≡ false }
    requires within { place ≤ length (P.items head.old ++ P.items tail.old) }
    ensures head { IsSound P.items P.is_kept head.new }
    ensures tail { IsSound P.items P.is_kept tail.new }
    ensures ok { OnOk result (P.items head.new ++ P.items tail.new ≡
        insert (P.items head.old ++ P.items tail.old) place item) }
    ensures err { OnErr result (P.items head.new ++ P.items tail.new ≡
        P.items head.old ++ P.items tail.old) }
{
    let len = head.len();
    if place <= len {
        head.insert(place, item)
    } else {
        tail.insert(place - len, item)
    }
}
