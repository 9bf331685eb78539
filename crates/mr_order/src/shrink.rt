// How an item is taken from a list in parts.
ghost use Rattle.std.specs.Prelude.{◌≡◌, ◌+◌, ◌++◌, ◌∷◌, ◌<◌, ◌≤◌, ◌^◌, [], IfErr, IfOk, List, OnErr, OnOk, false, length, slice_index_or, take, true, vec_capacity, vec_len};
ghost use Rattle.std.specs.List.{All, flat_map, insert, remove};
ghost use Rattle.mr_order.specs.Parts.{IsSound};

use crate::part::Part;
use crate::parts::find;

/// Takes the item from a place. A part that is left empty goes, and one that fits into a part with a neighbour joins it.
pub(crate) fn remove_from<P: Part>(parts: &mut Vec<P>, at: usize) -> P::Item
    requires sound { All (IsSound P.items P.is_kept) parts.old.items }
    requires within { at < length (flat_map P.items parts.old.items) }
    ensures sound { All (IsSound P.items P.is_kept) parts.new.items }
    ensures removed { flat_map P.items parts.new.items ≡
        remove (flat_map P.items parts.old.items) at }
    ensures value { result ≡ slice_index_or (flat_map P.items parts.old.items) at result }
    ensures parts { length parts.new.items ≤ length parts.old.items }
{
    let (part, place) = find(parts, at);
    if parts[part].len() == 1 {
        return take_single(parts, part);
    }
    let item = take_from(parts, part, place);
    join_around(parts, part);
    item
}

/// Takes the only item of a part, and the part with it.
fn take_single<P: Part>(parts: &mut Vec<P>, part: usize) -> P::Item
    requires sound { All (IsSound P.items P.is_kept) parts.old.items }
    requires part { part < length parts.old.items }
    requires single { (d : P) → length (P.items (slice_index_or parts.old.items part d)) ≡ 1 }
    ensures sound { All (IsSound P.items P.is_kept) parts.new.items }
    ensures removed { flat_map P.items parts.new.items ≡
        remove (flat_map P.items parts.old.items)
        (length (flat_map P.items (take part parts.old.items))) }
    ensures value { result ≡
        slice_index_or (flat_map P.items parts.old.items)
        (length (flat_map P.items (take part parts.old.items))) result }
    ensures parts { length parts.new.items ≤ length parts.old.items }
{
    let mut single = parts.remove(part);
    single.remove(0)
}

/// Takes an item from a part with others.
fn take_from<P: Part>(parts: &mut Vec<P>, part: usize, place: usize) -> P::Item
    requires sound { All (IsSound P.items P.is_kept) parts.old.items }
    requires part { part < length parts.old.items }
    requires within { (d : P) → place < length (P.items (slice_index_or parts.old.items part d)) }
    requires others { (d : P) → 1 < length (P.items (slice_index_or parts.old.items part d)) }
    ensures sound { All (IsSound P.items P.is_kept) parts.new.items }
    ensures parts { length parts.new.items ≡ length parts.old.items }
    ensures removed { flat_map P.items parts.new.items ≡
        remove (flat_map P.items parts.old.items)
        (length (flat_map P.items (take part parts.old.items)) + place) }
    ensures value { result ≡
        slice_index_or (flat_map P.items parts.old.items)
        (length (flat_map P.items (take part parts.old.items)) + place) result }
{
    parts[part].remove(place)
}

/// Joins a part with its neighbours, where they fit into one. Of a part that doesn't fit with its like they aren't asked.
pub(crate) fn join_around<P: Part>(parts: &mut Vec<P>, part: usize)
    requires sound { All (IsSound P.items P.is_kept) parts.old.items }
    requires part { part < length parts.old.items }
    ensures sound { All (IsSound P.items P.is_kept) parts.new.items }
    ensures same { flat_map P.items parts.new.items ≡ flat_map P.items parts.old.items }
    ensures parts { length parts.new.items ≤ length parts.old.items }
{
    if !parts[part].fits(&parts[part]) {
        return;
    }
    if part + 1 < parts.len() {
        join_next(parts, part);
    }
    if 0 < part {
        join_next(parts, part - 1);
    }
}

/// Joins a part with the next one, if they fit into one and memory suffices.
fn join_next<P: Part>(parts: &mut Vec<P>, part: usize)
    requires sound { All (IsSound P.items P.is_kept) parts.old.items }
    requires part { part + 1 < length parts.old.items }
    ensures sound { All (IsSound P.items P.is_kept) parts.new.items }
    ensures same { flat_map P.items parts.new.items ≡ flat_map P.items parts.old.items }
    ensures parts { (length parts.new.items ≤ length parts.old.items) ×
        (part < length parts.new.items) }
{
    if !parts[part].fits(&parts[part + 1]) {
        return;
    }
    let next = parts.remove(part + 1);
    if let Err(next) = parts[part].join(next) {
        put_in_room(parts, part + 1, next);
    }
}

/// Puts a part where there is room for one.
pub(crate) fn put_in_room<P: Part>(parts: &mut Vec<P>, part: usize, next: P)
    requires part { part ≤ length parts.old.items }
    requires room { vec_len parts.old < vec_capacity parts.old }
    ensures { parts.new.items ≡ insert parts.old.items part next }
{
    match parts.insert(part, next) {
        Ok(()) => (),
        Err(_) => unreachable!(),
    }
}
