// How items that stand next to each other are taken from a list in parts.
ghost use Rattle.std.specs.Prelude.{◌≡◌, ◌+◌, ◌-◌, ◌<◌, ◌≤◌, length, slice_index_or, take};
ghost use Rattle.std.specs.List.{All, flat_map, remove_range};
ghost use Rattle.mr_order.specs.Parts.{IsSound};

use crate::part::Part;
use crate::parts::find;
use crate::shrink::join_around;

/// Takes the items from one place to another, the second left out. Parts that lie between the two go whole.
pub(crate) fn remove_range_from<P: Part>(parts: &mut Vec<P>, from: usize, to: usize)
    requires sound { All (IsSound P.items P.is_kept) parts.old.items }
    requires ordered { from ≤ to }
    requires within { to ≤ length (flat_map P.items parts.old.items) }
    ensures sound { All (IsSound P.items P.is_kept) parts.new.items }
    ensures removed { flat_map P.items parts.new.items ≡
        remove_range (flat_map P.items parts.old.items) from to }
    ensures parts { length parts.new.items ≤ length parts.old.items }
{
    let mut end = to;
    while from < end {
        end -= remove_some(parts, from, end);
    }
}

/// Takes the items of one part that stand from one place on and in front of another, and answers how many they are.
fn remove_some<P: Part>(parts: &mut Vec<P>, from: usize, to: usize) -> usize
    requires sound { All (IsSound P.items P.is_kept) parts.old.items }
    requires some { from < to }
    requires within { to ≤ length (flat_map P.items parts.old.items) }
    ensures sound { All (IsSound P.items P.is_kept) parts.new.items }
    ensures removed { flat_map P.items parts.new.items ≡
        remove_range (flat_map P.items parts.old.items) from (from + result) }
    ensures some { 0 < result }
    ensures within { from + result ≤ to }
    ensures parts { length parts.new.items ≤ length parts.old.items }
{
    let (part, place) = find(parts, from);
    let len = parts[part].len();
    let past = (place + (to - from)).min(len);
    if past - place == len {
        drop(parts.remove(part));
        return len;
    }
    remove_within(parts, part, place, past);
    join_around(parts, part);
    past - place
}

/// Takes some items of a part, but not all.
fn remove_within<P: Part>(parts: &mut Vec<P>, part: usize, from: usize, to: usize)
    requires sound { All (IsSound P.items P.is_kept) parts.old.items }
    requires part { part < length parts.old.items }
    requires ordered { from ≤ to }
    requires within { (d : P) → to ≤ length (P.items (slice_index_or parts.old.items part d)) }
    requires others { (d : P) →
        to - from < length (P.items (slice_index_or parts.old.items part d)) }
    ensures sound { All (IsSound P.items P.is_kept) parts.new.items }
    ensures parts { length parts.new.items ≡ length parts.old.items }
    ensures removed { flat_map P.items parts.new.items ≡
        remove_range (flat_map P.items parts.old.items)
        (length (flat_map P.items (take part parts.old.items)) + from)
        (length (flat_map P.items (take part parts.old.items)) + to) }
{
    parts[part].remove_range(from, to)
}
