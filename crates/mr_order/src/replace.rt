// How an item takes the place of another in a list in parts.
ghost use Rattle.std.specs.Prelude.{◌≡◌, ◌+◌, ◌<◌, ℕ, length, set, slice_index_or, take};
ghost use Rattle.std.specs.List.{All, flat_map};
ghost use Rattle.mr_order.specs.Parts.{IsSound};

use crate::part::Part;
use crate::parts::find;

/// Puts an item in the place of another, which it answers.
pub(crate) fn set<P: Part>(parts: &mut Vec<P>, at: usize, item: P::Item) -> P::Item
    requires sound { All (IsSound P.items P.is_kept) parts.old.items }
    requires within { at < length (flat_map P.items parts.old.items) }
    ensures sound { All (IsSound P.items P.is_kept) parts.new.items }
    ensures set { flat_map P.items parts.new.items ≡
        set (flat_map P.items parts.old.items) at item }
    ensures parts { length parts.new.items ≡ length parts.old.items }
    ensures before { result ≡ slice_index_or (flat_map P.items parts.old.items) at result }
{
    let (part, place) = find(parts, at);
    set_in_part(parts, part, place, item)
}

/// Puts an item in the place of one in a part, and answers that one.
fn set_in_part<P: Part>(parts: &mut Vec<P>, part: usize, place: usize, item: P::Item) -> P::Item
    requires sound { All (IsSound P.items P.is_kept) parts.old.items }
    requires part { part < length parts.old.items }
    requires within { (d : P) → place < length (P.items (slice_index_or parts.old.items part d)) }
    ensures sound { All (IsSound P.items P.is_kept) parts.new.items }
    ensures set { flat_map P.items parts.new.items ≡
        set (flat_map P.items parts.old.items)
        (length (flat_map P.items (take part parts.old.items)) + place) item }
    ensures parts { length parts.new.items ≡ length parts.old.items }
    ensures before { result ≡
        slice_index_or (flat_map P.items parts.old.items)
        (length (flat_map P.items (take part parts.old.items)) + place) result }
{
    parts[part].set(place, item)
}
