// The places that two inclusive indexes name.
ghost use Rattle.std.specs.Prelude.{◌≡◌, ◌<◌, ◌≤◌, IfSome, pos, negsuc, ◌+ℤ◌};
ghost use Rattle.std.specs.Int.{int_min, int_max};
ghost use Rattle.mr_bytes.specs.Window.{named_place, place_of, window_of};

/// The first and the last place (both inclusive, counted from 0) that the inclusive indexes `a`
/// and `b` name among `len` places, or none where they name no place.
///
/// A negative index counts from the end, -1 being the last place. Then a first index that is
/// still below 0 becomes 0, and a last index past the end becomes the last place.
pub fn window(a: i64, b: i64, len: usize) -> Option<(usize, usize)>
    ensures places { result ≡ window_of a b len }
    ensures within { IfSome result (λ w. (w.0 ≤ w.1) × (w.1 < len)) }
{
    let first = first_place(a, len);
    let end = end_place(b, len);
    if first < end {
        Some((first, end - 1))
    } else {
        None
    }
}

/// The place that an index names among `len` places, or none where it names no place. A negative
/// index counts from the end, -1 being the last place.
pub fn place(index: i64, len: usize) -> Option<usize>
    ensures place { result ≡ named_place index len }
    ensures within { IfSome result (λ place. place < len) }
{
    if index < 0 {
        return len.checked_sub(index.unsigned_abs() as usize);
    }
    let place = index as usize;
    if place < len { Some(place) } else { None }
}

/// The first place that a first index allows, which may lie past the end.
fn first_place(index: i64, len: usize) -> usize
    ensures { pos result ≡ int_max (pos 0) (place_of index len) }
{
    if index < 0 {
        len.saturating_sub(index.unsigned_abs() as usize)
    } else {
        index as usize
    }
}

/// One past the last place that a last index allows.
fn end_place(index: i64, len: usize) -> usize
    ensures { pos result ≡ int_max (pos 0) (int_min (place_of index len +ℤ pos 1) (pos len)) }
{
    if index < 0 {
        len.saturating_sub((index.unsigned_abs() - 1) as usize)
    } else {
        len.min(index as usize + 1)
    }
}
