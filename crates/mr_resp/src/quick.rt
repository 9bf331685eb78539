// Requests in array form that stand whole in the input, read in one pass. What is told here is found; `None` says nothing.
ghost use Rattle.std.specs.Prelude.{◌≡◌, ◌+◌, ◌<◌, ◌≤◌, ◌++◌, All, IfSome, IsTrue, length, drop, take, slice_range, map};
ghost use Rattle.std.specs.Cow.{cow_slice_items, IsBorrowedSlice};
ghost use Rattle.mr_resp.specs.Array.{IsArray};
ghost use Rattle.mr_resp.specs.Spelling.{line_end, number_line, bulk};

use crate::limits::Limits;
use std::alloc::Global;
use std::borrow::CowSlice;

/// The fewest bytes that a word takes: its length of one digit, its mark and two line ends.
const OF_A_WORD: usize = 6;

/// Numbers of so many digits and more are left to the reader that counts digits.
const LONG: usize = 1_000_000_000;

/// A number and where its line ends.
#[derive(Clone, Copy)]
struct Number {
    value: usize,
    next: usize,
}

/// Where a word begins and ends.
#[derive(Clone, Copy)]
struct Place {
    start: usize,
    end: usize,
}

/// The words of a request, and its length.
#[derive(Drop)]
pub(crate) struct WholeRequest<'a> {
    pub(crate) words: Vec<CowSlice<'a, u8>>,
    pub(crate) used: usize,
}

/// Whether a line ends at this place.
#[inline]
fn ends_at(input: &[u8], at: usize) -> bool
    requires { at ≤ length input.now }
    ensures { IsTrue result →
        (at + 2 ≤ length input.now) ×
        (drop at input.now ≡ line_end ++ drop (at + 2) input.now) }
{
    if input.len() - at < 2 {
        return false;
    }
    if input[at] != b'\r' {
        return false;
    }
    input[at + 1] == b'\n'
}

/// The number at this place with its line end, where it has up to ten digits and isn't 0.
#[inline]
fn short_number_at(input: &[u8], at: usize) -> Option<Number>
    requires { at ≤ length input.now }
    ensures { IfSome result (λ n. (n.next ≤ length input.now) × (0 < n.value) ×
        (n.value < 10000000000)
        × (drop at input.now ≡ number_line n.value ++ drop n.next input.now)) }
{
    if at == input.len() {
        return None;
    }
    let first = input[at];
    if first < b'1' || first > b'9' {
        return None;
    }
    let mut value = usize::from(first - b'0');
    let mut next = at + 1;
    while next < input.len() && value < LONG && input[next].is_ascii_digit() {
        value = value * 10 + usize::from(input[next] - b'0');
        next += 1;
    }
    if !ends_at(input, next) {
        return None;
    }
    Some(Number {
        value,
        next: next + 2,
    })
}

/// The word at this place, where it stands there whole and isn't longer than `most`.
#[inline]
fn short_word_at(input: &[u8], at: usize, most: usize) -> Option<Place>
    requires { at ≤ length input.now }
    ensures { IfSome result (λ w. (w.start ≤ w.end) × (w.end + 2 ≤ length input.now)
        × (drop at input.now ≡
        bulk (slice_range input.now w.start w.end) ++ drop (w.end + 2) input.now)
        × (length (slice_range input.now w.start w.end) ≤ most)) }
{
    if at == input.len() || input[at] != b'$' {
        return None;
    }
    let Number { value, next: start } = short_number_at(input, at + 1)?;
    if value > most || input.len() - start < value {
        return None;
    }
    let end = start + value;
    if !ends_at(input, end) {
        return None;
    }
    Some(Place { start, end })
}

/// The request in array form at the front of the input, where it stands there whole, with no empty word, and memory is there
/// for the list of its words.
pub(crate) fn whole_request<'a>(
    alloc: Global,
    limits: &Limits,
    input: &'a [u8],
) -> Option<WholeRequest<'a>>
    ensures found { IfSome result (λ r. (r.used ≤ length input.now)
        × IsArray limits.now (take r.used input.now) (map cow_slice_items r.words.items)) }
    ensures borrowed { IfSome result (λ r. All IsBorrowedSlice r.words.items) }
{
    if input.is_empty() || input[0] != b'*' {
        return None;
    }
    let Number {
        value: count,
        next: first,
    } = short_number_at(input, 1)?;
    // no room is taken for words that can't be there
    if count > limits.words || count > input.len() / OF_A_WORD {
        return None;
    }
    let mut words = Vec::with_capacity(alloc, count).ok()?;
    let mut at = first;
    for _ in 0..count {
        let Place { start, end } = short_word_at(input, at, limits.word)?;
        words.push(CowSlice::Borrowed(&input[start..end])).ok()?;
        at = end + 2;
    }
    if at > limits.text {
        return None;
    }
    Some(WholeRequest { words, used: at })
}
