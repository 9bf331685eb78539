// The items of a queue that equal one.
ghost use Rattle.std.specs.Prelude.{◌≡◌, ◌<◌, ◌≤◌, [], get_or, min, reverse, take, IfSome};
ghost use Rattle.std.specs.Str.{bytes_eq};
ghost use Rattle.std.specs.VecDeque.{deque_len};
ghost use Rattle.mr_value.specs.Lists.{are_equal, first_place, count_of};

use crate::compact_bytes::CompactBytes;
use std::collections::VecDeque;

/// Whether an item has these bytes.
fn matches(other: &CompactBytes, item: &[u8]) -> bool
    ensures { result ≡ bytes_eq other.now item.now }
{
    other.as_slice() == item
}

/// The first place of an item.
#[tactic(auto, unfolding(crate::specs::Lists::first_place))]
pub(crate) fn first_place(items: &VecDeque<CompactBytes>, item: &[u8]) -> Option<usize>
    ensures place { result ≡ first_place item.now items.now.items }
    ensures within { IfSome result (λ place. place < deque_len items.now) }
{
    items.iter().position(|other| matches(other, item))
}

/// The place of the first item that equals one, among so many in front.
#[tactic(auto, unfolding(crate::specs::Lists::first_place))]
pub(crate) fn place_in_front(
    items: &VecDeque<CompactBytes>,
    len: usize,
    item: &[u8],
) -> Option<usize>
    requires { len ≤ deque_len items.now }
    ensures place { result ≡ first_place item.now (take len items.now.items) }
    ensures within { IfSome result (λ place. place < len) }
{
    items.range(0..len).position(|other| matches(other, item))
}

/// How many stand behind the last item that equals one, among so many at the back.
pub(crate) fn place_from_back(
    items: &VecDeque<CompactBytes>,
    len: usize,
    item: &[u8],
) -> Option<usize>
    requires { len ≤ deque_len items.now }
    ensures place { result ≡ first_place item.now (take len (reverse items.now.items)) }
    ensures within { IfSome result (λ place. place < len) }
{
    for behind in 0..len {
        if matches_behind(items, behind, item) {
            return Some(behind);
        }
    }
    None
}

/// Whether the item in front of so many at the back has these bytes.
fn matches_behind(items: &VecDeque<CompactBytes>, behind: usize, item: &[u8]) -> bool
    requires { behind < deque_len items.now }
    ensures { result ≡ bytes_eq (get_or (reverse items.now.items) behind []) item.now }
{
    matches(&items[items.len() - 1 - behind], item)
}

/// How often an item stands there.
pub(crate) fn count_of(items: &VecDeque<CompactBytes>, item: &[u8]) -> usize
    ensures { result ≡ count_of item.now items.now.items }
{
    items.iter().filter(|other| matches(other, item)).count()
}

/// How often an item stands there, at most so often. It goes from the front, and on no longer than that.
pub(crate) fn count_first(items: &VecDeque<CompactBytes>, most: usize, item: &[u8]) -> usize
    ensures { result ≡ min most (count_of item.now items.now.items) }
{
    items
        .iter()
        .filter(|other| matches(other, item))
        .take(most)
        .count()
}

/// The same from the back.
pub(crate) fn count_last(items: &VecDeque<CompactBytes>, most: usize, item: &[u8]) -> usize
    ensures { result ≡ min most (count_of item.now items.now.items) }
{
    let mut counted = 0;
    for behind in 0..items.len() {
        if counted == most {
            return counted;
        }
        if matches_behind(items, behind, item) {
            counted += 1;
        }
    }
    counted
}

/// Whether the items equal one another.
#[tactic(auto, unfolding(crate::specs::Lists::are_equal))]
pub(crate) fn are_equal(items: &VecDeque<CompactBytes>) -> bool
    ensures { result ≡ are_equal items.now.items }
{
    match items.front() {
        Some(first) => items.iter().all(|other| matches(other, first.as_slice())),
        None => true,
    }
}
