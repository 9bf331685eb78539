// The items of a queue that equal one, removed.
ghost use Rattle.std.specs.Prelude.{◌≡◌, ◌≤◌, ◌-◌, ◌++◌, drop, min, take};
ghost use Rattle.std.specs.VecDeque.{deque_len};
ghost use Rattle.mr_value.specs.Lists.{count_of, removed_count, without, without_first, without_last};

use crate::compact_bytes::CompactBytes;
use crate::matching::{place_from_back, place_in_front};
use std::collections::VecDeque;

/// Removes items that equal `item`, and answers how many: up to `count` of them from the front on, for a negative count
/// up to as many from the back on, and all of them for 0.
#[tactic(auto, using(crate::proofs::Removals::all_go))]
pub(crate) fn remove_matching(items: &mut VecDeque<CompactBytes>, count: i64, item: &[u8]) -> usize
    ensures list { items.new.items ≡ without count item.now items.old.items }
    ensures removed { result ≡ removed_count count (count_of item.now items.old.items) }
{
    let most = count.unsigned_abs() as usize;
    if count < 0 {
        return remove_last(items, most, item);
    }
    if count == 0 {
        let all = items.len();
        return remove_first(items, all, item);
    }
    remove_first(items, most, item)
}

/// Removes the first items that equal `item`, at most so many, and answers how many. It looks no further than the last
/// of them, and moves what lies in front of that or what lies behind it, whichever is less.
fn remove_first(items: &mut VecDeque<CompactBytes>, most: usize, item: &[u8]) -> usize
    ensures list { items.new.items ≡ without_first most item.now items.old.items }
    ensures removed { result ≡ min most (count_of item.now items.old.items) }
{
    let (passed, removed) = pass_first(items, most, item);
    items.rotate_right(passed);
    removed
}

/// Removes the first items that equal `item`, at most so many, but leaves the items in front of the last of them behind
/// the others. How many those are, and how many went.
fn pass_first(items: &mut VecDeque<CompactBytes>, most: usize, item: &[u8]) -> (usize, usize)
    ensures passed { result.0 ≤ deque_len items.new }
    ensures list { drop (deque_len items.new - result.0) items.new.items ++
        take (deque_len items.new - result.0) items.new.items ≡
        without_first most item.now items.old.items }
    ensures removed { result.1 ≡ min most (count_of item.now items.old.items) }
{
    let mut passed = 0;
    for removed in 0..most {
        let Some(place) = place_in_front(items, items.len() - passed, item) else {
            return (passed, removed);
        };
        items.rotate_left(place);
        let _ = items.pop_front();
        passed += place;
    }
    (passed, most)
}

/// Removes the last items that equal `item`, at most so many, and answers how many. It looks and moves as little as
/// `remove_first`, from the other side.
fn remove_last(items: &mut VecDeque<CompactBytes>, most: usize, item: &[u8]) -> usize
    ensures list { items.new.items ≡ without_last most item.now items.old.items }
    ensures removed { result ≡ min most (count_of item.now items.old.items) }
{
    let (passed, removed) = pass_last(items, most, item);
    items.rotate_left(passed);
    removed
}

/// Removes the last items that equal `item`, at most so many, but leaves the items behind the first of them in front of
/// the others. How many those are, and how many went.
fn pass_last(items: &mut VecDeque<CompactBytes>, most: usize, item: &[u8]) -> (usize, usize)
    ensures passed { result.0 ≤ deque_len items.new }
    ensures list { drop result.0 items.new.items ++ take result.0 items.new.items ≡
        without_last most item.now items.old.items }
    ensures removed { result.1 ≡ min most (count_of item.now items.old.items) }
{
    let mut passed = 0;
    for removed in 0..most {
        let Some(behind) = place_from_back(items, items.len() - passed, item) else {
            return (passed, removed);
        };
        items.rotate_right(behind);
        let _ = items.pop_back();
        passed += behind;
    }
    (passed, most)
}
