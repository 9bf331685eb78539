// Commands that take members out.
ghost use Rattle.std.specs.Prelude.{◌≡◌, ◌≢◌, ◌∷◌, ◌++◌, ◌<◌, ◌^◌, ◌≤◌, [], length, map, slice_range, take, IfOk, MatchOption, OnOk, Some};
ghost use Rattle.std.specs.FinMap as finite;
ghost use Rattle.std.specs.FinMap.{keys};
ghost use Rattle.mr_map.specs.Bytes.{lent};
ghost use Rattle.mr_resp.specs.ReplyView.{view};
ghost use Rattle.mr_bytes.specs.Window.{window_of, windowed};
ghost use Rattle.mr_zset.specs.Pairs.{pairs_of, lent_pair};
ghost use Rattle.mr_keyspace.specs.Collections.{without_scores};
ghost use Rattle.mr_effect.specs.declared.effect.Effect.TheVariants as made;
ghost use Rattle.mr_keyspace.specs.Cuts.{cut};
ghost use Rattle.mr_cmd_zset.specs.Scores.{number, pairs_in, lost, Makes};
ghost use Rattle.mr_cmd_zset.specs.Removing.{members_of, zrem, zremrangebyrank, zremrangebyscore, as_set, take_pairs};

use crate::grouping::{push_all, push_lost, push_lost_alone};
use crate::ranges::forward;
use mr_arguments::{Argument, Words};
use mr_bytes::window;
use mr_cmd_shared::{Effects, count};
use mr_resp::Reply;
use mr_zset::{Bound, Pair, ZSet};
use mr_zset_options::{Order, RangeReply};
use std::alloc::{AllocError, Global};

/// `ZREM`, which is answered by how many of the members were there.
pub fn zrem(
    key: &Argument<'_>,
    members: &Words<'_, '_>,
    set: &ZSet,
    effects: &mut Effects,
) -> Result<Reply, AllocError>
    ensures { IfOk result (λ r.
        Makes (zrem key.now members.now set.now) (view r) effects.old effects.new) }
{
    let lost = named_there(effects.alloc(), members, set)?;
    push_lost(key, &lost, effects)?;
    Ok(count(lost.len()))
}

/// The members that are named and there, in byte order, each once. They are not copied.
fn named_there<'a>(
    alloc: Global,
    members: &Words<'a, '_>,
    set: &ZSet,
) -> Result<Vec<&'a [u8]>, AllocError>
    ensures { IfOk result (λ there.
        lent there.items ≡ lost set.now (without_scores members.now set.now)) }
{
    let mut there = Vec::new(alloc);
    for word in members.as_slice() {
        let member = word.as_slice();
        if set.score(member).is_some() {
            there.push(member)?;
        }
    }
    Ok(in_byte_order(there))
}

/// These members in byte order, each once. It takes no memory.
fn in_byte_order(mut members: Vec<&[u8]>) -> Vec<&[u8]>
    ensures { lent result.items ≡ keys (as_set (lent members.entry.items)) }
{
    members.sort_unstable();
    members.dedup();
    members
}

/// `ZREMRANGEBYRANK`: the pairs between two indexes go, both included. One alone takes no memory but that of its effect.
pub fn zremrangebyrank(
    key: &Argument<'_>,
    first: i64,
    last: i64,
    set: &ZSet,
    effects: &mut Effects,
) -> Result<Reply, AllocError>
    ensures { IfOk result (λ r.
        Makes (zremrangebyrank key.now first last set.now) (view r) effects.old effects.new) }
{
    if let Some(pair) = only_pair(set, first, last) {
        push_lost_alone(key, pair.member, effects)?;
        return Ok(count(1));
    }
    let (first, past) = places_at(set, first, last);
    let reply = remove_places(key, first, past, set, effects)?;
    Ok(reply)
}

/// The pair between two indexes, both included, if it is the only one.
fn only_pair(set: &ZSet, first: i64, last: i64) -> Option<Pair<'_>>
    ensures { MatchOption result
        (length (windowed (window_of first last (finite.len set.now)) (pairs_of set.now)) ≢
        1) (λ pair.
        windowed (window_of first last (finite.len set.now)) (pairs_of set.now) ≡
        lent_pair pair ∷ []) }
{
    match window(first, last, set.len()) {
        Some((first, last)) if first == last => set.nth(first),
        _ => None,
    }
}

/// The places of the pairs between two indexes, both included: that of the first, and the one behind the last.
fn places_at(set: &ZSet, first: i64, last: i64) -> (usize, usize)
    ensures ordered { result.0 ≤ result.1 }
    ensures within { result.1 ≤ finite.len set.now }
    ensures range { windowed (window_of first last (finite.len set.now)) (pairs_of set.now) ≡
        slice_range (pairs_of set.now) result.0 result.1 }
{
    match window(first, last, set.len()) {
        Some((first, last)) => (first, last + 1),
        None => (0, 0),
    }
}

/// `ZREMRANGEBYSCORE`
pub fn zremrangebyscore(
    key: &Argument<'_>,
    min: Bound,
    max: Bound,
    set: &ZSet,
    effects: &mut Effects,
) -> Result<Reply, AllocError>
    ensures { IfOk result (λ r.
        Makes (zremrangebyscore key.now min max set.now) (view r) effects.old effects.new) }
{
    let (first, past) = set.places(min, max);
    let reply = remove_places(key, first, past, set, effects)?;
    Ok(reply)
}

/// Puts the effects that take the pairs from one place to another out, the second left out, and answers how many these
/// are. Where they are all pairs of the set, no memory is taken but that of the effects.
fn remove_places(
    key: &Argument<'_>,
    first: usize,
    past: usize,
    set: &ZSet,
    effects: &mut Effects,
) -> Result<Reply, AllocError>
    requires ordered { first ≤ past }
    requires within { past ≤ finite.len set.now }
    ensures reply { IfOk result (λ r.
        view r ≡ number
        (finite.len (as_set (members_of (slice_range (pairs_of set.now) first past))))) }
    ensures effects { OnOk result (effects.new ≡
        effects.old ++
        map (made.RemoveScores key.now)
        (cut (keys (as_set (members_of (slice_range (pairs_of set.now) first past)))))) }
{
    if past - first == set.len() {
        push_all(key, set, effects)?;
        return Ok(count(set.len()));
    }
    let pairs = set.between(first, past)?;
    remove_pairs(key, &pairs, effects)
}

/// Puts the effects that take the members of pairs out, and answers how many these are.
fn remove_pairs(
    key: &Argument<'_>,
    pairs: &[Pair<'_>],
    effects: &mut Effects,
) -> Result<Reply, AllocError>
    ensures reply { IfOk result (λ r.
        view r ≡ number (finite.len (as_set (members_of (map lent_pair pairs.now))))) }
    ensures effects { OnOk result (effects.new ≡
        effects.old ++
        map (made.RemoveScores key.now)
        (cut (keys (as_set (members_of (map lent_pair pairs.now)))))) }
{
    let removed = push_members(key, pairs, effects)?;
    Ok(count(removed))
}

/// Puts the effects that take the members of pairs out, and says how many these are.
fn push_members(
    key: &Argument<'_>,
    pairs: &[Pair<'_>],
    effects: &mut Effects,
) -> Result<usize, AllocError>
    ensures removed { IfOk result (λ n.
        n ≡ finite.len (as_set (members_of (map lent_pair pairs.now)))) }
    ensures small { IfOk result (λ n. n < 2 ^ 63) }
    ensures effects { OnOk result (effects.new ≡
        effects.old ++
        map (made.RemoveScores key.now)
        (cut (keys (as_set (members_of (map lent_pair pairs.now)))))) }
{
    if let [pair] = pairs {
        // one member needs no order
        push_lost_alone(key, pair.member, effects)?;
        return Ok(1);
    }
    let lost = members_of(effects.alloc(), pairs)?;
    push_lost(key, &lost, effects)?;
    Ok(lost.len())
}

/// The members of pairs in byte order, each once. They are not copied.
fn members_of<'d>(alloc: Global, pairs: &[Pair<'d>]) -> Result<Vec<&'d [u8]>, AllocError>
    ensures { IfOk result (λ members.
        lent members.items ≡ keys (as_set (members_of (map lent_pair pairs.now)))) }
{
    let mut members = Vec::with_capacity(alloc, pairs.len())?;
    for pair in pairs {
        members.push(pair.member)?;
    }
    Ok(in_byte_order(members))
}

/// `ZPOPMIN`, `ZPOPMAX`
pub fn take_pairs(
    key: &Argument<'_>,
    order: Order,
    count: Option<usize>,
    set: &ZSet,
    effects: &mut Effects,
) -> Result<Reply, AllocError>
    ensures { IfOk result (λ r.
        Makes (take_pairs key.now order count set.now) (view r) effects.old effects.new) }
{
    take_from(key, order, count.unwrap_or(1), set, effects)
}

/// What `ZPOPMIN` and `ZPOPMAX` on a set are answered: the first pairs in the order, at most so many, which go.
fn take_from(
    key: &Argument<'_>,
    order: Order,
    count: usize,
    set: &ZSet,
    effects: &mut Effects,
) -> Result<Reply, AllocError>
    ensures { IfOk result (λ r.
        Makes (take_pairs key.now order (Some count) set.now) (view r) effects.old effects.new) }
{
    let alloc = effects.alloc();
    let pairs = first_pairs(alloc, order, count, set)?;
    if pairs.len() == set.len() {
        push_all(key, set, effects)?;
    } else {
        push_members(key, &pairs, effects)?;
    }
    let reply = forward(alloc, &pairs, RangeReply::WithScores)?;
    Ok(reply)
}

/// The first pairs in this order, at most so many.
fn first_pairs(
    alloc: Global,
    order: Order,
    count: usize,
    set: &ZSet,
) -> Result<Vec<Pair<'_>>, AllocError>
    ensures { IfOk result (λ pairs.
        map lent_pair pairs.items ≡ take count (pairs_in order set.now)) }
{
    let len = set.len();
    let count = count.min(len);
    if count == 0 {
        return Ok(Vec::new(alloc));
    }
    match order {
        Order::Ascending => {
            let pairs = set.by_rank(0, count - 1)?;
            Ok(pairs)
        }
        Order::Descending => {
            let mut pairs = set.by_rank(len - count, len - 1)?;
            pairs.reverse();
            Ok(pairs)
        }
    }
}
