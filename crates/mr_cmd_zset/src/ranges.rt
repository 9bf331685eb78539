// Commands that answer a range of the pairs of a sorted set.
ghost use Rattle.std.specs.Prelude.{◌≡◌, ◌+◌, ◌-◌, ◌≤◌, ℤ, List, ◌++◌, length, map, reverse, slice_range, IfOk, OnOk};
ghost use Rattle.std.specs.List.{flat_map};
ghost use Rattle.mr_map.specs.Bytes.{Bytes};
ghost use Rattle.mr_resp.specs.ReplyView.{view};
ghost use Rattle.mr_zset.specs.Pairs.{lent_pair};
ghost use Rattle.mr_cmd_zset.specs.Ranges.{limited, ordered, pair_replies, pairs_reply, ranked, scored};

use crate::replies::score_bulk;
use mr_bytes::window;
use mr_cmd_shared::bulk;
use mr_resp::Reply;
use mr_zset::{Bound, Pair, ZSet};
use mr_zset_options::{Limit, Order, RangeReply};
use std::alloc::{AllocError, Global};

/// The places of a range, both included, which are counted in this order.
#[derive(Clone, Copy)]
pub struct ByRank {
    pub first: i64,
    pub last: i64,
    pub order: Order,
}

impl ByRank {
    /// The places from the first to the last, counted in this order.
    pub fn new(first: i64, last: i64, order: Order) -> ByRank
        ensures first { result.first ≡ first }
        ensures last { result.last ≡ last }
        ensures order { result.order ≡ order }
    {
        ByRank { first, last, order }
    }
}

/// The bounds of a range of scores, the order in which its pairs stand, and the limit that is put on them then.
#[derive(Clone, Copy)]
pub struct ByScore {
    pub min: Bound,
    pub max: Bound,
    pub order: Order,
    pub limit: Option<Limit>,
}

impl ByScore {
    /// The pairs between two bounds, in this order and with this limit.
    pub fn new(min: Bound, max: Bound, order: Order, limit: Option<Limit>) -> ByScore
        ensures min { result.min ≡ min }
        ensures max { result.max ≡ max }
        ensures order { result.order ≡ order }
        ensures limit { result.limit ≡ limit }
    {
        ByScore {
            min,
            max,
            order,
            limit,
        }
    }
}

/// `ZRANGE` and `ZREVRANGE` by places, which are counted in the order that is asked for.
pub fn by_rank(
    alloc: Global,
    range: ByRank,
    shape: RangeReply,
    set: &ZSet,
) -> Result<Reply, AllocError>
    ensures { IfOk result (λ r.
        view r ≡ pairs_reply shape (ranked range.first range.last range.order set.now)) }
{
    let Some((first, last)) = window(range.first, range.last, set.len()) else {
        return Ok(Reply::Array(Vec::new(alloc)));
    };
    let (start, end) = places_in(range.order, first, last + 1, set.len());
    let pairs = set.by_rank(start, end - 1)?;
    listed(alloc, pairs.as_slice(), range.order, shape)
}

/// `ZRANGE` with `BYSCORE`, `ZRANGEBYSCORE` and `ZREVRANGEBYSCORE`: the pairs within the bounds, put in the order, and of
/// these what the limit leaves. Only what is answered is taken from the set.
pub fn by_score(
    alloc: Global,
    range: ByScore,
    shape: RangeReply,
    set: &ZSet,
) -> Result<Reply, AllocError>
    ensures { IfOk result (λ r.
        view r ≡ pairs_reply shape (scored range.min range.max range.order range.limit set.now)) }
{
    let (first, past) = set.places(range.min, range.max);
    let count = past - first;
    let (start, end) = limited_places(range.limit, count);
    let (start, end) = places_in(range.order, start, end, count);
    let pairs = set.between(first + start, first + end)?;
    listed(alloc, pairs.as_slice(), range.order, shape)
}

/// The places, from the first to one past the last, that a limit leaves of so many.
fn limited_places(limit: Option<Limit>, count: usize) -> (usize, usize)
    ensures ordered { result.0 ≤ result.1 }
    ensures within { result.1 ≤ count }
    ensures same { (pairs : List (Bytes × ℤ)) → length pairs ≡ count →
        slice_range pairs result.0 result.1 ≡ limited limit pairs }
{
    let Some(limit) = limit else {
        return (0, count);
    };
    if limit.offset < 0 {
        return (count, count);
    }
    let start = count.min(limit.offset as usize);
    if limit.count < 0 {
        return (start, count);
    }
    (start, start + (count - start).min(limit.count as usize))
}

/// Places, from the first to one past the last, that are counted in an order, counted from the least pair.
fn places_in(order: Order, start: usize, end: usize, count: usize) -> (usize, usize)
    requires ordered { start ≤ end }
    requires within { end ≤ count }
    ensures as_many { result.0 + (end - start) ≡ result.1 }
    ensures within { result.1 ≤ count }
    ensures same { (pairs : List (Bytes × ℤ)) → length pairs ≡ count →
        ordered order (slice_range pairs result.0 result.1) ≡
        slice_range (ordered order pairs) start end }
{
    match order {
        Order::Ascending => (start, end),
        Order::Descending => (count - end, count - start),
    }
}

/// The answer of pairs that stand from the least on, in an order.
fn listed(
    alloc: Global,
    pairs: &[Pair<'_>],
    order: Order,
    shape: RangeReply,
) -> Result<Reply, AllocError>
    ensures { IfOk result (λ r.
        view r ≡ pairs_reply shape (ordered order (map lent_pair pairs.now))) }
{
    match order {
        Order::Ascending => forward(alloc, pairs, shape),
        Order::Descending => backward(alloc, pairs, shape),
    }
}

/// Pairs answered as they stand.
pub fn forward(alloc: Global, pairs: &[Pair<'_>], shape: RangeReply) -> Result<Reply, AllocError>
    ensures { IfOk result (λ r. view r ≡ pairs_reply shape (map lent_pair pairs.now)) }
{
    let mut replies = Vec::with_capacity(alloc, replies_to(pairs, shape))?;
    for pair in pairs {
        push_pair(alloc, pair, shape, &mut replies)?;
    }
    Ok(Reply::Array(replies))
}

/// The answer of pairs from the last on.
fn backward(alloc: Global, pairs: &[Pair<'_>], shape: RangeReply) -> Result<Reply, AllocError>
    ensures { IfOk result (λ r. view r ≡ pairs_reply shape (reverse (map lent_pair pairs.now))) }
{
    let mut replies = Vec::with_capacity(alloc, replies_to(pairs, shape))?;
    for pair in pairs.iter().rev() {
        push_pair(alloc, pair, shape, &mut replies)?;
    }
    Ok(Reply::Array(replies))
}

/// How many replies pairs are answered by.
#[tactic(auto, using(crate::proofs::RangeLemmas::one_each, crate::proofs::RangeLemmas::two_each))]
fn replies_to(pairs: &[Pair<'_>], shape: RangeReply) -> usize
    ensures { result ≡ length (flat_map (pair_replies shape) (map lent_pair pairs.now)) }
{
    match shape {
        RangeReply::Members => pairs.len(),
        RangeReply::WithScores => 2 * pairs.len(),
    }
}

/// Puts the replies to a pair behind others: its member, and its score where that is asked for.
fn push_pair(
    alloc: Global,
    pair: &Pair<'_>,
    shape: RangeReply,
    replies: &mut Vec<Reply>,
) -> Result<(), AllocError>
    ensures { OnOk result (map view replies.new.items ≡
        map view replies.old.items ++ pair_replies shape (lent_pair pair.now)) }
{
    replies.push(bulk(alloc, pair.member)?)?;
    match shape {
        RangeReply::Members => Ok(()),
        RangeReply::WithScores => {
            replies.push(score_bulk(alloc, pair.score)?)?;
            Ok(())
        }
    }
}
