// Commands that tell of the members of a sorted set.
ghost use Rattle.std.specs.Prelude.{◌≡◌, ◌<◌, length, IfOk};
ghost use Rattle.std.specs.FinMap.{len};
ghost use Rattle.mr_resp.specs.ReplyView.{view};
ghost use Rattle.mr_zset.specs.Pairs.{range_of};
ghost use Rattle.mr_cmd_zset.specs.Scores.{number};
ghost use Rattle.mr_cmd_zset.specs.Telling.{counted_from, found_score, found_scores, place_of, place_reply, score_or_nil};

use crate::replies::score_bulk;
use mr_arguments::{Argument, Words};
use mr_cmd_shared::count;
use mr_resp::Reply;
use mr_zset::{Bound, ZSet};
use mr_zset_options::Order;
use std::alloc::{AllocError, Global};

/// `ZCARD`
pub fn zcard(set: &ZSet) -> Reply
    ensures { view result ≡ number (len set.now) }
{
    count(set.len())
}

/// `ZCOUNT`
pub fn zcount(min: Bound, max: Bound, set: &ZSet) -> Reply
    ensures { view result ≡ number (length (range_of min max set.now)) }
{
    count(set.count(min, max))
}

/// `ZSCORE`
pub fn zscore(alloc: Global, member: &Argument<'_>, set: &ZSet) -> Result<Reply, AllocError>
    ensures { IfOk result (λ r. view r ≡ found_score set.now member.now) }
{
    score_or_nil(alloc, set.score(member.as_slice()))
}

/// `ZMSCORE`: the score of each of the words, in their order, or nil where it is no member.
pub fn zmscore(alloc: Global, members: &Words<'_, '_>, set: &ZSet) -> Result<Reply, AllocError>
    ensures { IfOk result (λ r. view r ≡ found_scores members.now set.now) }
{
    let words = members.as_slice();
    let mut replies = Vec::with_capacity(alloc, words.len())?;
    for word in words {
        replies.push(score_or_nil(alloc, set.score(word.as_slice()))?)?;
    }
    Ok(Reply::Array(replies))
}

/// The answer of a score, or nil.
fn score_or_nil(alloc: Global, score: Option<i64>) -> Result<Reply, AllocError>
    ensures { IfOk result (λ r. view r ≡ score_or_nil score) }
{
    match score {
        Some(score) => score_bulk(alloc, score),
        None => Ok(Reply::NullBulk),
    }
}

/// `ZRANK`, `ZREVRANK`
pub fn rank(order: Order, member: &Argument<'_>, set: &ZSet) -> Reply
    ensures { view result ≡ place_reply (place_of order member.now set.now) }
{
    match set.rank(member.as_slice()) {
        Some(rank) => count(counted_from(order, set.len(), rank)),
        None => Reply::NullBulk,
    }
}

/// A place of so many, counted from the least pair, as it is counted in an order.
fn counted_from(order: Order, count: usize, place: usize) -> usize
    requires { place < count }
    ensures place { result ≡ counted_from order count place }
    ensures within { result < count }
{
    match order {
        Order::Ascending => place,
        Order::Descending => count - 1 - place,
    }
}
