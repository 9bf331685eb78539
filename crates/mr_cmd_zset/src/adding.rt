// Commands that set scores.
ghost use Rattle.std.specs.Prelude.{◌≡◌, ◌≢◌, ◌<◌, ◌^◌, ◌+ℤ◌, [], ◌∷◌, length, IfOk, IfSome, IfNone, OnOk};
ghost use Rattle.std.specs.FinMap.{get};
ghost use Rattle.mr_resp.specs.ReplyView.{view};
ghost use Rattle.mr_score.specs.Texts.{within_limit};
ghost use Rattle.mr_cmd_zset.specs.Scores.{over, Makes};
ghost use Rattle.mr_cmd_zset.specs.Adding.{is_counted, score_after, with_pair, with_pairs, count_pairs, zadd, score_or_0, zincrby};

use crate::grouping::{push_changed, push_changed_alone};
use crate::replies::{out_of_range, score_bulk};
use crate::rules::Rules;
use mr_arguments::Argument;
use mr_cmd_shared::{Effects, count};
use mr_map::SliceMap;
use mr_resp::Reply;
use mr_score::is_score;
use mr_zset::{Pair, ZSet};
use mr_zset_options::ScoredMembers;
use std::alloc::{AllocError, Global};

/// `ZADD`
pub fn zadd(
    key: &Argument<'_>,
    rules: Rules,
    pairs: &ScoredMembers<'_, '_>,
    set: &ZSet,
    effects: &mut Effects,
) -> Result<Reply, AllocError>
    ensures { IfOk result (λ r.
        Makes (zadd rules.condition rules.comparison key.now rules.reply pairs.now set.now) (view r)
        effects.old effects.new) }
{
    if let Some(pair) = only_pair(pairs) {
        let reply = add_one(key, rules, pair, set, effects)?;
        return Ok(reply);
    }
    let (scores, counted) = put_pairs(effects.alloc(), rules, pairs, set)?;
    push_changed(key, &scores, set, effects)?;
    Ok(count(counted))
}

/// The score with its member, where pairs are one alone.
fn only_pair<'a>(pairs: &ScoredMembers<'a, '_>) -> Option<Pair<'a>>
    ensures one { IfSome result (λ p. pairs.now ≡ (p.score, p.member.now) ∷ []) }
    ensures other { IfNone result (length pairs.now ≢ 1) }
    ensures small { length pairs.now < 2 ^ 63 }
{
    if pairs.len() != 1 {
        return None;
    }
    let (score, member) = pairs.iter().next()?;
    Some(Pair { score, member })
}

/// What `ZADD` of one pair is answered, without putting members in order. Its effect is put behind those that are
/// there.
fn add_one(
    key: &Argument<'_>,
    rules: Rules,
    pair: Pair<'_>,
    set: &ZSet,
    effects: &mut Effects,
) -> Result<Reply, AllocError>
    ensures { IfOk result (λ r.
        Makes (zadd rules.condition rules.comparison key.now rules.reply
        ((pair.entry.score, pair.entry.member.now) ∷ []) set.now) (view r) effects.old
        effects.new) }
{
    let before = set.score(pair.member);
    let after = rules.score_after(before, pair.score);
    push_changed_alone(key, pair.member, before, after, effects)?;
    Ok(count(usize::from(rules.counts(before, after))))
}

/// The scores that pairs set, one after another, and how many of them are counted. The members are not copied.
fn put_pairs<'a>(
    alloc: Global,
    rules: Rules,
    pairs: &ScoredMembers<'a, '_>,
    set: &ZSet,
) -> Result<(SliceMap<'a, i64>, usize), AllocError>
    requires { length pairs.now < 2 ^ 63 }
    ensures scores { IfOk result (λ r.
        over r.0 set.now ≡ with_pairs rules.condition rules.comparison pairs.now set.now) }
    ensures count { IfOk result (λ r.
        r.1 ≡ count_pairs rules.condition rules.comparison rules.reply pairs.now set.now) }
    ensures small { IfOk result (λ r. r.1 < 2 ^ 63) }
{
    let mut scores = SliceMap::new(alloc);
    let mut counted = 0;
    for (score, member) in pairs.iter() {
        let counts = put_pair(rules, score, member, set, &mut scores)?;
        counted += usize::from(counts);
    }
    Ok((scores, counted))
}

/// Puts a pair to the scores that were set so far, and says whether it is counted.
fn put_pair<'a>(
    rules: Rules,
    score: i64,
    member: &'a [u8],
    set: &ZSet,
    scores: &mut SliceMap<'a, i64>,
) -> Result<bool, AllocError>
    ensures counts { IfOk result (λ counts.
        counts ≡ is_counted rules.reply (get (over scores.old set.now) member.now)
        (score_after rules.condition rules.comparison (get (over scores.old set.now) member.now)
        score)) }
    ensures put { OnOk result (over scores.new set.now ≡
        with_pair rules.condition rules.comparison (score, member.now) (over scores.old set.now)) }
{
    let before = score_so_far(scores, set, member);
    if rules.sets(before, score) {
        scores.insert(member, score)?;
    }
    Ok(rules.counts(before, rules.score_after(before, score)))
}

/// The score that was set last, or that a set has.
fn score_so_far(scores: &SliceMap<'_, i64>, set: &ZSet, member: &[u8]) -> Option<i64>
    ensures { result ≡ get (over scores.now set.now) member.now }
{
    match scores.get(member).copied() {
        Some(score) => Some(score),
        None => set.score(member),
    }
}

/// `ZINCRBY`, which is answered by the sum, or by a refusal where it is no score.
pub fn zincrby(
    key: &Argument<'_>,
    by: i64,
    member: &[u8],
    set: &ZSet,
    effects: &mut Effects,
) -> Result<Reply, AllocError>
    ensures { IfOk result (λ r.
        Makes (zincrby key.now by member.now set.now) (view r) effects.old effects.new) }
{
    let before = set.score(member);
    let Some(score) = increased(before, by) else {
        return Ok(out_of_range());
    };
    push_changed_alone(key, member, before, Some(score), effects)?;
    let reply = score_bulk(effects.alloc(), score)?;
    Ok(reply)
}

/// The sum of a member's score and this much, if it is a score. A member that isn't there counts as 0.
fn increased(before: Option<i64>, by: i64) -> Option<i64>
    ensures { result ≡ within_limit (score_or_0 before +ℤ by) }
{
    let sum = before.unwrap_or(0).checked_add(by)?;
    if is_score(sum) { Some(sum) } else { None }
}
