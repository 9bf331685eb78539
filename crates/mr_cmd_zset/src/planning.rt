// The plan of a command.
ghost use Rattle.std.specs.Prelude.{◌≡◌, IsTrue, IfOk};
ghost use Rattle.std.specs.List.{list_all};
ghost use Rattle.mr_bytes.specs.Words.{fits};
ghost use Rattle.mr_resp.specs.ReplyView.{view};
ghost use Rattle.mr_data.specs.Dataset.{IsDataset};
ghost use Rattle.mr_cmd_zset.specs.Carried.{zset_words};
ghost use Rattle.mr_cmd_shared.specs.Commands.{IsPlan, IsFaithful, HasCommandTexts};
ghost use Rattle.mr_cmd_zset.specs.Commands.{key_of, change, command, HasScores};
ghost use Rattle.mr_cmd_zset.specs.Scores.{Makes};

use crate::ranges::{ByRank, ByScore};
use crate::replies::set_at;
use crate::rules::Rules;
use crate::zset_ask::ZSetAsk;
use crate::{adding, ranges, removing, telling};
use mr_arguments::Argument;
use mr_cmd_shared::{Effects, look, wrong_kind};
use mr_data::{Dataset, Given, Plan};
use mr_resp::Reply;
use mr_zset::ZSet;
use std::alloc::{AllocError, Global};

/// What a command on sorted sets is answered, and its effects. The dataset isn't changed, and the plan owns what it holds.
pub fn plan(
    alloc: Global,
    held: &Dataset,
    ask: &ZSetAsk<'_, '_>,
    given: Given,
) -> Result<Plan, AllocError>
    ensures plan { IfOk result (λ p.
        IsPlan (command ask.now) given.now held.now (view p.reply) p.effects.items) }

    // The effects lead to what the command leaves, and its own ones are there exactly where it changes something.
    ensures faithful { IsTrue (list_all fits (zset_words ask.now)) →
        IsFaithful (command ask.now) given.now held.now }

    // .. and their texts are command texts.
    ensures texts { IsTrue (list_all fits (zset_words ask.now)) →
        HasCommandTexts (command ask.now) given.now held.now }
{
    scores_are_limited(ask);
    planned(alloc, held, ask, given)
}

/// Each score that a command sets was read from its text, so it is within the limits of scores.
fn scores_are_limited(ask: &ZSetAsk<'_, '_>)
    ensures { HasScores ask.now }
{
    if let ZSetAsk::ZAdd { pairs, .. } = ask {
        let _scores = pairs.iter();
    }
}

/// What a command is answered, and its effects. What the dataset keeps is known from here on.
fn planned(
    alloc: Global,
    held: &Dataset,
    ask: &ZSetAsk<'_, '_>,
    given: Given,
) -> Result<Plan, AllocError>
    ensures plan { IfOk result (λ p.
        IsPlan (command ask.now) given.now held.now (view p.reply) p.effects.items) }
    ensures kept { IsDataset held.now }
{
    let mut effects = Effects::new(alloc);
    let live_entry = look(held, key_of(ask), given, &mut effects)?;
    let empty = ZSet::new(alloc);
    let Some(set) = set_at(live_entry, &empty) else {
        return Ok(effects.into_plan(wrong_kind()));
    };
    let reply = change(ask, set, &mut effects)?;
    Ok(effects.into_plan(reply))
}

/// The key that a command names.
fn key_of<'c, 'a>(ask: &'c ZSetAsk<'a, '_>) -> &'c Argument<'a>
    ensures { result.now ≡ key_of ask.now }
{
    match ask {
        ZSetAsk::ZAdd { key, .. } => key,
        ZSetAsk::ZIncrBy { key, .. } => key,
        ZSetAsk::ZRem { key, .. } => key,
        ZSetAsk::ZCard { key } => key,
        ZSetAsk::ZCount { key, .. } => key,
        ZSetAsk::ZScore { key, .. } => key,
        ZSetAsk::ZMScore { key, .. } => key,
        ZSetAsk::GetRank { key, .. } => key,
        ZSetAsk::RangeByRank { key, .. } => key,
        ZSetAsk::RangeByScore { key, .. } => key,
        ZSetAsk::TakePairs { key, .. } => key,
        ZSetAsk::ZRemRangeByRank { key, .. } => key,
        ZSetAsk::ZRemRangeByScore { key, .. } => key,
    }
}

/// What a command on a sorted set is answered. Its effects are put behind those that are there.
fn change(ask: &ZSetAsk<'_, '_>, set: &ZSet, effects: &mut Effects) -> Result<Reply, AllocError>
    ensures { IfOk result (λ r. Makes (change ask.now set.now) (view r) effects.old effects.new) }
{
    let alloc = effects.alloc();
    match ask {
        ZSetAsk::ZAdd {
            key,
            condition,
            comparison,
            reply,
            pairs,
        } => {
            let rules = Rules::new(*condition, *comparison, *reply);
            adding::zadd(key, rules, pairs, set, effects)
        }
        ZSetAsk::ZIncrBy { key, by, member } => {
            adding::zincrby(key, *by, member.as_slice(), set, effects)
        }
        ZSetAsk::ZRem { key, members } => removing::zrem(key, members, set, effects),
        ZSetAsk::TakePairs { key, order, count } => {
            removing::take_pairs(key, *order, *count, set, effects)
        }
        ZSetAsk::ZRemRangeByRank { key, first, last } => {
            removing::zremrangebyrank(key, *first, *last, set, effects)
        }
        ZSetAsk::ZRemRangeByScore { key, min, max } => {
            removing::zremrangebyscore(key, *min, *max, set, effects)
        }
        ZSetAsk::ZCard { key: _ } => Ok(telling::zcard(set)),
        ZSetAsk::ZCount { key: _, min, max } => { Ok(telling::zcount(*min, *max, set)) }
        ZSetAsk::ZScore { key: _, member } => telling::zscore(alloc, member, set),
        ZSetAsk::ZMScore { key: _, members } => telling::zmscore(alloc, members, set),
        ZSetAsk::GetRank {
            key: _,
            member,
            order,
        } => Ok(telling::rank(*order, member, set)),
        ZSetAsk::RangeByRank {
            key: _,
            first,
            last,
            order,
            reply,
        } => ranges::by_rank(alloc, ByRank::new(*first, *last, *order), *reply, set),
        ZSetAsk::RangeByScore {
            key: _,
            min,
            max,
            order,
            limit,
            reply,
        } => ranges::by_score(alloc, ByScore::new(*min, *max, *order, *limit), *reply, set),
    }
}
