// Commands on sorted sets from the words behind their names.
ghost use Rattle.std.specs.Prelude.{◌≡◌, map};
ghost use Rattle.std.specs.Cow.{cow_slice_items};
ghost use Rattle.mr_cmd_zset.specs.Arguments.{add_scores, range_by_score, score_pairs, zadd, zcard, zcount, zincrby, zmscore, zpop, zrange, zrank, zrem, zremrangebyrank, zremrangebyscore, zrevrange, zscore, ranks, scores};

use crate::zset_ask::ZSetAsk;
use mr_arguments::{Argument, Arguments, AskFault, Name, WordPairs, Words, count, integer};
use mr_zset_options::{
    AddOptions, Order, RangeBy, RangeOptions, RangeReply, ScoredMembers, bounds, cut_options,
    limit_if_any, score,
};
use std::borrow::CowSlice;

type Reading<'a, 't> = Result<ZSetAsk<'a, 't>, AskFault>;

/// `ZADD key [NX|XX] [GT|LT] [CH] score member [score member ..]`
///
/// # Errors
///
/// The first of these that is so: there are fewer than three words; an option stands twice, or beside one that it excludes, or the pairs are
/// none or cut; a score can't be read.
pub fn zadd<'a, 't>(arguments: Arguments<'a, 't>) -> Reading<'a, 't>
    ensures { result ≡ zadd (map cow_slice_items arguments.now) }
{
    match arguments {
        [] | [_] | [_, _] => Err(AskFault::Arity(Name::ZAdd)),
        [key, words @ ..] => add_scores(key, words),
    }
}

/// `ZADD` with these words behind its key. It is the fault of the options, or else that of the pairs, where they have
/// one.
#[tactic(auto, unfolding(crate::specs::Arguments::add_scores))]
fn add_scores<'a, 't>(key: &'a CowSlice<'t, u8>, words: Arguments<'a, 't>) -> Reading<'a, 't>
    ensures { result ≡ add_scores (cow_slice_items key.now) (map cow_slice_items words.now) }
{
    let (options, pairs) = cut_options(words);
    let options = AddOptions::read(options)?;
    Ok(ZSetAsk::ZAdd {
        key: Argument::of(key),
        condition: options.condition,
        comparison: options.comparison,
        reply: options.reply,
        pairs: score_pairs(pairs)?,
    })
}

/// At least one score with its member. It is a syntax fault where there is none or a score is left over, and another
/// where a score can't be read.
fn score_pairs<'a, 't>(words: Arguments<'a, 't>) -> Result<ScoredMembers<'a, 't>, AskFault>
    ensures { result ≡ score_pairs (map cow_slice_items words.now) }
{
    if words.is_empty() {
        return Err(AskFault::Syntax);
    }
    let pairs = WordPairs::of(words).ok_or(AskFault::Syntax)?;
    ScoredMembers::of(pairs).ok_or(AskFault::Integer)
}

/// `ZINCRBY key by member`
///
/// # Errors
///
/// There are not three words, or the second is no score.
pub fn zincrby<'a, 't>(arguments: Arguments<'a, 't>) -> Reading<'a, 't>
    ensures { result ≡ zincrby (map cow_slice_items arguments.now) }
{
    match arguments {
        [key, by, member] => Ok(ZSetAsk::ZIncrBy {
            key: Argument::of(key),
            by: score(by)?,
            member: Argument::of(member),
        }),
        _ => Err(AskFault::Arity(Name::ZIncrBy)),
    }
}

/// `ZREM key member [member ..]`
///
/// # Errors
///
/// There are fewer than two words.
pub fn zrem<'a, 't>(arguments: Arguments<'a, 't>) -> Reading<'a, 't>
    ensures { result ≡ zrem (map cow_slice_items arguments.now) }
{
    match arguments {
        [] | [_] => Err(AskFault::Arity(Name::ZRem)),
        [key, members @ ..] => Ok(ZSetAsk::ZRem {
            key: Argument::of(key),
            members: Words::new(members),
        }),
    }
}

/// `ZCARD key`
///
/// # Errors
///
/// There is not one word.
pub fn zcard<'a, 't>(arguments: Arguments<'a, 't>) -> Reading<'a, 't>
    ensures { result ≡ zcard (map cow_slice_items arguments.now) }
{
    match arguments {
        [key] => Ok(ZSetAsk::ZCard {
            key: Argument::of(key),
        }),
        _ => Err(AskFault::Arity(Name::ZCard)),
    }
}

/// `ZCOUNT key min max`
///
/// # Errors
///
/// There are not three words, or the second or third is no bound on scores.
pub fn zcount<'a, 't>(arguments: Arguments<'a, 't>) -> Reading<'a, 't>
    ensures { result ≡ zcount (map cow_slice_items arguments.now) }
{
    match arguments {
        [key, min, max] => {
            let (min, max) = bounds(Order::Ascending, min, max)?;
            Ok(ZSetAsk::ZCount {
                key: Argument::of(key),
                min,
                max,
            })
        }
        _ => Err(AskFault::Arity(Name::ZCount)),
    }
}

/// `ZSCORE key member`
///
/// # Errors
///
/// There are not two words.
pub fn zscore<'a, 't>(arguments: Arguments<'a, 't>) -> Reading<'a, 't>
    ensures { result ≡ zscore (map cow_slice_items arguments.now) }
{
    match arguments {
        [key, member] => Ok(ZSetAsk::ZScore {
            key: Argument::of(key),
            member: Argument::of(member),
        }),
        _ => Err(AskFault::Arity(Name::ZScore)),
    }
}

/// `ZMSCORE key member [member ..]`
///
/// # Errors
///
/// There are fewer than two words.
pub fn zmscore<'a, 't>(arguments: Arguments<'a, 't>) -> Reading<'a, 't>
    ensures { result ≡ zmscore (map cow_slice_items arguments.now) }
{
    match arguments {
        [] | [_] => Err(AskFault::Arity(Name::ZMScore)),
        [key, members @ ..] => Ok(ZSetAsk::ZMScore {
            key: Argument::of(key),
            members: Words::new(members),
        }),
    }
}

/// `ZRANK key member` in ascending order, `ZREVRANK` in descending order
///
/// # Errors
///
/// There are not two words.
pub fn zrank<'a, 't>(name: Name, order: Order, arguments: Arguments<'a, 't>) -> Reading<'a, 't>
    ensures { result ≡ zrank name order (map cow_slice_items arguments.now) }
{
    match arguments {
        [key, member] => Ok(ZSetAsk::GetRank {
            key: Argument::of(key),
            member: Argument::of(member),
            order,
        }),
        _ => Err(AskFault::Arity(name)),
    }
}

/// `ZRANGE key first last [REV] [WITHSCORES]`, and with bounds on scores
/// `ZRANGE key min max BYSCORE [REV] [LIMIT offset count] [WITHSCORES]`
///
/// # Errors
///
/// The first of these that is so: there are fewer than three words; a word behind them is no option, or one that stands twice, or `LIMIT` without
/// `BYSCORE`; what should be a whole number is none; what should be a bound is none.
pub fn zrange<'a, 't>(arguments: Arguments<'a, 't>) -> Reading<'a, 't>
    ensures { result ≡ zrange (map cow_slice_items arguments.now) }
{
    match arguments {
        [key, first, second, words @ ..] => {
            let options = RangeOptions::read(words)?;
            match options.by {
                RangeBy::Rank if options.limit.is_some() => Err(AskFault::Syntax),
                RangeBy::Rank => ranks(key, first, second, options.order, options.reply),
                RangeBy::Score => scores(key, first, second, &options),
            }
        }
        _ => Err(AskFault::Arity(Name::ZRange)),
    }
}

/// `ZREVRANGE key first last [WITHSCORES]`
///
/// # Errors
///
/// The first of these that is so: there are fewer than three words; a word behind them is another option, or stands twice; the second or third is no
/// whole number.
pub fn zrevrange<'a, 't>(arguments: Arguments<'a, 't>) -> Reading<'a, 't>
    ensures { result ≡ zrevrange (map cow_slice_items arguments.now) }
{
    match arguments {
        [key, first, last, words @ ..] => match RangeOptions::read(words)? {
            RangeOptions {
                by: RangeBy::Rank,
                order: Order::Ascending,
                limit: None,
                reply,
            } => ranks(key, first, last, Order::Descending, reply),
            _ => Err(AskFault::Syntax),
        },
        _ => Err(AskFault::Arity(Name::ZRevRange)),
    }
}

/// `ZRANGEBYSCORE key min max [WITHSCORES] [LIMIT offset count]` in ascending order, `ZREVRANGEBYSCORE key max min ..` in descending order
///
/// # Errors
///
/// The first of these that is so: there are fewer than three words; a word behind them is another option, or stands twice; a word behind `LIMIT` is
/// no whole number; the second or third is no bound on scores.
pub fn range_by_score<'a, 't>(
    name: Name,
    order: Order,
    arguments: Arguments<'a, 't>,
) -> Reading<'a, 't>
    ensures { result ≡ range_by_score name order (map cow_slice_items arguments.now) }
{
    match arguments {
        [key, first, second, words @ ..] => match RangeOptions::read(words)? {
            RangeOptions {
                by: RangeBy::Rank,
                order: Order::Ascending,
                limit,
                reply,
            } => {
                let by_score = RangeOptions {
                    by: RangeBy::Score,
                    order,
                    limit,
                    reply,
                };
                scores(key, first, second, &by_score)
            }
            _ => Err(AskFault::Syntax),
        },
        _ => Err(AskFault::Arity(name)),
    }
}

/// A range by ranks. It is a fault where the first or the last is no whole number.
fn ranks<'a, 't>(
    key: &'a CowSlice<'t, u8>,
    first: &CowSlice<'_, u8>,
    last: &CowSlice<'_, u8>,
    order: Order,
    reply: RangeReply,
) -> Reading<'a, 't>
    ensures { result ≡
        ranks (cow_slice_items key.now) (cow_slice_items first.now) (cow_slice_items last.now) order
        reply }
{
    Ok(ZSetAsk::RangeByRank {
        key: Argument::of(key),
        first: integer(first)?,
        last: integer(last)?,
        order,
        reply,
    })
}

/// A range by scores, in the order of these options, with their limit and reply. It is a fault where a word of the limit
/// is no whole number, or else where a bound is none.
fn scores<'a, 't>(
    key: &'a CowSlice<'t, u8>,
    first: &CowSlice<'_, u8>,
    second: &CowSlice<'_, u8>,
    options: &RangeOptions<'_>,
) -> Reading<'a, 't>
    ensures { result ≡
        scores (cow_slice_items key.now) (cow_slice_items first.now) (cow_slice_items second.now)
        options.now.order options.now.limit options.now.reply }
{
    let limit = limit_if_any(&options.limit)?;
    let (min, max) = bounds(options.order, first, second)?;
    Ok(ZSetAsk::RangeByScore {
        key: Argument::of(key),
        min,
        max,
        order: options.order,
        limit,
        reply: options.reply,
    })
}

/// `ZPOPMIN key [count]` in ascending order, `ZPOPMAX` in descending order
///
/// # Errors
///
/// There are other than one or two words, or the second is no whole number, or below 0.
pub fn zpop<'a, 't>(name: Name, order: Order, arguments: Arguments<'a, 't>) -> Reading<'a, 't>
    ensures { result ≡ zpop name order (map cow_slice_items arguments.now) }
{
    match arguments {
        [key] => Ok(ZSetAsk::TakePairs {
            key: Argument::of(key),
            order,
            count: None,
        }),
        [key, most] => Ok(ZSetAsk::TakePairs {
            key: Argument::of(key),
            order,
            count: Some(count(most)?),
        }),
        _ => Err(AskFault::Arity(name)),
    }
}

/// `ZREMRANGEBYRANK key first last`
///
/// # Errors
///
/// There are not three words, or the second or third is no whole number.
pub fn zremrangebyrank<'a, 't>(arguments: Arguments<'a, 't>) -> Reading<'a, 't>
    ensures { result ≡ zremrangebyrank (map cow_slice_items arguments.now) }
{
    match arguments {
        [key, first, last] => Ok(ZSetAsk::ZRemRangeByRank {
            key: Argument::of(key),
            first: integer(first)?,
            last: integer(last)?,
        }),
        _ => Err(AskFault::Arity(Name::ZRemRangeByRank)),
    }
}

/// `ZREMRANGEBYSCORE key min max`
///
/// # Errors
///
/// There are not three words, or the second or third is no bound on scores.
pub fn zremrangebyscore<'a, 't>(arguments: Arguments<'a, 't>) -> Reading<'a, 't>
    ensures { result ≡ zremrangebyscore (map cow_slice_items arguments.now) }
{
    match arguments {
        [key, min, max] => {
            let (min, max) = bounds(Order::Ascending, min, max)?;
            Ok(ZSetAsk::ZRemRangeByScore {
                key: Argument::of(key),
                min,
                max,
            })
        }
        _ => Err(AskFault::Arity(Name::ZRemRangeByScore)),
    }
}
