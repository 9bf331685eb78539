// Commands on sorted sets, with their arguments.
use mr_arguments::{Argument, Words};
use mr_zset::Bound;
use mr_zset_options::{
    Comparison, Limit, Order, RangeReply, ScoreCondition, ScoredMembers, ScoresReply,
};

/// A command on sorted sets, with its arguments.
#[derive(Drop)]
pub enum ZSetAsk<'a, 't> {
    /// `ZADD key [NX|XX] [GT|LT] [CH] score member [score member ..]`
    ZAdd {
        key: Argument<'a>,
        condition: Option<ScoreCondition>,
        comparison: Option<Comparison>,
        reply: ScoresReply,
        pairs: ScoredMembers<'a, 't>,
    },
    /// `ZINCRBY key by member`
    ZIncrBy {
        key: Argument<'a>,
        by: i64,
        member: Argument<'a>,
    },
    /// `ZREM key member [member ..]`
    ZRem {
        key: Argument<'a>,
        members: Words<'a, 't>,
    },
    /// `ZCARD key`
    ZCard {
        key: Argument<'a>,
    },
    /// `ZCOUNT key min max`
    ZCount {
        key: Argument<'a>,
        min: Bound,
        max: Bound,
    },
    /// `ZSCORE key member`
    ZScore {
        key: Argument<'a>,
        member: Argument<'a>,
    },
    /// `ZMSCORE key member [member ..]`
    ZMScore {
        key: Argument<'a>,
        members: Words<'a, 't>,
    },
    /// `ZRANK key member`, `ZREVRANK`: the member's place in this order
    GetRank {
        key: Argument<'a>,
        member: Argument<'a>,
        order: Order,
    },
    /// `ZRANGE key first last [REV] [WITHSCORES]`, `ZREVRANGE key first last [WITHSCORES]`: places in this order
    RangeByRank {
        key: Argument<'a>,
        first: i64,
        last: i64,
        order: Order,
        reply: RangeReply,
    },
    /// `ZRANGE key min max BYSCORE [REV] [LIMIT offset count] [WITHSCORES]`, and
    /// `ZRANGEBYSCORE key min max [WITHSCORES] [LIMIT offset count]`, `ZREVRANGEBYSCORE` the same. In descending order the
    /// request has the upper bound first.
    RangeByScore {
        key: Argument<'a>,
        min: Bound,
        max: Bound,
        order: Order,
        limit: Option<Limit>,
        reply: RangeReply,
    },
    /// `ZPOPMIN key [count]`, `ZPOPMAX`: the first pairs in this order
    TakePairs {
        key: Argument<'a>,
        order: Order,
        count: Option<usize>,
    },
    /// `ZREMRANGEBYRANK key first last`
    ZRemRangeByRank {
        key: Argument<'a>,
        first: i64,
        last: i64,
    },
    /// `ZREMRANGEBYSCORE key min max`
    ZRemRangeByScore {
        key: Argument<'a>,
        min: Bound,
        max: Bound,
    },
}
