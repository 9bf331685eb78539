// Commands on hashes, with their arguments.
use mr_arguments::{Argument, WordPairs, Words};

/// A command on hashes, with its arguments.
#[derive(Drop)]
pub enum HashAsk<'a, 't> {
    /// `HSET key field value [field value ..]`, `HMSET` the same
    HSet {
        key: Argument<'a>,
        pairs: WordPairs<'a, 't>,
        reply: FieldsReply,
    },
    /// `HSETNX key field value`
    HSetNx {
        key: Argument<'a>,
        field: Argument<'a>,
        value: Argument<'a>,
    },
    /// `HGET key field`
    HGet {
        key: Argument<'a>,
        field: Argument<'a>,
    },
    /// `HMGET key field [field ..]`
    HMGet {
        key: Argument<'a>,
        fields: Words<'a, 't>,
    },
    /// `HGETALL key`, `HKEYS key`, `HVALS key`
    ListHash {
        key: Argument<'a>,
        part: HashPart,
    },
    /// `HDEL key field [field ..]`
    HDel {
        key: Argument<'a>,
        fields: Words<'a, 't>,
    },
    /// `HEXISTS key field`
    HExists {
        key: Argument<'a>,
        field: Argument<'a>,
    },
    /// `HLEN key`
    HLen {
        key: Argument<'a>,
    },
    /// `HSTRLEN key field`
    HStrLen {
        key: Argument<'a>,
        field: Argument<'a>,
    },
    /// `HINCRBY key field number`
    HIncrBy {
        key: Argument<'a>,
        field: Argument<'a>,
        by: i64,
    },
}

/// What is answered where fields were set.
#[derive(Clone, Copy, Debug, PartialEq, Eq)]
pub enum FieldsReply {
    /// How many of them are new (`HSET`).
    Added,
    /// That it is done (`HMSET`).
    Done,
}

/// What is listed of a hash.
#[derive(Clone, Copy, Debug, PartialEq, Eq)]
pub enum HashPart {
    /// Each field and its value.
    Pairs,
    Fields,
    Values,
}
