// Commands on lists, with their arguments.
use mr_arguments::{Argument, Words};
use mr_bytes::{End, Side};

/// A command on lists, with its arguments.
#[derive(Drop)]
pub enum ListAsk<'a, 't> {
    /// `LPUSH key item [item ..]`, `RPUSH`, `LPUSHX`, `RPUSHX` the same
    Push {
        key: Argument<'a>,
        end: End,
        to: PushTo,
        items: Words<'a, 't>,
    },
    /// `LPOP key [count]`, `RPOP` the same
    Pop {
        key: Argument<'a>,
        end: End,
        count: Option<usize>,
    },
    /// `LLEN key`
    LLen {
        key: Argument<'a>,
    },
    /// `LRANGE key first last`
    LRange {
        key: Argument<'a>,
        first: i64,
        last: i64,
    },
    /// `LINDEX key index`
    LIndex {
        key: Argument<'a>,
        index: i64,
    },
    /// `LSET key index item`
    LSet {
        key: Argument<'a>,
        index: i64,
        item: Argument<'a>,
    },
    /// `LINSERT key BEFORE|AFTER pivot item`
    LInsert {
        key: Argument<'a>,
        side: Side,
        pivot: Argument<'a>,
        item: Argument<'a>,
    },
    /// `LREM key count item`
    LRem {
        key: Argument<'a>,
        count: i64,
        item: Argument<'a>,
    },
    /// `LTRIM key first last`
    LTrim {
        key: Argument<'a>,
        first: i64,
        last: i64,
    },
    /// `LMOVE from to LEFT|RIGHT LEFT|RIGHT`
    LMove {
        from: Argument<'a>,
        to: Argument<'a>,
        taken: End,
        put: End,
    },
    /// `RPOPLPUSH from to`
    RPopLPush {
        from: Argument<'a>,
        to: Argument<'a>,
    },
}

/// Where items may be pushed.
#[derive(Clone, Copy, Debug, PartialEq, Eq)]
pub enum PushTo {
    /// An absent key becomes a list.
    AnyKey,
    /// An absent key stays absent.
    ExistingKey,
}
