// Commands on strings, with their arguments.
ghost use Rattle.std.specs.Prelude.{◌≡◌};
ghost use Rattle.mr_cmd_string.specs.Parts.{amount_number};

use mr_arguments::{Argument, Expiry, Milliseconds, Seconds, WordPairs, Words};

/// A command on strings, with its arguments.
#[derive(Drop)]
pub enum TextAsk<'a, 't> {
    /// `GET key`
    Get {
        key: Argument<'a>,
    },
    /// `SET key value [NX|XX] [GET] [EX seconds|PX milliseconds|EXAT second|PXAT millisecond|KEEPTTL]`
    Set {
        key: Argument<'a>,
        value: Argument<'a>,
        condition: Option<SetCondition>,
        reply: SetReply,
        lifetime: Lifetime,
    },
    /// `SETEX key seconds value`
    SetEx {
        key: Argument<'a>,
        seconds: Seconds,
        value: Argument<'a>,
    },
    /// `PSETEX key milliseconds value`
    PSetEx {
        key: Argument<'a>,
        milliseconds: Milliseconds,
        value: Argument<'a>,
    },
    /// `STRLEN key`
    StrLen {
        key: Argument<'a>,
    },
    /// `GETRANGE key first last`
    GetRange {
        key: Argument<'a>,
        first: i64,
        last: i64,
    },
    /// `MGET key [key ..]`
    MGet {
        keys: Words<'a, 't>,
    },
    /// `SETNX key value`
    SetNx {
        key: Argument<'a>,
        value: Argument<'a>,
    },
    /// `GETSET key value`
    GetSet {
        key: Argument<'a>,
        value: Argument<'a>,
    },
    /// `GETDEL key`
    GetDel {
        key: Argument<'a>,
    },
    /// `MSET key value [key value ..]`
    MSet {
        pairs: WordPairs<'a, 't>,
    },
    /// `MSETNX key value [key value ..]`
    MSetNx {
        pairs: WordPairs<'a, 't>,
    },
    /// `APPEND key value`
    Append {
        key: Argument<'a>,
        value: Argument<'a>,
    },
    /// `SETRANGE key offset value`
    SetRange {
        key: Argument<'a>,
        offset: usize,
        value: Argument<'a>,
    },
    /// `INCR key`, `DECR key`, `INCRBY key number`, `DECRBY key number`
    Increase {
        key: Argument<'a>,
        by: Amount,
    },
}

/// Which keys a value is set under.
#[derive(Clone, Copy, Debug, PartialEq, Eq)]
pub enum SetCondition {
    /// One that isn't there (`NX`).
    Absent,
    /// One that is there (`XX`).
    Present,
}

/// What is answered where a value was to be set.
#[derive(Clone, Copy, Debug, PartialEq, Eq)]
pub enum SetReply {
    /// Whether it was set.
    Done,
    /// The text that was there before (`GET`).
    Before,
}

/// How long a value that is set stays.
#[derive(Clone, Copy)]
pub enum Lifetime {
    /// Its key gets no deadline.
    Endless,
    /// Its key keeps the deadline that it has (`KEEPTTL`).
    Kept,
    /// Its key gets this deadline (`EX`, `PX`, `EXAT`, `PXAT`).
    Until(Expiry),
}

/// What is added to a number, by the command that asks for it.
#[derive(Clone, Copy, Debug, PartialEq, Eq)]
pub enum Amount {
    /// 1 (`INCR`).
    One,
    /// -1 (`DECR`).
    MinusOne,
    /// This number, which stands in the request (`INCRBY`).
    Number(i64),
    /// This number, whose opposite stands in the request (`DECRBY`).
    Opposite(i64),
}

impl Amount {
    /// The number that is added.
    pub fn number(self) -> i64
        ensures { result ≡ amount_number self }
    {
        match self {
            Amount::One => 1,
            Amount::MinusOne => -1,
            Amount::Number(number) | Amount::Opposite(number) => number,
        }
    }
}
