// Commands on keys of any kind, with their arguments.
use mr_arguments::{Argument, Expiry, Words};

/// A command on keys of any kind, with its arguments.
#[derive(Drop)]
pub enum KeyAsk<'a, 't> {
    /// `DEL key [key ..]`
    Del {
        keys: Words<'a, 't>,
    },
    /// `UNLINK key [key ..]`
    Unlink {
        keys: Words<'a, 't>,
    },
    /// `EXISTS key [key ..]`
    Exists {
        keys: Words<'a, 't>,
    },
    /// `TYPE key`
    KeyType {
        key: Argument<'a>,
    },
    /// `KEYS pattern`
    Keys {
        pattern: Argument<'a>,
    },
    /// `SCAN cursor [MATCH pattern] [COUNT number] [TYPE kind]`. The number is read and says nothing.
    Scan {
        cursor: Cursor,
        pattern: Option<Argument<'a>>,
        kind: Option<KindName>,
    },
    /// `DBSIZE`
    DbSize,
    /// `RENAME key key`
    Rename {
        from: Argument<'a>,
        to: Argument<'a>,
    },
    /// `RENAMENX key key`
    RenameNx {
        from: Argument<'a>,
        to: Argument<'a>,
    },
    /// `FLUSHALL [ASYNC|SYNC]`, `FLUSHDB` the same
    Clear {
        databases: Databases,
        timing: Option<Timing>,
    },
    /// `EXPIRE key seconds [NX|XX|GT|LT]`, `PEXPIRE key milliseconds ..`, `EXPIREAT key second ..`, `PEXPIREAT key millisecond ..`
    Expire {
        key: Argument<'a>,
        expiry: Expiry,
        condition: Option<ExpireCondition>,
    },
    /// `TTL key`
    Ttl {
        key: Argument<'a>,
    },
    /// `PTTL key`
    PTtl {
        key: Argument<'a>,
    },
    /// `EXPIRETIME key`
    ExpireTime {
        key: Argument<'a>,
    },
    /// `PEXPIRETIME key`
    PExpireTime {
        key: Argument<'a>,
    },
    /// `PERSIST key`
    Persist {
        key: Argument<'a>,
    },
}

/// Which keys get a deadline.
#[derive(Clone, Copy, Debug, PartialEq, Eq)]
pub enum ExpireCondition {
    /// One without a deadline (`NX`).
    Endless,
    /// One with a deadline (`XX`).
    Expiring,
    /// One whose deadline becomes later (`GT`).
    Later,
    /// One whose deadline becomes earlier, where none is later than any (`LT`).
    Earlier,
}

/// Where a scan goes on.
#[derive(Clone, Copy, Debug, PartialEq, Eq)]
pub enum Cursor {
    /// Before the first key (`0`).
    Start,
    /// Behind the last key (any other cursor).
    Behind,
}

/// A kind of value, as a request names it.
#[derive(Clone, Copy, Debug, PartialEq, Eq)]
pub enum KindName {
    /// `string`
    Text,
    /// `hash`
    Hash,
    /// `list`
    List,
    /// `set`
    Set,
    /// `zset`
    SortedSet,
    /// Any other word: no key is of this kind.
    Unknown,
}

/// Which databases are cleared. There is one alone, so this says nothing but how the command is called.
#[derive(Clone, Copy, Debug, PartialEq, Eq)]
pub enum Databases {
    /// `FLUSHALL`
    All,
    /// `FLUSHDB`
    Selected,
}

/// When the memory of what is cleared is to be given back. It is read and says nothing.
#[derive(Clone, Copy, Debug, PartialEq, Eq)]
pub enum Timing {
    /// `ASYNC`
    Later,
    /// `SYNC`
    Now,
}
