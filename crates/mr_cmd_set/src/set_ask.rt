// Commands on sets, with their arguments.
use mr_arguments::{Argument, Words};

/// A command on sets, with its arguments.
#[derive(Drop)]
pub enum SetAsk<'a, 't> {
    /// `SADD key member [member ..]`
    SAdd {
        key: Argument<'a>,
        members: Words<'a, 't>,
    },
    /// `SREM key member [member ..]`
    SRem {
        key: Argument<'a>,
        members: Words<'a, 't>,
    },
    /// `SISMEMBER key member`
    SIsMember {
        key: Argument<'a>,
        member: Argument<'a>,
    },
    /// `SMISMEMBER key member [member ..]`
    SMIsMember {
        key: Argument<'a>,
        members: Words<'a, 't>,
    },
    /// `SMEMBERS key`
    SMembers {
        key: Argument<'a>,
    },
    /// `SCARD key`
    SCard {
        key: Argument<'a>,
    },
    /// `SPOP key [count]`
    SPop {
        key: Argument<'a>,
        count: Option<usize>,
    },
    /// `SRANDMEMBER key [count]`
    SRandMember {
        key: Argument<'a>,
        count: Option<usize>,
    },
    /// `SMOVE from to member`
    SMove {
        from: Argument<'a>,
        to: Argument<'a>,
        member: Argument<'a>,
    },
    /// `SINTER key [key ..]`, `SUNION`, `SDIFF` the same
    Combine {
        operation: SetOperation,
        keys: Words<'a, 't>,
    },
}

/// What is made of several sets.
#[derive(Clone, Copy, Debug, PartialEq, Eq)]
pub enum SetOperation {
    /// The members of all.
    Intersection,
    /// The members of any.
    Union,
    /// The members of the first that are in no other.
    Difference,
}
