// Commands on sets from the words behind their names.
ghost use Rattle.std.specs.Prelude.{◌≡◌, map};
ghost use Rattle.std.specs.Cow.{cow_slice_items};
ghost use Rattle.mr_cmd_set.specs.Arguments.{sadd, srem, sismember, smismember, smembers, scard, spop, srandmember, smove, combine};

use crate::set_ask::{SetAsk, SetOperation};
use mr_arguments::{Argument, Arguments, AskFault, Name, Words, count};

type Reading<'a, 't> = Result<SetAsk<'a, 't>, AskFault>;

/// `SADD key member [member ..]`
///
/// # Errors
///
/// There are fewer than two words.
pub fn sadd<'a, 't>(arguments: Arguments<'a, 't>) -> Reading<'a, 't>
    ensures { result ≡ sadd (map cow_slice_items arguments.now) }
{
    match arguments {
        [] | [_] => Err(AskFault::Arity(Name::SAdd)),
        [key, members @ ..] => Ok(SetAsk::SAdd {
            key: Argument::of(key),
            members: Words::new(members),
        }),
    }
}

/// `SREM key member [member ..]`
///
/// # Errors
///
/// There are fewer than two words.
pub fn srem<'a, 't>(arguments: Arguments<'a, 't>) -> Reading<'a, 't>
    ensures { result ≡ srem (map cow_slice_items arguments.now) }
{
    match arguments {
        [] | [_] => Err(AskFault::Arity(Name::SRem)),
        [key, members @ ..] => Ok(SetAsk::SRem {
            key: Argument::of(key),
            members: Words::new(members),
        }),
    }
}

/// `SISMEMBER key member`
///
/// # Errors
///
/// There are not two words.
pub fn sismember<'a, 't>(arguments: Arguments<'a, 't>) -> Reading<'a, 't>
    ensures { result ≡ sismember (map cow_slice_items arguments.now) }
{
    match arguments {
        [key, member] => Ok(SetAsk::SIsMember {
            key: Argument::of(key),
            member: Argument::of(member),
        }),
        _ => Err(AskFault::Arity(Name::SIsMember)),
    }
}

/// `SMISMEMBER key member [member ..]`
///
/// # Errors
///
/// There are fewer than two words.
pub fn smismember<'a, 't>(arguments: Arguments<'a, 't>) -> Reading<'a, 't>
    ensures { result ≡ smismember (map cow_slice_items arguments.now) }
{
    match arguments {
        [] | [_] => Err(AskFault::Arity(Name::SMIsMember)),
        [key, members @ ..] => Ok(SetAsk::SMIsMember {
            key: Argument::of(key),
            members: Words::new(members),
        }),
    }
}

/// `SMEMBERS key`
///
/// # Errors
///
/// There is not one word.
pub fn smembers<'a, 't>(arguments: Arguments<'a, 't>) -> Reading<'a, 't>
    ensures { result ≡ smembers (map cow_slice_items arguments.now) }
{
    match arguments {
        [key] => Ok(SetAsk::SMembers {
            key: Argument::of(key),
        }),
        _ => Err(AskFault::Arity(Name::SMembers)),
    }
}

/// `SCARD key`
///
/// # Errors
///
/// There is not one word.
pub fn scard<'a, 't>(arguments: Arguments<'a, 't>) -> Reading<'a, 't>
    ensures { result ≡ scard (map cow_slice_items arguments.now) }
{
    match arguments {
        [key] => Ok(SetAsk::SCard {
            key: Argument::of(key),
        }),
        _ => Err(AskFault::Arity(Name::SCard)),
    }
}

/// `SPOP key [count]`
///
/// # Errors
///
/// There are other than one or two words, or the second is no whole number, or below 0.
pub fn spop<'a, 't>(arguments: Arguments<'a, 't>) -> Reading<'a, 't>
    ensures { result ≡ spop (map cow_slice_items arguments.now) }
{
    match arguments {
        [key] => Ok(SetAsk::SPop {
            key: Argument::of(key),
            count: None,
        }),
        [key, most] => Ok(SetAsk::SPop {
            key: Argument::of(key),
            count: Some(count(most)?),
        }),
        _ => Err(AskFault::Arity(Name::SPop)),
    }
}

/// `SRANDMEMBER key [count]`
///
/// # Errors
///
/// There are other than one or two words, or the second is no whole number, or below 0.
pub fn srandmember<'a, 't>(arguments: Arguments<'a, 't>) -> Reading<'a, 't>
    ensures { result ≡ srandmember (map cow_slice_items arguments.now) }
{
    match arguments {
        [key] => Ok(SetAsk::SRandMember {
            key: Argument::of(key),
            count: None,
        }),
        [key, most] => Ok(SetAsk::SRandMember {
            key: Argument::of(key),
            count: Some(count(most)?),
        }),
        _ => Err(AskFault::Arity(Name::SRandMember)),
    }
}

/// `SMOVE from to member`
///
/// # Errors
///
/// There are not three words.
pub fn smove<'a, 't>(arguments: Arguments<'a, 't>) -> Reading<'a, 't>
    ensures { result ≡ smove (map cow_slice_items arguments.now) }
{
    match arguments {
        [from, to, member] => Ok(SetAsk::SMove {
            from: Argument::of(from),
            to: Argument::of(to),
            member: Argument::of(member),
        }),
        _ => Err(AskFault::Arity(Name::SMove)),
    }
}

/// `SINTER key [key ..]`, `SUNION`, `SDIFF` the same
///
/// # Errors
///
/// There is no word.
pub fn combine<'a, 't>(
    name: Name,
    operation: SetOperation,
    arguments: Arguments<'a, 't>,
) -> Reading<'a, 't>
    ensures { result ≡ combine name operation (map cow_slice_items arguments.now) }
{
    match arguments {
        [] => Err(AskFault::Arity(name)),
        _ => Ok(SetAsk::Combine {
            operation,
            keys: Words::new(arguments),
        }),
    }
}
