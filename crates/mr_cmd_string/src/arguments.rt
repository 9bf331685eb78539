// Commands on strings.
ghost use Rattle.std.specs.Prelude.{◌≡◌, map};
ghost use Rattle.std.specs.Cow.{cow_slice_items};
ghost use Rattle.mr_cmd_string.specs.Arguments.{get, set, setex, psetex, strlen, getrange, mget, setnx, getset, getdel, mset, msetnx, append, setrange, step, incrby, decrby};

use crate::options::SetOptions;
use crate::parts::{lifetime_if_any, milliseconds, opposite, seconds};
use crate::text_ask::{Amount, TextAsk};
use mr_arguments::{Argument, Arguments, AskFault, Name, WordPairs, Words, integer, offset};

type Reading<'a, 't> = Result<TextAsk<'a, 't>, AskFault>;

/// `GET key`
pub fn get<'a, 't>(arguments: Arguments<'a, 't>) -> Reading<'a, 't>
    ensures { result ≡ get (map cow_slice_items arguments.now) }
{
    match arguments {
        [key] => Ok(TextAsk::Get {
            key: Argument::of(key),
        }),
        _ => Err(AskFault::Arity(Name::Get)),
    }
}

/// `SET key value [NX|XX] [GET] [EX seconds|PX milliseconds|EXAT second|PXAT millisecond|KEEPTTL]`
pub fn set<'a, 't>(arguments: Arguments<'a, 't>) -> Reading<'a, 't>
    ensures { result ≡ set (map cow_slice_items arguments.now) }
{
    match arguments {
        [] | [_] => Err(AskFault::Arity(Name::Set)),
        [key, value, words @ ..] => {
            let options = SetOptions::read(words)?;
            let lifetime = lifetime_if_any(&options.lifetime)?;
            Ok(TextAsk::Set {
                key: Argument::of(key),
                value: Argument::of(value),
                condition: options.condition,
                reply: options.reply,
                lifetime,
            })
        }
    }
}

/// `SETEX key seconds value`
pub fn setex<'a, 't>(arguments: Arguments<'a, 't>) -> Reading<'a, 't>
    ensures { result ≡ setex (map cow_slice_items arguments.now) }
{
    match arguments {
        [key, amount, value] => Ok(TextAsk::SetEx {
            key: Argument::of(key),
            seconds: seconds(integer(amount)?)?,
            value: Argument::of(value),
        }),
        _ => Err(AskFault::Arity(Name::SetEx)),
    }
}

/// `PSETEX key milliseconds value`
pub fn psetex<'a, 't>(arguments: Arguments<'a, 't>) -> Reading<'a, 't>
    ensures { result ≡ psetex (map cow_slice_items arguments.now) }
{
    match arguments {
        [key, amount, value] => Ok(TextAsk::PSetEx {
            key: Argument::of(key),
            milliseconds: milliseconds(integer(amount)?)?,
            value: Argument::of(value),
        }),
        _ => Err(AskFault::Arity(Name::PSetEx)),
    }
}

/// `STRLEN key`
pub fn strlen<'a, 't>(arguments: Arguments<'a, 't>) -> Reading<'a, 't>
    ensures { result ≡ strlen (map cow_slice_items arguments.now) }
{
    match arguments {
        [key] => Ok(TextAsk::StrLen {
            key: Argument::of(key),
        }),
        _ => Err(AskFault::Arity(Name::StrLen)),
    }
}

/// `GETRANGE key first last`
pub fn getrange<'a, 't>(arguments: Arguments<'a, 't>) -> Reading<'a, 't>
    ensures { result ≡ getrange (map cow_slice_items arguments.now) }
{
    match arguments {
        [key, first, last] => Ok(TextAsk::GetRange {
            key: Argument::of(key),
            first: integer(first)?,
            last: integer(last)?,
        }),
        _ => Err(AskFault::Arity(Name::GetRange)),
    }
}

/// `MGET key [key ..]`
pub fn mget<'a, 't>(arguments: Arguments<'a, 't>) -> Reading<'a, 't>
    ensures { result ≡ mget (map cow_slice_items arguments.now) }
{
    match arguments {
        [] => Err(AskFault::Arity(Name::MGet)),
        _ => Ok(TextAsk::MGet {
            keys: Words::new(arguments),
        }),
    }
}

/// `SETNX key value`
pub fn setnx<'a, 't>(arguments: Arguments<'a, 't>) -> Reading<'a, 't>
    ensures { result ≡ setnx (map cow_slice_items arguments.now) }
{
    match arguments {
        [key, value] => Ok(TextAsk::SetNx {
            key: Argument::of(key),
            value: Argument::of(value),
        }),
        _ => Err(AskFault::Arity(Name::SetNx)),
    }
}

/// `GETSET key value`
pub fn getset<'a, 't>(arguments: Arguments<'a, 't>) -> Reading<'a, 't>
    ensures { result ≡ getset (map cow_slice_items arguments.now) }
{
    match arguments {
        [key, value] => Ok(TextAsk::GetSet {
            key: Argument::of(key),
            value: Argument::of(value),
        }),
        _ => Err(AskFault::Arity(Name::GetSet)),
    }
}

/// `GETDEL key`
pub fn getdel<'a, 't>(arguments: Arguments<'a, 't>) -> Reading<'a, 't>
    ensures { result ≡ getdel (map cow_slice_items arguments.now) }
{
    match arguments {
        [key] => Ok(TextAsk::GetDel {
            key: Argument::of(key),
        }),
        _ => Err(AskFault::Arity(Name::GetDel)),
    }
}

/// `MSET key value [key value ..]`
pub fn mset<'a, 't>(arguments: Arguments<'a, 't>) -> Reading<'a, 't>
    ensures { result ≡ mset (map cow_slice_items arguments.now) }
{
    match arguments {
        [] => Err(AskFault::Arity(Name::MSet)),
        _ => Ok(TextAsk::MSet {
            pairs: WordPairs::of(arguments).ok_or(AskFault::Arity(Name::MSet))?,
        }),
    }
}

/// `MSETNX key value [key value ..]`
pub fn msetnx<'a, 't>(arguments: Arguments<'a, 't>) -> Reading<'a, 't>
    ensures { result ≡ msetnx (map cow_slice_items arguments.now) }
{
    match arguments {
        [] => Err(AskFault::Arity(Name::MSetNx)),
        _ => Ok(TextAsk::MSetNx {
            pairs: WordPairs::of(arguments).ok_or(AskFault::Arity(Name::MSetNx))?,
        }),
    }
}

/// `APPEND key value`
pub fn append<'a, 't>(arguments: Arguments<'a, 't>) -> Reading<'a, 't>
    ensures { result ≡ append (map cow_slice_items arguments.now) }
{
    match arguments {
        [key, value] => Ok(TextAsk::Append {
            key: Argument::of(key),
            value: Argument::of(value),
        }),
        _ => Err(AskFault::Arity(Name::Append)),
    }
}

/// `SETRANGE key offset value`
pub fn setrange<'a, 't>(arguments: Arguments<'a, 't>) -> Reading<'a, 't>
    ensures { result ≡ setrange (map cow_slice_items arguments.now) }
{
    match arguments {
        [key, place, value] => Ok(TextAsk::SetRange {
            key: Argument::of(key),
            offset: offset(place)?,
            value: Argument::of(value),
        }),
        _ => Err(AskFault::Arity(Name::SetRange)),
    }
}

/// `INCR key`, `DECR key`
pub fn step<'a, 't>(name: Name, by: Amount, arguments: Arguments<'a, 't>) -> Reading<'a, 't>
    ensures { result ≡ step name by (map cow_slice_items arguments.now) }
{
    match arguments {
        [key] => Ok(TextAsk::Increase {
            key: Argument::of(key),
            by,
        }),
        _ => Err(AskFault::Arity(name)),
    }
}

/// `INCRBY key number`
pub fn incrby<'a, 't>(arguments: Arguments<'a, 't>) -> Reading<'a, 't>
    ensures { result ≡ incrby (map cow_slice_items arguments.now) }
{
    match arguments {
        [key, by] => Ok(TextAsk::Increase {
            key: Argument::of(key),
            by: Amount::Number(integer(by)?),
        }),
        _ => Err(AskFault::Arity(Name::IncrBy)),
    }
}

/// `DECRBY key number`
pub fn decrby<'a, 't>(arguments: Arguments<'a, 't>) -> Reading<'a, 't>
    ensures { result ≡ decrby (map cow_slice_items arguments.now) }
{
    match arguments {
        [key, by] => Ok(TextAsk::Increase {
            key: Argument::of(key),
            by: Amount::Opposite(opposite(integer(by)?)?),
        }),
        _ => Err(AskFault::Arity(Name::DecrBy)),
    }
}
