// Commands on hashes from the words behind their names.
ghost use Rattle.std.specs.Prelude.{◌≡◌, map};
ghost use Rattle.std.specs.Cow.{cow_slice_items};
ghost use Rattle.mr_cmd_hash.specs.Arguments.{hset, hsetnx, hget, hmget, list_hash, hdel, hexists, hlen, hstrlen, hincrby};

use crate::hash_ask::{FieldsReply, HashAsk, HashPart};
use mr_arguments::{Argument, Arguments, AskFault, Name, WordPairs, Words, integer};

type Reading<'a, 't> = Result<HashAsk<'a, 't>, AskFault>;

/// `HSET key field value [field value ..]`, `HMSET` the same
///
/// # Errors
///
/// There are fewer than three words, or a field has no value.
pub fn hset<'a, 't>(name: Name, reply: FieldsReply, arguments: Arguments<'a, 't>) -> Reading<'a, 't>
    ensures { result ≡ hset name reply (map cow_slice_items arguments.now) }
{
    match arguments {
        [] | [_] => Err(AskFault::Arity(name)),
        [key, words @ ..] => Ok(HashAsk::HSet {
            key: Argument::of(key),
            pairs: WordPairs::of(words).ok_or(AskFault::Arity(name))?,
            reply,
        }),
    }
}

/// `HSETNX key field value`
///
/// # Errors
///
/// There are not three words.
pub fn hsetnx<'a, 't>(arguments: Arguments<'a, 't>) -> Reading<'a, 't>
    ensures { result ≡ hsetnx (map cow_slice_items arguments.now) }
{
    match arguments {
        [key, field, value] => Ok(HashAsk::HSetNx {
            key: Argument::of(key),
            field: Argument::of(field),
            value: Argument::of(value),
        }),
        _ => Err(AskFault::Arity(Name::HSetNx)),
    }
}

/// `HGET key field`
///
/// # Errors
///
/// There are not two words.
pub fn hget<'a, 't>(arguments: Arguments<'a, 't>) -> Reading<'a, 't>
    ensures { result ≡ hget (map cow_slice_items arguments.now) }
{
    match arguments {
        [key, field] => Ok(HashAsk::HGet {
            key: Argument::of(key),
            field: Argument::of(field),
        }),
        _ => Err(AskFault::Arity(Name::HGet)),
    }
}

/// `HMGET key field [field ..]`
///
/// # Errors
///
/// There are fewer than two words.
pub fn hmget<'a, 't>(arguments: Arguments<'a, 't>) -> Reading<'a, 't>
    ensures { result ≡ hmget (map cow_slice_items arguments.now) }
{
    match arguments {
        [] | [_] => Err(AskFault::Arity(Name::HMGet)),
        [key, fields @ ..] => Ok(HashAsk::HMGet {
            key: Argument::of(key),
            fields: Words::new(fields),
        }),
    }
}

/// `HGETALL key`, `HKEYS key`, `HVALS key`
///
/// # Errors
///
/// There is not one word.
pub fn list_hash<'a, 't>(
    name: Name,
    part: HashPart,
    arguments: Arguments<'a, 't>,
) -> Reading<'a, 't>
    ensures { result ≡ list_hash name part (map cow_slice_items arguments.now) }
{
    match arguments {
        [key] => Ok(HashAsk::ListHash {
            key: Argument::of(key),
            part,
        }),
        _ => Err(AskFault::Arity(name)),
    }
}

/// `HDEL key field [field ..]`
///
/// # Errors
///
/// There are fewer than two words.
pub fn hdel<'a, 't>(arguments: Arguments<'a, 't>) -> Reading<'a, 't>
    ensures { result ≡ hdel (map cow_slice_items arguments.now) }
{
    match arguments {
        [] | [_] => Err(AskFault::Arity(Name::HDel)),
        [key, fields @ ..] => Ok(HashAsk::HDel {
            key: Argument::of(key),
            fields: Words::new(fields),
        }),
    }
}

/// `HEXISTS key field`
///
/// # Errors
///
/// There are not two words.
pub fn hexists<'a, 't>(arguments: Arguments<'a, 't>) -> Reading<'a, 't>
    ensures { result ≡ hexists (map cow_slice_items arguments.now) }
{
    match arguments {
        [key, field] => Ok(HashAsk::HExists {
            key: Argument::of(key),
            field: Argument::of(field),
        }),
        _ => Err(AskFault::Arity(Name::HExists)),
    }
}

/// `HLEN key`
///
/// # Errors
///
/// There is not one word.
pub fn hlen<'a, 't>(arguments: Arguments<'a, 't>) -> Reading<'a, 't>
    ensures { result ≡ hlen (map cow_slice_items arguments.now) }
{
    match arguments {
        [key] => Ok(HashAsk::HLen {
            key: Argument::of(key),
        }),
        _ => Err(AskFault::Arity(Name::HLen)),
    }
}

/// `HSTRLEN key field`
///
/// # Errors
///
/// There are not two words.
pub fn hstrlen<'a, 't>(arguments: Arguments<'a, 't>) -> Reading<'a, 't>
    ensures { result ≡ hstrlen (map cow_slice_items arguments.now) }
{
    match arguments {
        [key, field] => Ok(HashAsk::HStrLen {
            key: Argument::of(key),
            field: Argument::of(field),
        }),
        _ => Err(AskFault::Arity(Name::HStrLen)),
    }
}

/// `HINCRBY key field number`
///
/// # Errors
///
/// There are not three words, or the third is no whole number.
pub fn hincrby<'a, 't>(arguments: Arguments<'a, 't>) -> Reading<'a, 't>
    ensures { result ≡ hincrby (map cow_slice_items arguments.now) }
{
    match arguments {
        [key, field, by] => Ok(HashAsk::HIncrBy {
            key: Argument::of(key),
            field: Argument::of(field),
            by: integer(by)?,
        }),
        _ => Err(AskFault::Arity(Name::HIncrBy)),
    }
}
