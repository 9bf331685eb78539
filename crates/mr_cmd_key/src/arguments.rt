// Commands on keys of any kind.
ghost use Rattle.std.specs.Prelude.{◌≡◌, map};
ghost use Rattle.std.specs.Cow.{cow_slice_items};
ghost use Rattle.mr_cmd_key.specs.Arguments.{del, unlink, exists, key_type, keys, scan, dbsize, rename, renamenx, clear, expire, ttl, pttl, expiretime, pexpiretime, persist};

use crate::key_ask::{Databases, ExpireCondition, KeyAsk};
use crate::options::ScanOptions;
use crate::parts::{cursor_of, key_expiry, kind_if_any, positive_if_any, timing_of};
use mr_arguments::{Argument, Arguments, AskFault, ExpiryUnit, Name, Words};

type Reading<'a, 't> = Result<KeyAsk<'a, 't>, AskFault>;

/// `DEL key [key ..]`
pub fn del<'a, 't>(arguments: Arguments<'a, 't>) -> Reading<'a, 't>
    ensures { result ≡ del (map cow_slice_items arguments.now) }
{
    match arguments {
        [] => Err(AskFault::Arity(Name::Del)),
        _ => Ok(KeyAsk::Del {
            keys: Words::new(arguments),
        }),
    }
}

/// `UNLINK key [key ..]`
pub fn unlink<'a, 't>(arguments: Arguments<'a, 't>) -> Reading<'a, 't>
    ensures { result ≡ unlink (map cow_slice_items arguments.now) }
{
    match arguments {
        [] => Err(AskFault::Arity(Name::Unlink)),
        _ => Ok(KeyAsk::Unlink {
            keys: Words::new(arguments),
        }),
    }
}

/// `EXISTS key [key ..]`
pub fn exists<'a, 't>(arguments: Arguments<'a, 't>) -> Reading<'a, 't>
    ensures { result ≡ exists (map cow_slice_items arguments.now) }
{
    match arguments {
        [] => Err(AskFault::Arity(Name::Exists)),
        _ => Ok(KeyAsk::Exists {
            keys: Words::new(arguments),
        }),
    }
}

/// `TYPE key`
pub fn key_type<'a, 't>(arguments: Arguments<'a, 't>) -> Reading<'a, 't>
    ensures { result ≡ key_type (map cow_slice_items arguments.now) }
{
    match arguments {
        [key] => Ok(KeyAsk::KeyType {
            key: Argument::of(key),
        }),
        _ => Err(AskFault::Arity(Name::KeyType)),
    }
}

/// `KEYS pattern`
pub fn keys<'a, 't>(arguments: Arguments<'a, 't>) -> Reading<'a, 't>
    ensures { result ≡ keys (map cow_slice_items arguments.now) }
{
    match arguments {
        [pattern] => Ok(KeyAsk::Keys {
            pattern: Argument::of(pattern),
        }),
        _ => Err(AskFault::Arity(Name::Keys)),
    }
}

/// `SCAN cursor [MATCH pattern] [COUNT number] [TYPE kind]`
pub fn scan<'a, 't>(arguments: Arguments<'a, 't>) -> Reading<'a, 't>
    ensures { result ≡ scan (map cow_slice_items arguments.now) }
{
    match arguments {
        [] => Err(AskFault::Arity(Name::Scan)),
        [cursor, words @ ..] => {
            let options = ScanOptions::read(words)?;
            positive_if_any(&options.count)?;
            Ok(KeyAsk::Scan {
                cursor: cursor_of(cursor)?,
                kind: kind_if_any(&options.kind),
                pattern: options.pattern,
            })
        }
    }
}

/// `DBSIZE`
pub fn dbsize<'a, 't>(arguments: Arguments<'a, 't>) -> Reading<'a, 't>
    ensures { result ≡ dbsize (map cow_slice_items arguments.now) }
{
    match arguments {
        [] => Ok(KeyAsk::DbSize),
        _ => Err(AskFault::Arity(Name::DbSize)),
    }
}

/// `RENAME key key`
pub fn rename<'a, 't>(arguments: Arguments<'a, 't>) -> Reading<'a, 't>
    ensures { result ≡ rename (map cow_slice_items arguments.now) }
{
    match arguments {
        [from, to] => Ok(KeyAsk::Rename {
            from: Argument::of(from),
            to: Argument::of(to),
        }),
        _ => Err(AskFault::Arity(Name::Rename)),
    }
}

/// `RENAMENX key key`
pub fn renamenx<'a, 't>(arguments: Arguments<'a, 't>) -> Reading<'a, 't>
    ensures { result ≡ renamenx (map cow_slice_items arguments.now) }
{
    match arguments {
        [from, to] => Ok(KeyAsk::RenameNx {
            from: Argument::of(from),
            to: Argument::of(to),
        }),
        _ => Err(AskFault::Arity(Name::RenameNx)),
    }
}

/// `FLUSHALL [ASYNC|SYNC]`, `FLUSHDB` the same
pub fn clear<'a, 't>(databases: Databases, arguments: Arguments<'a, 't>) -> Reading<'a, 't>
    ensures { result ≡ clear databases (map cow_slice_items arguments.now) }
{
    match arguments {
        [] => Ok(KeyAsk::Clear {
            databases,
            timing: None,
        }),
        [timing] => Ok(KeyAsk::Clear {
            databases,
            timing: Some(timing_of(timing)?),
        }),
        _ => Err(AskFault::Syntax),
    }
}

/// `EXPIRE key seconds [NX|XX|GT|LT]`, `PEXPIRE key milliseconds ..`, `EXPIREAT key second ..`, `PEXPIREAT key millisecond ..`
pub fn expire<'a, 't>(name: Name, unit: ExpiryUnit, arguments: Arguments<'a, 't>) -> Reading<'a, 't>
    ensures { result ≡ expire name unit (map cow_slice_items arguments.now) }
{
    match arguments {
        [] | [_] => Err(AskFault::Arity(name)),
        [key, number, words @ ..] => {
            let condition = ExpireCondition::if_any(words)?;
            Ok(KeyAsk::Expire {
                key: Argument::of(key),
                expiry: key_expiry(unit, number)?,
                condition,
            })
        }
    }
}

/// `TTL key`
pub fn ttl<'a, 't>(arguments: Arguments<'a, 't>) -> Reading<'a, 't>
    ensures { result ≡ ttl (map cow_slice_items arguments.now) }
{
    match arguments {
        [key] => Ok(KeyAsk::Ttl {
            key: Argument::of(key),
        }),
        _ => Err(AskFault::Arity(Name::Ttl)),
    }
}

/// `PTTL key`
pub fn pttl<'a, 't>(arguments: Arguments<'a, 't>) -> Reading<'a, 't>
    ensures { result ≡ pttl (map cow_slice_items arguments.now) }
{
    match arguments {
        [key] => Ok(KeyAsk::PTtl {
            key: Argument::of(key),
        }),
        _ => Err(AskFault::Arity(Name::PTtl)),
    }
}

/// `EXPIRETIME key`
pub fn expiretime<'a, 't>(arguments: Arguments<'a, 't>) -> Reading<'a, 't>
    ensures { result ≡ expiretime (map cow_slice_items arguments.now) }
{
    match arguments {
        [key] => Ok(KeyAsk::ExpireTime {
            key: Argument::of(key),
        }),
        _ => Err(AskFault::Arity(Name::ExpireTime)),
    }
}

/// `PEXPIRETIME key`
pub fn pexpiretime<'a, 't>(arguments: Arguments<'a, 't>) -> Reading<'a, 't>
    ensures { result ≡ pexpiretime (map cow_slice_items arguments.now) }
{
    match arguments {
        [key] => Ok(KeyAsk::PExpireTime {
            key: Argument::of(key),
        }),
        _ => Err(AskFault::Arity(Name::PExpireTime)),
    }
}

/// `PERSIST key`
pub fn persist<'a, 't>(arguments: Arguments<'a, 't>) -> Reading<'a, 't>
    ensures { result ≡ persist (map cow_slice_items arguments.now) }
{
    match arguments {
        [key] => Ok(KeyAsk::Persist {
            key: Argument::of(key),
        }),
        _ => Err(AskFault::Arity(Name::Persist)),
    }
}
