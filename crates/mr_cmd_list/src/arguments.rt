// Commands on lists from the words behind their names.
ghost use Rattle.std.specs.Prelude.{◌≡◌, map};
ghost use Rattle.std.specs.Cow.{cow_slice_items};
ghost use Rattle.mr_cmd_list.specs.Arguments.{push, pop, llen, lrange, lindex, lset, linsert, lrem, ltrim, lmove, rpoplpush};

use crate::list_ask::{ListAsk, PushTo};
use crate::parts::{end_of, side_of};
use mr_arguments::{Argument, Arguments, AskFault, Name, Words, count, integer};
use mr_bytes::End;

type Reading<'a, 't> = Result<ListAsk<'a, 't>, AskFault>;

/// `LPUSH key item [item ..]`, `RPUSH`, `LPUSHX`, `RPUSHX` the same
///
/// # Errors
///
/// There are fewer than two words.
pub fn push<'a, 't>(
    name: Name,
    end: End,
    to: PushTo,
    arguments: Arguments<'a, 't>,
) -> Reading<'a, 't>
    ensures { result ≡ push name end to (map cow_slice_items arguments.now) }
{
    match arguments {
        [] | [_] => Err(AskFault::Arity(name)),
        [key, items @ ..] => Ok(ListAsk::Push {
            key: Argument::of(key),
            end,
            to,
            items: Words::new(items),
        }),
    }
}

/// `LPOP key [count]`, `RPOP` the same
///
/// # Errors
///
/// There are other than one or two words, or the second is no whole number, or below 0.
pub fn pop<'a, 't>(name: Name, end: End, arguments: Arguments<'a, 't>) -> Reading<'a, 't>
    ensures { result ≡ pop name end (map cow_slice_items arguments.now) }
{
    match arguments {
        [key] => Ok(ListAsk::Pop {
            key: Argument::of(key),
            end,
            count: None,
        }),
        [key, most] => Ok(ListAsk::Pop {
            key: Argument::of(key),
            end,
            count: Some(count(most)?),
        }),
        _ => Err(AskFault::Arity(name)),
    }
}

/// `LLEN key`
///
/// # Errors
///
/// There is not one word.
pub fn llen<'a, 't>(arguments: Arguments<'a, 't>) -> Reading<'a, 't>
    ensures { result ≡ llen (map cow_slice_items arguments.now) }
{
    match arguments {
        [key] => Ok(ListAsk::LLen {
            key: Argument::of(key),
        }),
        _ => Err(AskFault::Arity(Name::LLen)),
    }
}

/// `LRANGE key first last`
///
/// # Errors
///
/// There are not three words, or the second or third is no whole number.
pub fn lrange<'a, 't>(arguments: Arguments<'a, 't>) -> Reading<'a, 't>
    ensures { result ≡ lrange (map cow_slice_items arguments.now) }
{
    match arguments {
        [key, first, last] => Ok(ListAsk::LRange {
            key: Argument::of(key),
            first: integer(first)?,
            last: integer(last)?,
        }),
        _ => Err(AskFault::Arity(Name::LRange)),
    }
}

/// `LINDEX key index`
///
/// # Errors
///
/// There are not two words, or the second is no whole number.
pub fn lindex<'a, 't>(arguments: Arguments<'a, 't>) -> Reading<'a, 't>
    ensures { result ≡ lindex (map cow_slice_items arguments.now) }
{
    match arguments {
        [key, index] => Ok(ListAsk::LIndex {
            key: Argument::of(key),
            index: integer(index)?,
        }),
        _ => Err(AskFault::Arity(Name::LIndex)),
    }
}

/// `LSET key index item`
///
/// # Errors
///
/// There are not three words, or the second is no whole number.
pub fn lset<'a, 't>(arguments: Arguments<'a, 't>) -> Reading<'a, 't>
    ensures { result ≡ lset (map cow_slice_items arguments.now) }
{
    match arguments {
        [key, index, item] => Ok(ListAsk::LSet {
            key: Argument::of(key),
            index: integer(index)?,
            item: Argument::of(item),
        }),
        _ => Err(AskFault::Arity(Name::LSet)),
    }
}

/// `LINSERT key BEFORE|AFTER pivot item`
///
/// # Errors
///
/// There are not four words, or the second is neither `BEFORE` nor `AFTER`.
pub fn linsert<'a, 't>(arguments: Arguments<'a, 't>) -> Reading<'a, 't>
    ensures { result ≡ linsert (map cow_slice_items arguments.now) }
{
    match arguments {
        [key, side, pivot, item] => Ok(ListAsk::LInsert {
            key: Argument::of(key),
            side: side_of(side)?,
            pivot: Argument::of(pivot),
            item: Argument::of(item),
        }),
        _ => Err(AskFault::Arity(Name::LInsert)),
    }
}

/// `LREM key count item`
///
/// # Errors
///
/// There are not three words, or the second is no whole number.
pub fn lrem<'a, 't>(arguments: Arguments<'a, 't>) -> Reading<'a, 't>
    ensures { result ≡ lrem (map cow_slice_items arguments.now) }
{
    match arguments {
        [key, most, item] => Ok(ListAsk::LRem {
            key: Argument::of(key),
            count: integer(most)?,
            item: Argument::of(item),
        }),
        _ => Err(AskFault::Arity(Name::LRem)),
    }
}

/// `LTRIM key first last`
///
/// # Errors
///
/// There are not three words, or the second or third is no whole number.
pub fn ltrim<'a, 't>(arguments: Arguments<'a, 't>) -> Reading<'a, 't>
    ensures { result ≡ ltrim (map cow_slice_items arguments.now) }
{
    match arguments {
        [key, first, last] => Ok(ListAsk::LTrim {
            key: Argument::of(key),
            first: integer(first)?,
            last: integer(last)?,
        }),
        _ => Err(AskFault::Arity(Name::LTrim)),
    }
}

/// `LMOVE from to LEFT|RIGHT LEFT|RIGHT`
///
/// # Errors
///
/// There are not four words, or the third or fourth is neither `LEFT` nor `RIGHT`.
pub fn lmove<'a, 't>(arguments: Arguments<'a, 't>) -> Reading<'a, 't>
    ensures { result ≡ lmove (map cow_slice_items arguments.now) }
{
    match arguments {
        [from, to, taken, put] => Ok(ListAsk::LMove {
            from: Argument::of(from),
            to: Argument::of(to),
            taken: end_of(taken)?,
            put: end_of(put)?,
        }),
        _ => Err(AskFault::Arity(Name::LMove)),
    }
}

/// `RPOPLPUSH from to`
///
/// # Errors
///
/// There are not two words.
pub fn rpoplpush<'a, 't>(arguments: Arguments<'a, 't>) -> Reading<'a, 't>
    ensures { result ≡ rpoplpush (map cow_slice_items arguments.now) }
{
    match arguments {
        [from, to] => Ok(ListAsk::RPopLPush {
            from: Argument::of(from),
            to: Argument::of(to),
        }),
        _ => Err(AskFault::Arity(Name::RPopLPush)),
    }
}
