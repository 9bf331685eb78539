// Effects from their arguments, one function for each.
ghost use Rattle.std.specs.Prelude.{◌≡◌, map, IfOk};
ghost use Rattle.std.specs.Cow.{cow_slice_items};
ghost use Rattle.mr_effect.specs.Reading.{end_of, side_of, place_of, deadline_of, score_of, pairs_of, scores_of, set_of, mset_of, append_of, set_range_of, increase_of, del_of, expire_of, persist_of, rename_of, clear_of, ping_of, set_fields_of, remove_fields_of, push_of, pop_of, set_item_of, insert_item_of, remove_items_of, trim_of, move_item_of, add_members_of, remove_members_of, move_member_of, set_scores_of, remove_scores_of};

use crate::deadline::is_deadline;
use crate::effect::Effect;
use crate::words::{EffectPairs, EffectWords, Scores};
use mr_bytes::{End, Side, Word, read_i64};
use mr_score::is_score;
use std::alloc::{AllocError, Global};
use std::borrow::CowSlice;

/// The word, borrowed.
fn borrowed<'a>(word: &'a CowSlice<'_, u8>) -> Word<'a>
    ensures { result ≡ cow_slice_items word.now }
{
    Word::borrowed(word.as_slice())
}

/// The end of a list that a word names, if it is `LEFT` or `RIGHT` in upper case.
fn end_of(word: &[u8]) -> Option<End>
    ensures { result ≡ end_of word.now }
{
    if word == b"LEFT".as_slice() {
        return Some(End::Left);
    }
    if word == b"RIGHT".as_slice() {
        return Some(End::Right);
    }
    None
}

/// The side of a pivot that a word names, if it is `BEFORE` or `AFTER` in upper case.
fn side_of(word: &[u8]) -> Option<Side>
    ensures { result ≡ side_of word.now }
{
    if word == b"BEFORE".as_slice() {
        return Some(Side::Before);
    }
    if word == b"AFTER".as_slice() {
        return Some(Side::After);
    }
    None
}

/// The place or offset that a word spells, if it is a number from 0 on.
fn place_of(word: &[u8]) -> Option<i64>
    ensures { result ≡ place_of word.now }
{
    let place = read_i64(word)?;
    if place < 0 {
        return None;
    }
    Some(place)
}

/// The deadline that a word spells, in milliseconds, if it is a number within the limits of deadlines.
fn deadline_of(word: &[u8]) -> Option<i64>
    ensures { result ≡ deadline_of word.now }
{
    let deadline = read_i64(word)?;
    if is_deadline(deadline) {
        Some(deadline)
    } else {
        None
    }
}

/// The score that a word spells, if it is a number within the limits of scores.
fn score_of(word: &[u8]) -> Option<i64>
    ensures { result ≡ score_of word.now }
{
    let score = read_i64(word)?;
    if is_score(score) { Some(score) } else { None }
}

/// The keys or fields with their values that words are in turn. None where the last has no value; no word makes no
/// pair.
fn pairs_of<'a>(
    alloc: Global,
    words: &'a [CowSlice<'_, u8>],
) -> Result<Option<EffectPairs<'a>>, AllocError>
    ensures { IfOk result (λ found. found ≡ pairs_of (map cow_slice_items words.now)) }
{
    let mut pairs = EffectPairs::new(alloc);
    let mut rest = words;
    while let [field, value, later @ ..] = rest {
        pairs.push(borrowed(field), borrowed(value))?;
        rest = later;
    }
    if rest.is_empty() {
        Ok(Some(pairs))
    } else {
        Ok(None)
    }
}

/// The members with their scores, where each member stands behind its score. None where a word in a score's place
/// spells none, or the last score has no member.
fn scores_of<'a>(
    alloc: Global,
    words: &'a [CowSlice<'_, u8>],
) -> Result<Option<Scores<'a>>, AllocError>
    ensures { IfOk result (λ found. found ≡ scores_of (map cow_slice_items words.now)) }
{
    let mut scores = Scores::new(alloc);
    let mut rest = words;
    while let [score, member, later @ ..] = rest {
        let Some(number) = score_of(score.as_slice()) else {
            return Ok(None);
        };
        scores.push(borrowed(member), number)?;
        rest = later;
    }
    if rest.is_empty() {
        Ok(Some(scores))
    } else {
        Ok(None)
    }
}

/// The effect of SET with these arguments, if they are a key and a value, with nothing behind them, KEEPTTL, or PXAT
/// and a deadline.
pub(crate) fn set_of<'a>(words: &'a [CowSlice<'_, u8>]) -> Option<Effect<'a>>
    ensures { result ≡ set_of (map cow_slice_items words.now) }
{
    match words {
        [key, value] => Some(Effect::Set {
            key: borrowed(key),
            value: borrowed(value),
        }),
        [key, value, option] if option.as_slice() == b"KEEPTTL".as_slice() => {
            Some(Effect::SetKeeping {
                key: borrowed(key),
                value: borrowed(value),
            })
        }
        [key, value, option, deadline] if option.as_slice() == b"PXAT".as_slice() => {
            Some(Effect::SetUntil {
                key: borrowed(key),
                value: borrowed(value),
                deadline: deadline_of(deadline.as_slice())?,
            })
        }
        _ => None,
    }
}

/// The effect of MSET with these arguments, if they are keys with their values, one at least.
pub(crate) fn mset_of<'a>(
    alloc: Global,
    words: &'a [CowSlice<'_, u8>],
) -> Result<Option<Effect<'a>>, AllocError>
    ensures { IfOk result (λ found. found ≡ mset_of (map cow_slice_items words.now)) }
{
    if words.is_empty() {
        return Ok(None);
    }
    let Some(pairs) = pairs_of(alloc, words)? else {
        return Ok(None);
    };
    Ok(Some(Effect::MSet { pairs }))
}

/// The effect of APPEND with these arguments, if they are a key and a value.
pub(crate) fn append_of<'a>(words: &'a [CowSlice<'_, u8>]) -> Option<Effect<'a>>
    ensures { result ≡ append_of (map cow_slice_items words.now) }
{
    match words {
        [key, value] => Some(Effect::Append {
            key: borrowed(key),
            value: borrowed(value),
        }),
        _ => None,
    }
}

/// The effect of SETRANGE with these arguments, if they are a key, an offset and a value.
pub(crate) fn set_range_of<'a>(words: &'a [CowSlice<'_, u8>]) -> Option<Effect<'a>>
    ensures { result ≡ set_range_of (map cow_slice_items words.now) }
{
    match words {
        [key, offset, value] => Some(Effect::SetRange {
            key: borrowed(key),
            offset: place_of(offset.as_slice())?,
            value: borrowed(value),
        }),
        _ => None,
    }
}

/// The effect of INCRBY with these arguments, if they are a key and a number.
pub(crate) fn increase_of<'a>(words: &'a [CowSlice<'_, u8>]) -> Option<Effect<'a>>
    ensures { result ≡ increase_of (map cow_slice_items words.now) }
{
    match words {
        [key, by] => Some(Effect::Increase {
            key: borrowed(key),
            by: read_i64(by.as_slice())?,
        }),
        _ => None,
    }
}

/// The effect of DEL with these arguments, if they are one key.
pub(crate) fn del_of<'a>(words: &'a [CowSlice<'_, u8>]) -> Option<Effect<'a>>
    ensures { result ≡ del_of (map cow_slice_items words.now) }
{
    match words {
        [key] => Some(Effect::Del { key: borrowed(key) }),
        _ => None,
    }
}

/// The effect of PEXPIREAT with these arguments, if they are a key and a deadline.
pub(crate) fn expire_of<'a>(words: &'a [CowSlice<'_, u8>]) -> Option<Effect<'a>>
    ensures { result ≡ expire_of (map cow_slice_items words.now) }
{
    match words {
        [key, deadline] => Some(Effect::Expire {
            key: borrowed(key),
            deadline: deadline_of(deadline.as_slice())?,
        }),
        _ => None,
    }
}

/// The effect of PERSIST with these arguments, if they are one key.
pub(crate) fn persist_of<'a>(words: &'a [CowSlice<'_, u8>]) -> Option<Effect<'a>>
    ensures { result ≡ persist_of (map cow_slice_items words.now) }
{
    match words {
        [key] => Some(Effect::Persist { key: borrowed(key) }),
        _ => None,
    }
}

/// The effect of RENAME with these arguments, if they are two keys.
pub(crate) fn rename_of<'a>(words: &'a [CowSlice<'_, u8>]) -> Option<Effect<'a>>
    ensures { result ≡ rename_of (map cow_slice_items words.now) }
{
    match words {
        [from, to] => Some(Effect::Rename {
            from: borrowed(from),
            to: borrowed(to),
        }),
        _ => None,
    }
}

/// The effect of FLUSHALL with these arguments, if they are none.
pub(crate) fn clear_of<'a>(words: &'a [CowSlice<'_, u8>]) -> Option<Effect<'a>>
    ensures { result ≡ clear_of (map cow_slice_items words.now) }
{
    match words {
        [] => Some(Effect::Clear),
        _ => None,
    }
}

/// The effect of PING with these arguments, if they are none.
pub(crate) fn ping_of<'a>(words: &'a [CowSlice<'_, u8>]) -> Option<Effect<'a>>
    ensures { result ≡ ping_of (map cow_slice_items words.now) }
{
    match words {
        [] => Some(Effect::Ping),
        _ => None,
    }
}

/// The effect of HSET with these arguments, if they are a key, and fields with their values, one at least.
pub(crate) fn set_fields_of<'a>(
    alloc: Global,
    words: &'a [CowSlice<'_, u8>],
) -> Result<Option<Effect<'a>>, AllocError>
    ensures { IfOk result (λ found. found ≡ set_fields_of (map cow_slice_items words.now)) }
{
    match words {
        [] | [_] => Ok(None),
        [key, rest @ ..] => {
            let Some(pairs) = pairs_of(alloc, rest)? else {
                return Ok(None);
            };
            Ok(Some(Effect::SetFields {
                key: borrowed(key),
                pairs,
            }))
        }
    }
}

/// The effect of HDEL with these arguments, if they are a key and fields, one at least.
pub(crate) fn remove_fields_of<'a>(
    alloc: Global,
    words: &'a [CowSlice<'_, u8>],
) -> Result<Option<Effect<'a>>, AllocError>
    ensures { IfOk result (λ found. found ≡ remove_fields_of (map cow_slice_items words.now)) }
{
    match words {
        [] | [_] => Ok(None),
        [key, rest @ ..] => Ok(Some(Effect::RemoveFields {
            key: borrowed(key),
            fields: EffectWords::borrowed(alloc, rest)?,
        })),
    }
}

/// The effect of LPUSH or RPUSH, by the end, with these arguments, if they are a key and items, one at least.
pub(crate) fn push_of<'a>(
    alloc: Global,
    end: End,
    words: &'a [CowSlice<'_, u8>],
) -> Result<Option<Effect<'a>>, AllocError>
    ensures { IfOk result (λ found. found ≡ push_of end (map cow_slice_items words.now)) }
{
    match words {
        [] | [_] => Ok(None),
        [key, rest @ ..] => Ok(Some(Effect::Push {
            key: borrowed(key),
            end,
            items: EffectWords::borrowed(alloc, rest)?,
        })),
    }
}

/// The effect of LPOP or RPOP, by the end, with these arguments, if they are a key and a count.
pub(crate) fn pop_of<'a>(end: End, words: &'a [CowSlice<'_, u8>]) -> Option<Effect<'a>>
    ensures { result ≡ pop_of end (map cow_slice_items words.now) }
{
    match words {
        [key, count] => Some(Effect::Pop {
            key: borrowed(key),
            end,
            count: read_i64(count.as_slice())?,
        }),
        _ => None,
    }
}

/// The effect of LSET with these arguments, if they are a key, a place from the front and an item.
pub(crate) fn set_item_of<'a>(words: &'a [CowSlice<'_, u8>]) -> Option<Effect<'a>>
    ensures { result ≡ set_item_of (map cow_slice_items words.now) }
{
    match words {
        [key, place, item] => Some(Effect::SetItem {
            key: borrowed(key),
            place: place_of(place.as_slice())?,
            item: borrowed(item),
        }),
        _ => None,
    }
}

/// The effect of LINSERT with these arguments, if they are a key, a side, a pivot and an item.
pub(crate) fn insert_item_of<'a>(words: &'a [CowSlice<'_, u8>]) -> Option<Effect<'a>>
    ensures { result ≡ insert_item_of (map cow_slice_items words.now) }
{
    match words {
        [key, side, pivot, item] => Some(Effect::InsertItem {
            key: borrowed(key),
            side: side_of(side.as_slice())?,
            pivot: borrowed(pivot),
            item: borrowed(item),
        }),
        _ => None,
    }
}

/// The effect of LREM with these arguments, if they are a key, a count and an item.
pub(crate) fn remove_items_of<'a>(words: &'a [CowSlice<'_, u8>]) -> Option<Effect<'a>>
    ensures { result ≡ remove_items_of (map cow_slice_items words.now) }
{
    match words {
        [key, count, item] => Some(Effect::RemoveItems {
            key: borrowed(key),
            count: read_i64(count.as_slice())?,
            item: borrowed(item),
        }),
        _ => None,
    }
}

/// The effect of LTRIM with these arguments, if they are a key, a first and a last place.
pub(crate) fn trim_of<'a>(words: &'a [CowSlice<'_, u8>]) -> Option<Effect<'a>>
    ensures { result ≡ trim_of (map cow_slice_items words.now) }
{
    match words {
        [key, first, last] => Some(Effect::Trim {
            key: borrowed(key),
            first: read_i64(first.as_slice())?,
            last: read_i64(last.as_slice())?,
        }),
        _ => None,
    }
}

/// The effect of LMOVE with these arguments, if they are two keys and two ends.
pub(crate) fn move_item_of<'a>(words: &'a [CowSlice<'_, u8>]) -> Option<Effect<'a>>
    ensures { result ≡ move_item_of (map cow_slice_items words.now) }
{
    match words {
        [from, to, taken, put] => Some(Effect::MoveItem {
            from: borrowed(from),
            to: borrowed(to),
            taken: end_of(taken.as_slice())?,
            put: end_of(put.as_slice())?,
        }),
        _ => None,
    }
}

/// The effect of SADD with these arguments, if they are a key and members, one at least.
pub(crate) fn add_members_of<'a>(
    alloc: Global,
    words: &'a [CowSlice<'_, u8>],
) -> Result<Option<Effect<'a>>, AllocError>
    ensures { IfOk result (λ found. found ≡ add_members_of (map cow_slice_items words.now)) }
{
    match words {
        [] | [_] => Ok(None),
        [key, rest @ ..] => Ok(Some(Effect::AddMembers {
            key: borrowed(key),
            members: EffectWords::borrowed(alloc, rest)?,
        })),
    }
}

/// The effect of SREM with these arguments, if they are a key and members, one at least.
pub(crate) fn remove_members_of<'a>(
    alloc: Global,
    words: &'a [CowSlice<'_, u8>],
) -> Result<Option<Effect<'a>>, AllocError>
    ensures { IfOk result (λ found. found ≡ remove_members_of (map cow_slice_items words.now)) }
{
    match words {
        [] | [_] => Ok(None),
        [key, rest @ ..] => Ok(Some(Effect::RemoveMembers {
            key: borrowed(key),
            members: EffectWords::borrowed(alloc, rest)?,
        })),
    }
}

/// The effect of SMOVE with these arguments, if they are two keys and a member.
pub(crate) fn move_member_of<'a>(words: &'a [CowSlice<'_, u8>]) -> Option<Effect<'a>>
    ensures { result ≡ move_member_of (map cow_slice_items words.now) }
{
    match words {
        [from, to, member] => Some(Effect::MoveMember {
            from: borrowed(from),
            to: borrowed(to),
            member: borrowed(member),
        }),
        _ => None,
    }
}

/// The effect of ZADD with these arguments, if they are a key, and scores each with its member, one at least.
pub(crate) fn set_scores_of<'a>(
    alloc: Global,
    words: &'a [CowSlice<'_, u8>],
) -> Result<Option<Effect<'a>>, AllocError>
    ensures { IfOk result (λ found. found ≡ set_scores_of (map cow_slice_items words.now)) }
{
    match words {
        [] | [_] => Ok(None),
        [key, rest @ ..] => {
            let Some(scores) = scores_of(alloc, rest)? else {
                return Ok(None);
            };
            Ok(Some(Effect::SetScores {
                key: borrowed(key),
                scores,
            }))
        }
    }
}

/// The effect of ZREM with these arguments, if they are a key and members, one at least.
pub(crate) fn remove_scores_of<'a>(
    alloc: Global,
    words: &'a [CowSlice<'_, u8>],
) -> Result<Option<Effect<'a>>, AllocError>
    ensures { IfOk result (λ found. found ≡ remove_scores_of (map cow_slice_items words.now)) }
{
    match words {
        [] | [_] => Ok(None),
        [key, rest @ ..] => Ok(Some(Effect::RemoveScores {
            key: borrowed(key),
            members: EffectWords::borrowed(alloc, rest)?,
        })),
    }
}
