// Items of a list replaced, inserted and removed.
ghost use Rattle.std.specs.Prelude.{◌≡◌, ◌<◌, ◌^◌, IfOk, option_copied};
ghost use Rattle.mr_resp.specs.ReplyView.{view};
ghost use Rattle.mr_value.specs.Lists.{removed_count, count_of};
ghost use Rattle.mr_cmd_shared.specs.Answered.{Takes};
ghost use Rattle.mr_cmd_list.specs.Lists.{entry_with};
ghost use Rattle.mr_cmd_list.specs.Edits.{lset_answer, linsert_answer, lrem_answer, ltrim_answer, is_item};

use crate::replies::{no_such_key, out_of_range};
use mr_arguments::Argument;
use mr_bytes::{Side, Word, place, window};
use mr_cmd_shared::{Effects, done, integer};
use mr_data::Effect;
use mr_resp::Reply;
use mr_value::ListValue;
use std::alloc::AllocError;

/// Another item in the place that an index names.
pub fn lset(
    key: &Argument<'_>,
    index: i64,
    item: &Argument<'_>,
    list: Option<&ListValue>,
    effects: &mut Effects,
) -> Result<Reply, AllocError>
    ensures { IfOk result (λ r.
        Takes (lset_answer key.now index item.now (entry_with (option_copied list.entry))) (view r)
        effects.old effects.new) }
{
    let alloc = effects.alloc();
    let Some(list) = list else {
        return Ok(no_such_key());
    };
    let Some(place) = place(index, list.len()) else {
        return Ok(out_of_range());
    };
    if !is_item(item.as_slice(), list.get(place)) {
        effects.push(Effect::SetItem {
            key: Word::copied(alloc, key.as_slice())?,
            place: place as i64,
            item: Word::copied(alloc, item.as_slice())?,
        })?;
    }
    Ok(done())
}

/// Whether this item is there already.
fn is_item(item: &[u8], there: Option<&[u8]>) -> bool
    ensures { result ≡ is_item item.now (option_copied there.entry) }
{
    match there {
        None => false,
        Some(there) => there == item,
    }
}

/// An item to be put beside the first item that equals a pivot.
#[derive(Drop)]
pub struct Insertion<'w, 'a> {
    pub side: Side,
    pub pivot: &'w Argument<'a>,
    pub item: &'w Argument<'a>,
}

/// An item beside the first pivot.
pub fn linsert(
    key: &Argument<'_>,
    asked: &Insertion<'_, '_>,
    list: Option<&ListValue>,
    effects: &mut Effects,
) -> Result<Reply, AllocError>
    ensures { IfOk result (λ r.
        Takes (linsert_answer key.now asked.now.side asked.now.pivot.now asked.now.item.now
        (entry_with (option_copied list.entry))) (view r) effects.old effects.new) }
{
    let alloc = effects.alloc();
    let Some(list) = list else {
        return Ok(integer(0));
    };
    if list.position(asked.pivot.as_slice()).is_none() {
        return Ok(integer(-1));
    }
    effects.push(Effect::InsertItem {
        key: Word::copied(alloc, key.as_slice())?,
        side: asked.side,
        pivot: Word::copied(alloc, asked.pivot.as_slice())?,
        item: Word::copied(alloc, asked.item.as_slice())?,
    })?;
    Ok(integer((list.len() + 1) as i64))
}

/// Items that equal one removed.
pub fn lrem(
    key: &Argument<'_>,
    count: i64,
    item: &Argument<'_>,
    list: Option<&ListValue>,
    effects: &mut Effects,
) -> Result<Reply, AllocError>
    ensures { IfOk result (λ r.
        Takes (lrem_answer key.now count item.now (entry_with (option_copied list.entry))) (view r)
        effects.old effects.new) }
{
    let alloc = effects.alloc();
    let Some(list) = list else {
        return Ok(integer(0));
    };
    let removed = removed_count(list, count, item.as_slice());
    if removed != 0 {
        effects.push(Effect::RemoveItems {
            key: Word::copied(alloc, key.as_slice())?,
            count,
            item: Word::copied(alloc, item.as_slice())?,
        })?;
    }
    Ok(integer(removed as i64))
}

/// How many items go, where so many that equal one are to be removed.
fn removed_count(list: &ListValue, count: i64, item: &[u8]) -> usize
    ensures count { result ≡ removed_count count (count_of item.now list.now) }
    ensures small { result < 2 ^ 63 }
{
    let len = list.len();
    let removed = list.count_removed(count, item);
    prove!(removed <= len);
    removed
}

/// The items between two indexes alone, both included.
pub fn ltrim(
    key: &Argument<'_>,
    first: i64,
    last: i64,
    list: Option<&ListValue>,
    effects: &mut Effects,
) -> Result<Reply, AllocError>
    ensures { IfOk result (λ r.
        Takes (ltrim_answer key.now first last (entry_with (option_copied list.entry))) (view r)
        effects.old effects.new) }
{
    let alloc = effects.alloc();
    let Some(list) = list else {
        return Ok(done());
    };
    let len = list.len();
    let Some((first, last)) = window(first, last, len) else {
        effects.push(Effect::Del {
            key: Word::copied(alloc, key.as_slice())?,
        })?;
        return Ok(done());
    };
    if first > 0 || last + 1 < len {
        effects.push(Effect::Trim {
            key: Word::copied(alloc, key.as_slice())?,
            first: first as i64,
            last: last as i64,
        })?;
    }
    Ok(done())
}
