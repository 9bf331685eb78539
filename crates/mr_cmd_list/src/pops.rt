// Items taken from an end of a list.
ghost use Rattle.std.specs.Prelude.{◌≡◌, ◌≤◌, min, length, map, IfOk, option_copied};
ghost use Rattle.mr_resp.specs.ReplyView.{view};
ghost use Rattle.mr_cmd_shared.specs.Answered.{Takes};
ghost use Rattle.mr_cmd_list.specs.Lists.{entry_with, items_reply};
ghost use Rattle.mr_cmd_list.specs.Pops.{pop_answer, taken_items};

use crate::ends::end_item;
use mr_arguments::Argument;
use mr_bytes::{End, Word};
use mr_cmd_shared::{Effects, bulk};
use mr_data::Effect;
use mr_resp::Reply;
use mr_value::ListValue;
use std::alloc::{AllocError, Global};

/// `LPOP`, `RPOP`
pub fn pop(
    key: &Argument<'_>,
    end: End,
    count: Option<usize>,
    list: Option<&ListValue>,
    effects: &mut Effects,
) -> Result<Reply, AllocError>
    ensures { IfOk result (λ r.
        Takes (pop_answer key.now end count (entry_with (option_copied list.entry))) (view r)
        effects.old effects.new) }
{
    match count {
        None => pop_one(key, end, list, effects),
        Some(most) => pop_some(key, end, most, list, effects),
    }
}

/// `LPOP` or `RPOP` without a count: the item at the end, or nil.
fn pop_one(
    key: &Argument<'_>,
    end: End,
    list: Option<&ListValue>,
    effects: &mut Effects,
) -> Result<Reply, AllocError>
    ensures { IfOk result (λ r.
        Takes (pop_answer key.now end None (entry_with (option_copied list.entry))) (view r)
        effects.old effects.new) }
{
    let alloc = effects.alloc();
    let Some(list) = list else {
        return Ok(Reply::NullBulk);
    };
    let Some(item) = end_item(list, end) else {
        return Ok(Reply::NullBulk);
    };
    let reply = bulk(alloc, item)?;
    effects.push(Effect::Pop {
        key: Word::copied(alloc, key.as_slice())?,
        end,
        count: 1,
    })?;
    Ok(reply)
}

/// `LPOP` or `RPOP` with a count: at most so many items from the end on, or nil where there is no key.
fn pop_some(
    key: &Argument<'_>,
    end: End,
    most: usize,
    list: Option<&ListValue>,
    effects: &mut Effects,
) -> Result<Reply, AllocError>
    ensures { IfOk result (λ r.
        Takes (pop_answer key.now end (Some most) (entry_with (option_copied list.entry))) (view r)
        effects.old effects.new) }
{
    let alloc = effects.alloc();
    let Some(list) = list else {
        return Ok(Reply::NullArray);
    };
    let count = most.min(list.len());
    let reply = taken(alloc, list, end, count)?;
    if count != 0 {
        effects.push(Effect::Pop {
            key: Word::copied(alloc, key.as_slice())?,
            end,
            count: count as i64,
        })?;
    }
    Ok(reply)
}

/// The answer of so many items at an end, in the order in which they are taken.
fn taken(alloc: Global, list: &ListValue, end: End, count: usize) -> Result<Reply, AllocError>
    requires { count ≤ length list.now }
    ensures { IfOk result (λ r. view r ≡ items_reply (taken_items end count list.now)) }
{
    let mut replies = Vec::with_capacity(alloc, count)?;
    for i in 0..count {
        let place = match end {
            End::Left => i,
            End::Right => list.len() - 1 - i,
        };
        match list.get(place) {
            Some(item) => replies.push(bulk(alloc, item)?)?,
            None => unreachable!(),
        }
    }
    Ok(Reply::Array(replies))
}
