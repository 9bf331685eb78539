// Commands that tell of a list.
ghost use Rattle.std.specs.Prelude.{◌≡◌, IfOk, option_copied};
ghost use Rattle.mr_resp.specs.ReplyView.{view};
ghost use Rattle.mr_cmd_list.specs.Lists.{entry_with};
ghost use Rattle.mr_cmd_list.specs.Telling.{llen_answer, lrange_answer, lindex_answer};

use crate::replies::{listed, none_listed};
use mr_bytes::{place, window};
use mr_cmd_shared::{bulk, integer};
use mr_resp::Reply;
use mr_value::ListValue;
use std::alloc::{AllocError, Global};

/// How many items there are.
pub fn llen(list: Option<&ListValue>) -> Reply
    ensures { view result ≡ (llen_answer (entry_with (option_copied list.entry))).reply }
{
    let Some(list) = list else {
        return integer(0);
    };
    integer(list.len() as i64)
}

/// The items between two indexes, both included.
pub fn lrange(
    alloc: Global,
    first: i64,
    last: i64,
    list: Option<&ListValue>,
) -> Result<Reply, AllocError>
    ensures { IfOk result (λ r.
        view r ≡ (lrange_answer first last (entry_with (option_copied list.entry))).reply) }
{
    let Some(list) = list else {
        return Ok(none_listed(alloc));
    };
    let Some((first, last)) = window(first, last, list.len()) else {
        return Ok(none_listed(alloc));
    };
    listed(alloc, list.range(first, last), last - first + 1)
}

/// The item that an index names.
pub fn lindex(alloc: Global, index: i64, list: Option<&ListValue>) -> Result<Reply, AllocError>
    ensures { IfOk result (λ r.
        view r ≡ (lindex_answer index (entry_with (option_copied list.entry))).reply) }
{
    let Some(list) = list else {
        return Ok(Reply::NullBulk);
    };
    let Some(place) = place(index, list.len()) else {
        return Ok(Reply::NullBulk);
    };
    match list.get(place) {
        Some(item) => bulk(alloc, item),
        None => Ok(Reply::NullBulk),
    }
}
