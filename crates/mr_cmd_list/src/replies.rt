// Replies, and what they are made of.
ghost use Rattle.std.specs.Prelude.{◌≡◌, [], IfOk};
ghost use Rattle.mr_resp.specs.ReplyView.{view};
ghost use Rattle.mr_cmd_list.specs.Lists.{items_reply, no_such_key, out_of_range};

use mr_cmd_shared::bulk;
use mr_resp::Reply;
use mr_value::Items;
use std::alloc::{AllocError, Global};
use std::borrow::CowSlice;

/// There is no such key.
pub fn no_such_key() -> Reply
    ensures { view result ≡ no_such_key }
{
    Reply::Error(CowSlice::Borrowed(b"ERR no such key"))
}

/// The index names no item.
pub fn out_of_range() -> Reply
    ensures { view result ≡ out_of_range }
{
    Reply::Error(CowSlice::Borrowed(b"ERR index out of range"))
}

/// The items, of which there are so many, copied.
pub fn listed(alloc: Global, items: Items<'_>, count: usize) -> Result<Reply, AllocError>
    ensures { IfOk result (λ r. view r ≡ items_reply items.entry) }
{
    let mut replies = Vec::with_capacity(alloc, count)?;
    for item in items {
        replies.push(bulk(alloc, item)?)?;
    }
    Ok(Reply::Array(replies))
}

/// No item.
pub fn none_listed(alloc: Global) -> Reply
    ensures { view result ≡ items_reply [] }
{
    Reply::Array(Vec::new(alloc))
}
