// What a set has.
ghost use Rattle.std.specs.Prelude.{◌≡◌, IfOk};
ghost use Rattle.std.specs.FinMap as map;
ghost use Rattle.mr_resp.specs.ReplyView.{view};
ghost use Rattle.mr_cmd_set.specs.Sets.{number, flag, flags, bulks};

use mr_arguments::{Argument, Words};
use mr_cmd_shared::{bulk, count};
use mr_resp::Reply;
use mr_value::SetValue;
use std::alloc::{AllocError, Global};

/// 1 where it holds, else 0.
fn flag(holds: bool) -> Reply
    ensures { view result ≡ flag holds }
{
    Reply::Int(if holds { 1 } else { 0 })
}

/// `SISMEMBER`
pub fn sismember(member: &Argument<'_>, set: &SetValue) -> Reply
    ensures { view result ≡ flag (map.contains_key set.now member.now) }
{
    flag(set.contains(member.as_slice()))
}

/// `SMISMEMBER`: whether each of the words is a member, in their order.
pub fn smismember(
    alloc: Global,
    members: &Words<'_, '_>,
    set: &SetValue,
) -> Result<Reply, AllocError>
    ensures { IfOk result (λ r. view r ≡ flags members.now set.now) }
{
    let words = members.as_slice();
    let mut replies = Vec::with_capacity(alloc, words.len())?;
    for word in words {
        replies.push(flag(set.contains(word.as_slice())))?;
    }
    Ok(Reply::Array(replies))
}

/// `SMEMBERS`: in byte order.
pub fn smembers(alloc: Global, set: &SetValue) -> Result<Reply, AllocError>
    ensures { IfOk result (λ r. view r ≡ bulks (map.keys set.now)) }
{
    let mut replies = Vec::with_capacity(alloc, set.len())?;
    for member in set.members() {
        replies.push(bulk(alloc, member)?)?;
    }
    Ok(Reply::Array(replies))
}

/// `SCARD`
pub fn scard(set: &SetValue) -> Reply
    ensures { view result ≡ number (map.len set.now) }
{
    count(set.len())
}
