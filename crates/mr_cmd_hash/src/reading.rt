// What a hash has.
ghost use Rattle.std.specs.Prelude.{◌≡◌, ◌<◌, ◌^◌, IfOk, option_copied};
ghost use Rattle.mr_resp.specs.ReplyView.{view};
ghost use Rattle.mr_cmd_hash.specs.Hashes.{value_reply, hget, hmget, list_hash, hexists, hlen, hstrlen};

use crate::hash_ask::HashPart;
use mr_arguments::{Argument, Words};
use mr_cmd_shared::{count, integer};
use mr_resp::Reply;
use mr_value::Hash;
use std::alloc::{AllocError, Global};

/// A value as it is answered, or nil.
fn value(alloc: Global, value: Option<&[u8]>) -> Result<Reply, AllocError>
    ensures { IfOk result (λ r. view r ≡ value_reply (option_copied value.entry)) }
{
    match value {
        None => Ok(Reply::NullBulk),
        Some(value) => Reply::bulk(alloc, value),
    }
}

/// `HGET`
pub fn hget(alloc: Global, field: &Argument<'_>, hash: &Hash) -> Result<Reply, AllocError>
    ensures { IfOk result (λ r. view r ≡ (hget field.now hash.now).reply) }
{
    value(alloc, hash.get(field.as_slice()))
}

/// `HMGET`
pub fn hmget(alloc: Global, fields: &Words<'_, '_>, hash: &Hash) -> Result<Reply, AllocError>
    ensures { IfOk result (λ r. view r ≡ (hmget fields.now hash.now).reply) }
{
    let fields = fields.as_slice();
    let mut replies = Vec::with_capacity(alloc, fields.len())?;
    for field in fields {
        replies.push(value(alloc, hash.get(field.as_slice()))?)?;
    }
    Ok(Reply::Array(replies))
}

/// `HGETALL`, `HKEYS`, `HVALS`
pub fn list_hash(alloc: Global, part: HashPart, hash: &Hash) -> Result<Reply, AllocError>
    ensures { IfOk result (λ r. view r ≡ (list_hash part hash.now).reply) }
{
    match part {
        HashPart::Pairs => pairs(alloc, hash),
        HashPart::Fields => fields(alloc, hash),
        HashPart::Values => values(alloc, hash),
    }
}

/// `HEXISTS`
pub fn hexists(field: &Argument<'_>, hash: &Hash) -> Reply
    ensures { view result ≡ (hexists field.now hash.now).reply }
{
    integer(i64::from(hash.contains(field.as_slice())))
}

/// `HLEN`
pub fn hlen(hash: &Hash) -> Reply
    ensures { view result ≡ (hlen hash.now).reply }
{
    count(hash.len())
}

/// `HSTRLEN`
pub fn hstrlen(field: &Argument<'_>, hash: &Hash) -> Reply
    ensures { view result ≡ (hstrlen field.now hash.now).reply }
{
    match hash.get(field.as_slice()) {
        None => count(0),
        Some(value) => count(value.len()),
    }
}

/// What `HGETALL` answers: each field with its value behind it, in byte order of fields.
fn pairs(alloc: Global, hash: &Hash) -> Result<Reply, AllocError>
    ensures { IfOk result (λ r. view r ≡ (list_hash HashPart.Pairs hash.now).reply) }
{
    let mut replies = Vec::with_capacity(alloc, hash.len() * 2)?;
    for (field, value) in hash.iter() {
        replies.push(Reply::bulk(alloc, field)?)?;
        replies.push(Reply::bulk(alloc, value)?)?;
    }
    Ok(Reply::Array(replies))
}

/// What `HKEYS` answers: the fields, in byte order.
fn fields(alloc: Global, hash: &Hash) -> Result<Reply, AllocError>
    ensures { IfOk result (λ r. view r ≡ (list_hash HashPart.Fields hash.now).reply) }
{
    let mut replies = Vec::with_capacity(alloc, hash.len())?;
    for field in hash.fields() {
        replies.push(Reply::bulk(alloc, field)?)?;
    }
    Ok(Reply::Array(replies))
}

/// What `HVALS` answers: the values, in byte order of their fields.
fn values(alloc: Global, hash: &Hash) -> Result<Reply, AllocError>
    ensures { IfOk result (λ r. view r ≡ (list_hash HashPart.Values hash.now).reply) }
{
    let mut replies = Vec::with_capacity(alloc, hash.len())?;
    for (_, value) in hash.iter() {
        replies.push(Reply::bulk(alloc, value)?)?;
    }
    Ok(Reply::Array(replies))
}
