// ROLE's reply.
ghost use Rattle.std.specs.Prelude.{◌≡◌, IfOk, map, option_map, pos, unwrap_or};
ghost use Rattle.std.specs.Fmt.{signed_decimal};
ghost use Rattle.mr_resp.specs.Replies.{bytes, int};
ghost use Rattle.mr_resp.specs.ReplyView.{trees_of, view, views};
ghost use Rattle.mr_info.specs.Roles.{link_word, master_reply, replica_reply, replica_tree};

use itoa::Buffer;
use mr_repl::Backlog;
use mr_resp::Reply;
use std::alloc::{AllocError, Global};

/// A replica, as its master tells of it.
#[derive(Clone, Copy, Debug)]
pub struct Replica<'a> {
    /// The address that it gave, if any: any bytes.
    pub address: Option<&'a [u8]>,
    /// The port that it gave, if any: any bytes.
    pub port: Option<&'a [u8]>,
    /// The offset in bytes that it acknowledged last, if any.
    pub acknowledged: Option<i64>,
}

/// Where a replica's link to its master stands.
#[derive(Clone, Copy, Debug, PartialEq, Eq)]
pub enum MasterLink {
    /// There is none.
    Connect,
    /// It is there, and its stream hasn't begun.
    Sync,
    /// Its stream comes.
    Connected,
}

/// What ROLE is answered by a master with this stream and these replicas: its name, its offset, and of each replica its address, or
/// nothing where it gave none, its port and the offset that it acknowledged, each 0 where there is none.
pub fn master_role(
    alloc: Global,
    stream: &Backlog,
    replicas: &[Replica],
) -> Result<Reply, AllocError>
    ensures { IfOk result (λ reply. view reply ≡ master_reply stream.now.offset replicas.now) }
{
    let mut parts = Vec::with_capacity(alloc, 3)?;
    parts.push(Reply::bulk(alloc, b"master")?)?;
    parts.push(offset_of(stream))?;
    parts.push(Reply::Array(replies_of(alloc, replicas)?))?;
    Ok(Reply::Array(parts))
}

/// What ROLE tells of replicas, in their order.
fn replies_of(alloc: Global, replicas: &[Replica]) -> Result<Vec<Reply>, AllocError>
    ensures { IfOk result (λ replies.
        views replies.items ≡ trees_of (map replica_tree replicas.now)) }
{
    let mut replies = Vec::with_capacity(alloc, replicas.len())?;
    for replica in replicas {
        replies.push(reply_of(alloc, replica)?)?;
    }
    Ok(replies)
}

/// What ROLE tells of a replica: its address, its port, and the offset in bytes that it acknowledged last.
fn reply_of(alloc: Global, replica: &Replica) -> Result<Reply, AllocError>
    ensures { IfOk result (λ reply. view reply ≡ replica_tree replica.now) }
{
    let mut parts = Vec::with_capacity(alloc, 3)?;
    parts.push(bulk_or(alloc, replica.address, b"")?)?;
    parts.push(bulk_or(alloc, replica.port, b"0")?)?;
    parts.push(number(alloc, replica.acknowledged.unwrap_or(0))?)?;
    Ok(Reply::Array(parts))
}

/// What ROLE is answered by a replica with this stream, of the master at this host and port: its name, those two, how far it has come
/// with the link to it, and its offset.
pub fn replica_role(
    alloc: Global,
    stream: &Backlog,
    host: &[u8],
    port: u16,
    link: MasterLink,
) -> Result<Reply, AllocError>
    ensures { IfOk result (λ reply.
        view reply ≡ replica_reply stream.now.offset host.now port link) }
{
    let mut parts = Vec::with_capacity(alloc, 5)?;
    parts.push(Reply::bulk(alloc, b"slave")?)?;
    parts.push(Reply::bulk(alloc, host)?)?;
    parts.push(Reply::Int(i64::from(port)))?;
    parts.push(Reply::bulk(alloc, link_word(link))?)?;
    parts.push(offset_of(stream))?;
    Ok(Reply::Array(parts))
}

/// The word for where a replica's link to its master stands.
fn link_word(link: MasterLink) -> &'static [u8]
    ensures { result.now ≡ link_word link }
{
    match link {
        MasterLink::Connect => b"connect",
        MasterLink::Sync => b"sync",
        MasterLink::Connected => b"connected",
    }
}

/// The offset of a stream, in bytes.
fn offset_of(stream: &Backlog) -> Reply
    ensures { view result ≡ int (pos stream.now.offset) }
{
    Reply::Int(stream.end() as i64)
}

/// What was given, or else the other.
fn bulk_or(alloc: Global, given: Option<&[u8]>, other: &[u8]) -> Result<Reply, AllocError>
    ensures { IfOk result (λ reply.
        view reply ≡ bytes (unwrap_or (option_map (λ word. word.now) given.entry) other.now)) }
{
    match given {
        Some(word) => Reply::bulk(alloc, word),
        None => Reply::bulk(alloc, other),
    }
}

/// The decimal text of a number, as a reply.
fn number(alloc: Global, number: i64) -> Result<Reply, AllocError>
    ensures { IfOk result (λ reply. view reply ≡ bytes (signed_decimal number)) }
{
    let mut buffer = Buffer::new();
    Reply::bulk(alloc, buffer.format(number).as_bytes())
}
