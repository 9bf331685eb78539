// INFO's section on replication.
ghost use Rattle.std.specs.Prelude.{◌≡◌, ◌++◌, IfOk, OnOk, codes, decimal};
ghost use Rattle.mr_info.specs.Info.{info_text, line, role_text, second_id_text, second_offset_text};

use itoa::Buffer;
use mr_repl::{Lineage, ReplId};
use std::alloc::{AllocError, Global};

/// The digits of the id that stands for none.
const NO_ID: &[u8] = b"0000000000000000000000000000000000000000";

/// The offset that stands for none.
const NO_OFFSET: &[u8] = b"-1";

/// INFO's section on replication: of a master or of a replica (true), which so many links follow that are open and were answered
/// CONTINUE or FULLRESYNC; of its stream, under its id, and the id before it with the offset from which on that one's stream is another.
/// A line has the name of a field and its value. Offsets and sizes are in bytes.
pub fn info(
    alloc: Global,
    replica: bool,
    followers: usize,
    lineage: &Lineage,
) -> Result<Vec<u8>, AllocError>
    ensures { IfOk result (λ text. text.items ≡ info_text replica followers lineage.now) }
{
    let stream = lineage.stream();
    let second = lineage.second();
    let mut text = Vec::from_slice(alloc, b"# Replication\r\n")?;
    push_field(&mut text, b"role", role_text(replica))?;
    push_number(&mut text, b"connected_slaves", followers as u64)?;
    push_field(&mut text, b"master_replid", &lineage.id().digits())?;
    push_second_id(&mut text, &second)?;
    push_number(&mut text, b"master_repl_offset", stream.end())?;
    push_second_offset(&mut text, &second)?;
    push_number(&mut text, b"repl_backlog_active", 1)?;
    push_number(&mut text, b"repl_backlog_size", stream.capacity() as u64)?;
    push_number(&mut text, b"repl_backlog_first_byte_offset", stream.first())?;
    push_number(&mut text, b"repl_backlog_histlen", stream.len() as u64)?;
    Ok(text)
}

/// The name of a replica's or of a master's role.
fn role_text(replica: bool) -> &'static [u8]
    ensures { result.now ≡ role_text replica }
{
    if replica { b"slave" } else { b"master" }
}

/// Puts the line of the id before behind the text.
fn push_second_id(text: &mut Vec<u8>, second: &Option<(ReplId, u64)>) -> Result<(), AllocError>
    ensures { OnOk result (text.new.items ≡
        text.old.items ++ line (codes "master_replid2") (second_id_text second.now)) }
{
    match second {
        Some((id, _)) => push_field(text, b"master_replid2", &id.digits()),
        None => push_field(text, b"master_replid2", NO_ID),
    }
}

/// Puts the line of the offset at which the id before ends behind the text.
fn push_second_offset(text: &mut Vec<u8>, second: &Option<(ReplId, u64)>) -> Result<(), AllocError>
    ensures { OnOk result (text.new.items ≡
        text.old.items ++ line (codes "second_repl_offset") (second_offset_text second.now)) }
{
    match second {
        Some((_, offset)) => push_number(text, b"second_repl_offset", *offset),
        None => push_field(text, b"second_repl_offset", NO_OFFSET),
    }
}

/// Puts a line behind the text.
#[tactic(auto, unfolding(crate::specs::Info::line))]
fn push_field(text: &mut Vec<u8>, name: &[u8], value: &[u8]) -> Result<(), AllocError>
    ensures { OnOk result (text.new.items ≡ text.old.items ++ line name.now value.now) }
{
    text.extend_from_slice(name)?;
    text.push(b':')?;
    text.extend_from_slice(value)?;
    text.extend_from_slice(b"\r\n")
}

/// Puts the line of a field that is a number behind the text.
fn push_number(text: &mut Vec<u8>, name: &[u8], value: u64) -> Result<(), AllocError>
    ensures { OnOk result (text.new.items ≡ text.old.items ++ line name.now (decimal value)) }
{
    let mut buffer = Buffer::new();
    push_field(text, name, buffer.format(value).as_bytes())
}
