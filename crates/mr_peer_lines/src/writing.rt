// What a master says before the stream: the lines that answer PSYNC, and the line in front of a snapshot.
ghost use Rattle.std.specs.Prelude.{◌≡◌, ◌≤◌, ◌++◌, OnOk, OnErr};
ghost use Rattle.std.specs.List.{flat_map};
ghost use Rattle.mr_resp.specs.Appends.{Extends};
ghost use Rattle.mr_repl.specs.Backlog.{offset_limit};
ghost use Rattle.mr_peer_lines.specs.Lines.{IsPeerLine, size};
ghost use Rattle.mr_peer_lines.specs.Written.{length_line, reply_line, SaysReply};
ghost use Rattle.mr_peer_lines.specs.declared.psync.PsyncReply.TheVariants as reply;

use itoa::Buffer;
use mr_repl::ReplId;
use std::alloc::AllocError;

/// Appends the line by which a master answers PSYNC with a full resynchronization: a snapshot follows, of the stream under this id
/// up to this offset in bytes. An `Err` changes nothing.
pub fn write_full(id: ReplId, offset: u64, out: &mut Vec<u8>) -> Result<(), AllocError>
    requires { offset ≤ offset_limit }
    ensures ok { OnOk result (out.new.items ≡
        out.old.items ++ reply_line (reply.FullResync id offset)) }
    ensures err { OnErr result (out.new.items ≡ out.old.items) }
    ensures says { SaysReply (reply_line (reply.FullResync id offset))
        (reply.FullResync id offset) }
{
    let _ = id.bytes();
    let digits = id.digits();
    let mut buffer = Buffer::new();
    let number = buffer.format(offset).as_bytes();
    write_pieces(&[b"+FULLRESYNC ", &digits, b" ", number, b"\r\n"], out)
}

/// Appends the line by which a master answers PSYNC where the stream goes on from the offset that was asked for, under this id. An
/// `Err` changes nothing.
pub fn write_continue(id: ReplId, out: &mut Vec<u8>) -> Result<(), AllocError>
    ensures ok { OnOk result (out.new.items ≡ out.old.items ++ reply_line (reply.Continue id)) }
    ensures err { OnErr result (out.new.items ≡ out.old.items) }
    ensures says { SaysReply (reply_line (reply.Continue id)) (reply.Continue id) }
{
    let _ = id.bytes();
    write_pieces(&[b"+CONTINUE ", &id.digits(), b"\r\n"], out)
}

/// Appends the line in front of a snapshot of so many bytes. No line end follows the snapshot. An `Err` changes nothing.
pub fn write_length(length: u64, out: &mut Vec<u8>) -> Result<(), AllocError>
    requires { length ≤ offset_limit }
    ensures ok { OnOk result (out.new.items ≡ out.old.items ++ length_line length) }
    ensures err { OnErr result (out.new.items ≡ out.old.items) }
    ensures says { IsPeerLine (length_line length) (size length) }
{
    let mut buffer = Buffer::new();
    let number = buffer.format(length).as_bytes();
    write_pieces(&[b"$", number, b"\r\n"], out)
}

/// Appends all the pieces. An `Err` changes nothing.
#[tactic(auto, using(mr_resp::proofs::AppendsLemmas::take_Extends))]
fn write_pieces(pieces: &[&[u8]], out: &mut Vec<u8>) -> Result<(), AllocError>
    ensures ok { OnOk result (out.new.items ≡
        out.old.items ++ flat_map (λ piece. piece.now) pieces.now) }
    ensures err { OnErr result (out.new.items ≡ out.old.items) }
{
    let start = out.len();
    let written = push_pieces(pieces, out);
    if written.is_err() {
        out.truncate(start);
    }
    written
}

/// Appends all the pieces. After an `Err` some of their bytes may stand behind what was there.
#[tactic(auto, using(mr_resp::proofs::AppendsLemmas::Extends_steps))]
fn push_pieces(pieces: &[&[u8]], out: &mut Vec<u8>) -> Result<(), AllocError>
    ensures ok { OnOk result (out.new.items ≡
        out.old.items ++ flat_map (λ piece. piece.now) pieces.now) }
    ensures kept { Extends out.old.items out.new.items }
{
    for piece in pieces {
        out.extend_from_slice(piece)?;
    }
    Ok(())
}
