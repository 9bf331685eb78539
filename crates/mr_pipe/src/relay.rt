// A whole input, answered.
ghost use Rattle.std.specs.Prelude.{◌≡◌, ◌⊎◌, ◌++◌, ◌<◌, ℕ, List, [], Option, IfOk, IfErr, OnErr, IsErrOf, length, take};
ghost use Rattle.std.specs.Io.KnownBytes.{Consumes, IsAtEnd, Keeps};
ghost use Rattle.mr_pipe.specs.State.{PipeState, Stands};
ghost use Rattle.mr_pipe.specs.Outside.{Outside, outside};
ghost use Rattle.mr_pipe.specs.Serving.{Drained};
ghost use Rattle.mr_pipe.specs.Piped.{IsRound, IsPiped, IsPipedAlone, begun_with, begun_empty};
ghost use Rattle.mr_pipe.specs.Reading.{IsRead};

use crate::config::PipeConfig;
use crate::fault::PipeFault;
use crate::linked_node::LinkedNode;
use crate::serve::deliver;
use mr_aof::Log;
use mr_data::{Dataset, Given};
use mr_file::{LogFile, PIECE};
use std::alloc::Global;
use std::hash::RandomState;
use std::io::{ErrorKind, Read, Write};

/// What a read came to.
#[derive(Clone, Copy)]
pub(crate) enum Round {
    /// Bytes came, or the read was interrupted.
    On,
    /// The input is at its end.
    End,
    /// The node closed the link, or the client asked that the program end.
    Shut,
}

/// Reads once; None where the read was interrupted.
pub fn read_piece<R: Read>(input: &mut R, buffer: &mut [u8]) -> Result<Option<usize>, PipeFault>
    requires { 0 < length buffer.old }
    ensures read { IfOk result (λ count.
        IsRead (R.remaining input.old) (R.remaining input.new) buffer.new count) }
    ensures failed { OnErr result (Keeps (R.remaining input.old) (R.remaining input.new)) }
    ensures fault { IfErr result (λ e. e ≡ PipeFault.Read) }
{
    match input.read(buffer) {
        Ok(count) => Ok(Some(count)),
        Err(error) => {
            if error.kind() == ErrorKind::Interrupted {
                return Ok(None);
            }
            Err(PipeFault::Read)
        }
    }
}

/// Reads once, and serves what came. What was written goes out before the next read.
fn serve_piece<F: LogFile, R: Read, W: Write>(
    linked: &mut LinkedNode,
    given: Given,
    log: &mut Log<F>,
    input: &mut R,
    buffer: &mut [u8],
    output: &mut W,
) -> Result<Round, PipeFault>
    requires { 0 < length buffer.old }
    ensures { (s : PipeState) (u : List ℕ) (x : Outside) →
        Drained given s u x linked.old
        (outside W.contents F.told F.synced F.failures output.old log.old)
        → IsRound given s u x (R.remaining input.old) (R.remaining input.new) linked.new
        (outside W.contents F.told F.synced F.failures output.new log.new) result }
{
    let room = linked.node.room(linked.link).unwrap_or(0);
    let most = room.min(buffer.len());
    if most == 0 {
        return Err(PipeFault::Memory);
    }
    let piece = &mut buffer[..most];
    let Some(count) = read_piece(input, piece)? else {
        return Ok(Round::On);
    };
    if count == 0 {
        return Ok(Round::End);
    }
    let goes_on = deliver(linked, given, &piece[..count], log, output)?;
    if goes_on {
        return Ok(Round::On);
    }
    Ok(Round::Shut)
}

/// Reads to the end, or to the request that is the last, and serves all.
fn relay<F: LogFile, R: Read, W: Write>(
    linked: &mut LinkedNode,
    given: Given,
    log: &mut Log<F>,
    input: &mut R,
    buffer: &mut [u8],
    output: &mut W,
) -> Result<(), PipeFault>
    requires { 0 < length buffer.old }
    ensures { (s : PipeState) → Stands linked.old s [] →
        IsPiped given s (R.remaining input.old) (R.remaining input.new)
        (outside W.contents F.told F.synced F.failures output.old log.old)
        (outside W.contents F.told F.synced F.failures output.new log.new) result }
{
    for _round in 0..u64::MAX {
        match serve_piece(linked, given, log, input, buffer, output)? {
            Round::On => {}
            Round::End => return Ok(()),
            Round::Shut => return Ok(()),
        }
    }
    Err(PipeFault::Read)
}

/// Answers the requests that the input has, one after another, as one client's of a node that begins as a master with this
/// dataset. The texts of a request's effects are in the log's file before its reply is written, synced in the mode `Always`; a
/// request that has the file written anew is answered once the new file stands in the place of the old, synced in either mode.
/// Each reply is written before the next step, and out before the next read. A request may make the link a replica's, which is
/// sent nothing more, or the node a replica, which dials nobody, or a master again under a fresh id.
///
/// Where it answers `Ok`, the input was read to its end, or to the request that broke the protocol, to QUIT or to SHUTDOWN, or
/// on a replica's link to what a replica doesn't send, and what was written is exactly the replies to it. After a fault it is a
/// beginning of them: nothing of the reply to a request whose changes of the file weren't made.
pub fn pipe_with<F: LogFile, R: Read, W: Write>(
    alloc: Global,
    config: &PipeConfig,
    dataset: Dataset,
    log: &mut Log<F>,
    input: &mut R,
    output: &mut W,
) -> Result<(), PipeFault>
    ensures { IsPiped config.now.given (begun_with config.now.id dataset) (R.remaining input.old)
        (R.remaining input.new)
        (outside W.contents F.told F.synced F.failures output.old log.old)
        (outside W.contents F.told F.synced F.failures output.new log.new) result }
{
    let Ok(mut buffer) = vec![in alloc; 0u8; PIECE] else {
        return Err(PipeFault::Memory);
    };
    let mut linked = LinkedNode::begin(alloc, config.id, dataset)?;
    relay(
        &mut linked,
        config.given,
        log,
        input,
        buffer.as_mut_slice(),
        output,
    )
}

/// `pipe_with` for a node that begins with an empty dataset and keeps no file.
pub fn pipe<R: Read, W: Write>(
    alloc: Global,
    config: &PipeConfig,
    seed: RandomState,
    input: &mut R,
    output: &mut W,
) -> Result<(), PipeFault>
    ensures piped { IsPipedAlone config.now.given (begun_empty config.now.id)
        (R.remaining input.old) (R.remaining input.new) (W.contents output.old)
        (W.contents output.new) result }
    ensures no_file { IsErrOf result PipeFault.File → ⊥ }
{
    let mut log = Log::none();
    pipe_with(
        alloc,
        config,
        Dataset::new(alloc, seed),
        &mut log,
        input,
        output,
    )
}
