// All that stands on a link, served one request after another.
ghost use Rattle.std.specs.Prelude.{◌≡◌, ◌++◌, ℕ, List, OnOk, OnErr, IfErr};
ghost use Rattle.mr_pipe.specs.Outside.{Outside, outside};
ghost use Rattle.mr_pipe.specs.State.{PipeState, Stands};
ghost use Rattle.mr_pipe.specs.Sessions.{is_last, output_of};
ghost use Rattle.mr_pipe.specs.Serving.{Going, IsCarriedOut, IsDrained, IsStepped};

use crate::fault::PipeFault;
use crate::keep::{change_file, write_reply};
use crate::linked_node::LinkedNode;
use mr_aof::Log;
use mr_data::Given;
use mr_file::LogFile;
use mr_node::Step;
use mr_node_output::Outs;
use std::io::Write;

/// What one step came to.
#[derive(Clone, Copy)]
pub(crate) enum Stepped {
    /// No whole request is left.
    Waits,
    /// Something was used.
    On,
    /// The node closed the link, or the client asked that the program end.
    Shut,
}

/// The file is changed as a step gives out, and then its reply is written. There is nobody to send the stream to, and whom the
/// node is to follow isn't dialled.
fn carry_out<F: LogFile, W: Write>(
    outs: &Outs,
    log: &mut Log<F>,
    output: &mut W,
) -> Result<(), PipeFault>
    ensures { IsCarriedOut (output_of outs.now)
        (outside W.contents F.told F.synced F.failures output.old log.old)
        (outside W.contents F.told F.synced F.failures output.new log.new) result }
{
    change_file(log, outs)?;
    write_reply(output, outs.reply())
}

/// Whether nothing is served behind a step that gave this out: the link is closed, or the program is to end.
fn is_last(outs: &Outs) -> bool
    ensures { result ≡ is_last outs.now }
{
    outs.closes() || outs.halts()
}

/// One step, whose changes of the file are made before its reply is written.
fn step_once<F: LogFile, W: Write>(
    linked: &mut LinkedNode,
    given: Given,
    log: &mut Log<F>,
    output: &mut W,
) -> Result<Stepped, PipeFault>
    ensures { (s : PipeState) (u : List ℕ) → Stands linked.old s u →
        IsStepped given s u (outside W.contents F.told F.synced F.failures output.old log.old)
        linked.new (outside W.contents F.told F.synced F.failures output.new log.new) result }
{
    let fresh = linked.fresh();
    match linked.node.step(linked.link, given, fresh)? {
        Step::Idle => Ok(Stepped::Waits),
        Step::Closed => Ok(Stepped::Shut),
        Step::Done(outs) => {
            carry_out(&outs, log, output)?;
            linked.count(&outs);
            let last = is_last(&outs);
            linked.node.reuse(outs);
            if last {
                return Ok(Stepped::Shut);
            }
            Ok(Stepped::On)
        }
    }
}

/// Serves requests until none is whole, or one is the last (false).
fn drain<F: LogFile, W: Write>(
    linked: &mut LinkedNode,
    given: Given,
    log: &mut Log<F>,
    output: &mut W,
) -> Result<bool, PipeFault>
    ensures { (s : PipeState) (u : List ℕ) → Stands linked.old s u →
        IsDrained given s u (outside W.contents F.told F.synced F.failures output.old log.old)
        linked.new (outside W.contents F.told F.synced F.failures output.new log.new) result }
{
    for _step in 0..u64::MAX {
        match step_once(linked, given, log, output)? {
            Stepped::Waits => return Ok(true),
            Stepped::Shut => return Ok(false),
            Stepped::On => {}
        }
    }
    Err(PipeFault::Read)
}

/// Bytes come, and are served; false once a request was the last. However they were cut before, the answer is that of all of them
/// together.
fn serve_bytes<F: LogFile, W: Write>(
    linked: &mut LinkedNode,
    given: Given,
    bytes: &[u8],
    log: &mut Log<F>,
    output: &mut W,
) -> Result<bool, PipeFault>
    ensures { (s : PipeState) (u : List ℕ) (x : Outside) →
        Going given s u x linked.old
        (outside W.contents F.told F.synced F.failures output.old log.old)
        → IsDrained given s (u ++ bytes.now) x linked.new
        (outside W.contents F.told F.synced F.failures output.new log.new) result }
{
    linked.node.feed(linked.link, bytes)?;
    drain(linked, given, log, output)
}

/// Bytes come, and are served; false once a request was the last. What was written goes out.
pub(crate) fn deliver<F: LogFile, W: Write>(
    linked: &mut LinkedNode,
    given: Given,
    bytes: &[u8],
    log: &mut Log<F>,
    output: &mut W,
) -> Result<bool, PipeFault>
    ensures { (s : PipeState) (u : List ℕ) (x : Outside) →
        Going given s u x linked.old
        (outside W.contents F.told F.synced F.failures output.old log.old)
        → IsDrained given s (u ++ bytes.now) x linked.new
        (outside W.contents F.told F.synced F.failures output.new log.new) result }
{
    let goes_on = serve_bytes(linked, given, bytes, log, output)?;
    if output.flush().is_err() {
        return Err(PipeFault::Write);
    }
    Ok(goes_on)
}
