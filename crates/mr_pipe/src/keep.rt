// What one step has kept: its changes of the file, and its reply in the output.
ghost use Rattle.std.specs.Prelude.{◌≡◌, IfOk, IfErr, OnOk, OnErr};
ghost use Rattle.std.specs.Option.{option_map};
ghost use Rattle.std.specs.Io.KnownBytes as known;
ghost use Rattle.mr_pipe.specs.Outside.{Filed, IsTorn, kept_of, appends, replaces};
ghost use Rattle.mr_file.specs.Outputs.{IsBegun};
ghost use Rattle.mr_pipe.specs.Sessions.{changes_of, output_of};

use crate::fault::PipeFault;
use mr_aof::Log;
use mr_file::{LogFile, write_out};
use mr_node_output::Outs;
use std::io::Write;

/// Appends texts to the file, where there are some.
fn append<F: LogFile>(log: &mut Log<F>, texts: &[u8]) -> Result<(), PipeFault>
    ensures filed { OnOk result
        (Filed (kept_of F.told F.synced F.failures log.old)
        (kept_of F.told F.synced F.failures log.new) (appends texts.now)) }
    ensures torn { OnErr result
        (IsTorn (kept_of F.told F.synced F.failures log.old)
        (kept_of F.told F.synced F.failures log.new) (appends texts.now)) }
    ensures fault { IfErr result (λ e. e ≡ PipeFault.File) }
{
    if texts.is_empty() {
        return Ok(());
    }
    match log.append(texts) {
        Ok(()) => Ok(()),
        Err(_fault) => Err(PipeFault::File),
    }
}

/// Replaces the file, where there is something to replace it by.
fn replace<F: LogFile>(log: &mut Log<F>, whole: Option<&[u8]>) -> Result<(), PipeFault>
    ensures filed { OnOk result
        (Filed (kept_of F.told F.synced F.failures log.old)
        (kept_of F.told F.synced F.failures log.new)
        (replaces (option_map (λ bytes. bytes.now) whole.entry))) }
    ensures torn { OnErr result
        (IsTorn (kept_of F.told F.synced F.failures log.old)
        (kept_of F.told F.synced F.failures log.new)
        (replaces (option_map (λ bytes. bytes.now) whole.entry))) }
    ensures fault { IfErr result (λ e. e ≡ PipeFault.File) }
{
    let Some(bytes) = whole else {
        return Ok(());
    };
    match log.replace(bytes) {
        Ok(()) => Ok(()),
        Err(_failed) => Err(PipeFault::File),
    }
}

/// Does to the file what a step gives out.
pub(crate) fn change_file<F: LogFile>(log: &mut Log<F>, outs: &Outs) -> Result<(), PipeFault>
    ensures filed { OnOk result
        (Filed (kept_of F.told F.synced F.failures log.old)
        (kept_of F.told F.synced F.failures log.new) (changes_of (output_of outs.now))) }
    ensures torn { OnErr result
        (IsTorn (kept_of F.told F.synced F.failures log.old)
        (kept_of F.told F.synced F.failures log.new) (changes_of (output_of outs.now))) }
    ensures fault { IfErr result (λ e. e ≡ PipeFault.File) }
{
    append(log, outs.appended())?;
    replace(log, outs.replaced())
}

/// Writes a reply. After a fault a beginning of it is written.
pub fn write_reply<W: Write>(output: &mut W, bytes: &[u8]) -> Result<(), PipeFault>
    ensures written { OnOk result
        (known.Appends (W.contents output.old) (W.contents output.new) bytes.now) }
    ensures begun { OnErr result
        (IsBegun (W.contents output.old) (W.contents output.new) bytes.now) }
    ensures fault { IfErr result (λ e. e ≡ PipeFault.Write) }
{
    match write_out(output, bytes) {
        Ok(()) => Ok(()),
        Err(_failed) => Err(PipeFault::Write),
    }
}
