// What the node gives out.
ghost use Rattle.std.specs.Prelude.{◌≡◌, OnOk, OnErr, IfErr, IsErrOf, true};
ghost use Rattle.mr_node_output.specs.Outs.{outs_of, replace};
ghost use Rattle.mr_node_spec.specs.LinkRows.{closed_at};
ghost use Rattle.mr_connections.specs.State.{parted};
ghost use Rattle.mr_loop.specs.Stage.{with_connections};
ghost use Rattle.mr_node_output.specs.Listing.{out_view};
ghost use Rattle.mr_loop.specs.Carrying.{CarriesAs, CarriesOneAs, SoFar};
ghost use Rattle.mr_loop.specs.Counting.{Renewed};
ghost use Rattle.mr_loop.specs.Hosts.{IsSame, moment_in, stage_in};

use crate::fault::LoopFault;
use crate::host::Host;
use mr_file::LogFile;
use mr_links::LinkId;
use mr_node_output::{Out, Outs};
use mr_source::Source;
use mr_wire::Wire;
use std::alloc::AllocError;

impl<W: Wire, F: LogFile, S: Source> Host<'_, '_, W, F, S> {
    /// What a call on the node gave out is carried out. Where the node took the fresh id, another is drawn.
    pub(crate) fn take(&mut self, mut outs: Outs) -> Result<(), LoopFault>
        ensures carried { CarriesAs result (outs_of outs)
            (stage_in W.links W.failures F.told F.synced self.old)
            (stage_in W.links W.failures F.told F.synced self.new) }
        ensures moment { OnOk result
            (Renewed outs.used (moment_in S.drawn self.old) (moment_in S.drawn self.new)) }
        ensures kept { OnErr result (moment_in S.drawn self.new ≡ moment_in S.drawn self.old) }
        ensures same { IsSame W.waited F.failures self.old self.new }
        ensures device { IsErrOf result LoopFault.File → self.new.log.now.broken ≡ true }
    {
        let takes_id = outs.used().is_some();
        let carried = self.carry_all(&mut outs);
        self.node.reuse(outs);
        carried?;
        if takes_id {
            let fresh = self.source.id();
            self.moment.renew(fresh);
        }
        Ok(())
    }

    /// All outs are carried out, one after another. Long texts and a long reply go with their memory, and a shared text isn't copied.
    fn carry_all(&mut self, outs: &mut Outs) -> Result<(), LoopFault>
        ensures carried { CarriesAs result (outs_of outs.old)
            (stage_in W.links W.failures F.told F.synced self.old)
            (stage_in W.links W.failures F.told F.synced self.new) }
        ensures moment { moment_in S.drawn self.new ≡ moment_in S.drawn self.old }
        ensures same { IsSame W.waited F.failures self.old self.new }
        ensures device { IsErrOf result LoopFault.File → self.new.log.now.broken ≡ true }
    {
        self.carry_first(outs)?;
        match outs.take_shared() {
            Some((link, text)) => {
                self.carry_out(outs)?;
                kept(self.own.send_shared(link, text))
            }
            None => self.carry_last(outs),
        }
    }

    /// All outs are carried out, one after another. A long reply goes with its memory.
    fn carry_last(&mut self, outs: &mut Outs) -> Result<(), LoopFault>
        ensures carried { CarriesAs result (outs_of outs.old)
            (stage_in W.links W.failures F.told F.synced self.old)
            (stage_in W.links W.failures F.told F.synced self.new) }
        ensures moment { moment_in S.drawn self.new ≡ moment_in S.drawn self.old }
        ensures same { IsSame W.waited F.failures self.old self.new }
        ensures device { IsErrOf result LoopFault.File → self.new.log.now.broken ≡ true }
    {
        match outs.take_last() {
            Some((link, mut reply)) => {
                self.carry_out(outs)?;
                let queued = self.own.send_whole(link, &mut reply);
                outs.keep_reply(reply);
                kept(queued)
            }
            None => self.carry_out(outs),
        }
    }

    /// Long texts in front wait for the file, with their memory where nothing else does.
    fn carry_first(&mut self, outs: &mut Outs) -> Result<(), LoopFault>
        ensures ok { OnOk result
            (SoFar (outs_of outs.old) (outs_of outs.new)
            (stage_in W.links W.failures F.told F.synced self.old)
            (stage_in W.links W.failures F.told F.synced self.new)) }
        ensures err { OnErr result
            (CarriesAs result (outs_of outs.old)
            (stage_in W.links W.failures F.told F.synced self.old)
            (stage_in W.links W.failures F.told F.synced self.new)) }
        ensures fault { IfErr result (λ e. e ≡ LoopFault.Stopped) }
        ensures moment { moment_in S.drawn self.new ≡ moment_in S.drawn self.old }
        ensures same { IsSame W.waited F.failures self.old self.new }
    {
        let Some(mut texts) = outs.take_first() else {
            return Ok(());
        };
        let queued = self.own.file_whole(&mut texts);
        outs.keep_texts(texts);
        kept(queued)
    }

    /// All outs are carried out, one after another.
    fn carry_out(&mut self, outs: &Outs) -> Result<(), LoopFault>
        ensures carried { CarriesAs result (outs_of outs.now)
            (stage_in W.links W.failures F.told F.synced self.old)
            (stage_in W.links W.failures F.told F.synced self.new) }
        ensures moment { moment_in S.drawn self.new ≡ moment_in S.drawn self.old }
        ensures same { IsSame W.waited F.failures self.old self.new }
        ensures device { IsErrOf result LoopFault.File → self.new.log.now.broken ≡ true }
    {
        for out in outs.iter() {
            self.carry(out)?;
        }
        Ok(())
    }

    /// One of them is carried out.
    fn carry(&mut self, out: Out<'_>) -> Result<(), LoopFault>
        ensures carried { CarriesOneAs result (out_view out.entry)
            (stage_in W.links W.failures F.told F.synced self.old)
            (stage_in W.links W.failures F.told F.synced self.new) }
        ensures moment { moment_in S.drawn self.new ≡ moment_in S.drawn self.old }
        ensures same { IsSame W.waited F.failures self.old self.new }
        ensures device { IsErrOf result LoopFault.File → self.new.log.now.broken ≡ true }
    {
        match out {
            Out::Grow(_) => Ok(()),
            Out::Append(texts) => kept(self.own.file(texts)),
            Out::Replace(bytes) => self.rewrite(bytes),
            Out::Send(link, bytes) => kept(self.own.send(link, bytes)),
            Out::Close(link) => {
                self.part(link);
                Ok(())
            }
            Out::Used(_) => Ok(()),
            Out::Follow(_) => {
                self.own.forget_dial();
                Ok(())
            }
            Out::Halt => {
                self.own.halt();
                Ok(())
            }
        }
    }

    /// The node's end of a link is closed, and its connection gets nothing more.
    pub(crate) fn part(&mut self, link: LinkId)
        ensures node { self.new.node.now ≡ closed_at link self.old.node.now }
        ensures own { self.new.own.now ≡ with_connections (parted link) self.old.own.now }
        ensures wire { self.new.wire.now ≡ self.old.wire.now }
        ensures log { self.new.log.now ≡ self.old.log.now }
        ensures moment { moment_in S.drawn self.new ≡ moment_in S.drawn self.old }
        ensures same { IsSame W.waited F.failures self.old self.new }
    {
        self.node.close(link);
        self.own.part(link);
    }

    /// The file is replaced at once. The new one has all effects so far, so that nothing waits for it any more.
    fn rewrite(&mut self, whole: &[u8]) -> Result<(), LoopFault>
        ensures carried { CarriesOneAs result (replace whole.now)
            (stage_in W.links W.failures F.told F.synced self.old)
            (stage_in W.links W.failures F.told F.synced self.new) }
        ensures moment { moment_in S.drawn self.new ≡ moment_in S.drawn self.old }
        ensures same { IsSame W.waited F.failures self.old self.new }
        ensures device { IsErrOf result LoopFault.File → self.new.log.now.broken ≡ true }
    {
        match self.log.replace(whole) {
            Ok(()) => {
                self.own.clear_batch();
                Ok(())
            }
            Err(_fault) => Err(LoopFault::File),
        }
    }
}

/// Where memory ran out for what waits, the loop ends.
fn kept(queued: Result<(), AllocError>) -> Result<(), LoopFault>
    ensures ok { OnOk result (OnErr queued ⊥) }
    ensures err { OnErr result (OnOk queued ⊥) }
    ensures fault { IfErr result (λ e. e ≡ LoopFault.Stopped) }
{
    match queued {
        Ok(()) => Ok(()),
        Err(_refused) => Err(LoopFault::Stopped),
    }
}
