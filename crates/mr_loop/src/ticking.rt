// Time that passes.
ghost use Rattle.std.specs.Prelude.{◌≡◌, [], IsErrOf, OnOk, false, true};
ghost use Rattle.mr_loop.specs.Counting.{most_ticks};
ghost use Rattle.mr_loop.specs.Going.{PassesAs, TicksAs};
ghost use Rattle.mr_loop.specs.Hosts.{IsSame};
ghost use Rattle.mr_loop.specs.Quiet.{AllWait};

use crate::fault::LoopFault;
use crate::host::Host;
use crate::moment::given;
use mr_file::LogFile;
use mr_node::NodeFault;
use mr_node_output::Outs;
use mr_source::Source;
use mr_wire::Wire;

impl<W: Wire, F: LogFile, S: Source> Host<'_, '_, W, F, S> {
    /// Has time pass at the node, again and again while it deletes, and so often at most. It answers whether more may be due now: what
    /// memory is lacking for waits for a later turn.
    pub(crate) fn tick_all(&mut self) -> Result<bool, LoopFault>
        ensures went { PassesAs W.tells W.links W.failures F.told F.synced S.drawn result
            (most_ticks self.old.moment.turn.done) self.old self.new }
        ensures same { IsSame W.waited F.failures self.old self.new }
        ensures device { IsErrOf result LoopFault.File → self.new.log.now.broken ≡ true }
        ensures quiet { AllWait self.old.node.now → OnOk result (AllWait self.new.node.now) }
    {
        let mut left = self.moment.turn().most_ticks();
        while left > 0 {
            if !self.tick()? {
                return Ok(false);
            }
            left -= 1;
        }
        Ok(true)
    }

    /// Time passes at the node. It answers whether another tick may still delete, for which memory isn't lacking.
    fn tick(&mut self) -> Result<bool, LoopFault>
        ensures went { TicksAs W.tells W.links W.failures F.told F.synced S.drawn result self.old
            self.new }
        ensures same { IsSame W.waited F.failures self.old self.new }
        ensures device { IsErrOf result LoopFault.File → self.new.log.now.broken ≡ true }
        ensures quiet { AllWait self.old.node.now → OnOk result (AllWait self.new.node.now) }
    {
        let given = given(self.source);
        match self.node.tick(given) {
            Ok(outs) => {
                self.node.sound();
                let more = has_deleted(&outs);
                self.take(outs)?;
                Ok(more)
            }
            Err(NodeFault::Stopped) => Err(LoopFault::Stopped),
            Err(_refused) => {
                self.own.lack();
                Ok(false)
            }
        }
    }
}

/// Whether a tick deleted something.
fn has_deleted(outs: &Outs) -> bool
    ensures { result ≡ false → outs.now.appended ≡ [] }
{
    !outs.appended().is_empty()
}
