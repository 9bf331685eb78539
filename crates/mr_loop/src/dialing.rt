// The link to the master.
ghost use Rattle.std.specs.Prelude.{◌≡◌, ◌≤◌, ℕ, IsErrOf, None, OnOk, Some, true, false};
ghost use Rattle.mr_node_output.specs.Address.{AddressState};
ghost use Rattle.mr_wire.specs.Wire.{WireState, Connects};
ghost use Rattle.mr_loop.specs.Going.{GoesAs, GoesFrom};
ghost use Rattle.mr_loop.specs.Hosts.{IsSame};
ghost use Rattle.mr_loop.specs.Quiet.{AllWait};

use crate::fault::LoopFault;
use crate::host::Host;
use crate::lacking::Asked;
use mr_file::LogFile;
use mr_links::LinkId;
use mr_node::NodeFault;
use mr_source::Source;
use mr_wire::Wire;

impl<W: Wire, F: LogFile, S: Source> Host<'_, '_, W, F, S> {
    /// Dials the master, where the node waits for one and it isn't too soon again: the longer after each dial that led to no stream.
    pub(crate) fn dial(&mut self) -> Result<(), LoopFault>
        ensures went { GoesAs W.tells W.links W.failures F.told F.synced S.drawn result self.old
            self.new }
        ensures same { IsSame W.waited F.failures self.old self.new }
        ensures device { IsErrOf result LoopFault.File → self.new.log.now.broken ≡ true }
        ensures quiet { AllWait self.old.node.now → OnOk result (AllWait self.new.node.now) }
    {
        if !self.node.waits() {
            self.own.note_role(self.node.role());
            return Ok(());
        }
        let now = self.moment.begun;
        if !self.own.may_dial(now) {
            return Ok(());
        }
        let Some(address) = self.node.upstream() else {
            return Ok(());
        };
        self.own.note_dial(now);
        match self.wire.connect(address.host(), address.port()) {
            Ok(socket) => self.dial_on(socket),
            Err(_failed) => Ok(()),
        }
    }

    /// Dials the master on a link that the wire opened to it, or closes that.
    fn dial_on(&mut self, socket: LinkId) -> Result<(), LoopFault>
        requires replica { self.old.node.now.core.master ≡ false }
        requires alone { self.old.node.now.follow ≡ None }
        ensures went { (before : WireState) (failed : ℕ) (address : AddressState) →
            self.old.node.now.core.upstream ≡ Some address →
            Connects before address.host address.port socket (W.links self.old.wire.now) →
            failed ≤ W.failures self.old.wire.now →
            GoesFrom W.tells W.links W.failures F.told F.synced S.drawn before failed result
            self.old self.new }
        ensures same { IsSame W.waited F.failures self.old self.new }
        ensures device { IsErrOf result LoopFault.File → self.new.log.now.broken ≡ true }
        ensures quiet { AllWait self.old.node.now → OnOk result (AllWait self.new.node.now) }
    {
        match self.node.dial(self.own.seed()) {
            Ok((link, outs)) => {
                self.node.sound();
                match self.own.join(socket, link) {
                    Ok(()) => self.take(outs),
                    Err(_refused) => {
                        self.own.lose(Asked::Dial);
                        self.node.close(link);
                        self.wire.close(socket);
                        Ok(())
                    }
                }
            }
            Err(NodeFault::Stopped) => {
                self.wire.close(socket);
                Err(LoopFault::Stopped)
            }
            Err(_refused) => {
                self.own.lose(Asked::Dial);
                self.wire.close(socket);
                Ok(())
            }
        }
    }
}
