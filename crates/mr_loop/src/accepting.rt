// Links that peers open.
ghost use Rattle.std.specs.Prelude.{◌≡◌, ◌≤◌, ℕ, IsErrOf, OnOk, true};
ghost use Rattle.mr_wire.specs.Wire.{WireState, Accepts};
ghost use Rattle.mr_loop.specs.Counting.{accepts_by, most_accepted};
ghost use Rattle.mr_loop.specs.Going.{GoesUpToAs, GoesUpToFrom};
ghost use Rattle.mr_loop.specs.Hosts.{IsSame};
ghost use Rattle.mr_loop.specs.Quiet.{AllWait};

use crate::fault::LoopFault;
use crate::host::Host;
use crate::lacking::Asked;
use mr_file::LogFile;
use mr_links::LinkId;
use mr_node::NodeFault;
use mr_source::Source;
use mr_wire::Wire;

/// So many links are accepted in one turn at most.
const MOST_ACCEPTED: u32 = 64;

impl<W: Wire, F: LogFile, S: Source> Host<'_, '_, W, F, S> {
    /// Accepts the links that peers opened. It answers whether there may be more.
    pub(crate) fn accept_all(&mut self) -> Result<bool, LoopFault>
        ensures went { GoesUpToAs W.tells W.links W.failures F.told F.synced S.drawn accepts_by
            most_accepted result self.old self.new }
        ensures same { IsSame W.waited F.failures self.old self.new }
        ensures device { IsErrOf result LoopFault.File → self.new.log.now.broken ≡ true }
        ensures quiet { AllWait self.old.node.now → OnOk result (AllWait self.new.node.now) }
    {
        for _ in 0..MOST_ACCEPTED {
            if !self.accept_next()? {
                return Ok(false);
            }
        }
        Ok(true)
    }

    /// Accepts the next link, if there is one. It answers whether there may be more.
    fn accept_next(&mut self) -> Result<bool, LoopFault>
        ensures went { GoesUpToAs W.tells W.links W.failures F.told F.synced S.drawn accepts_by 1
            result self.old self.new }
        ensures same { IsSame W.waited F.failures self.old self.new }
        ensures device { IsErrOf result LoopFault.File → self.new.log.now.broken ≡ true }
        ensures quiet { AllWait self.old.node.now → OnOk result (AllWait self.new.node.now) }
    {
        match self.wire.accept() {
            Ok(Some(socket)) => self.join(socket),
            Ok(None) => Ok(false),
            Err(_failed) => Ok(false),
        }
    }

    /// Opens a link at the node for one that the wire accepted, or closes that.
    fn join(&mut self, socket: LinkId) -> Result<bool, LoopFault>
        ensures went { (before : WireState) (failed : ℕ) →
            Accepts before socket (W.links self.old.wire.now) →
            failed ≤ W.failures self.old.wire.now
            → GoesUpToFrom W.tells W.links W.failures F.told F.synced S.drawn before failed
            accepts_by 1 result self.old self.new }
        ensures same { IsSame W.waited F.failures self.old self.new }
        ensures device { IsErrOf result LoopFault.File → self.new.log.now.broken ≡ true }
        ensures quiet { AllWait self.old.node.now → OnOk result (AllWait self.new.node.now) }
    {
        match self.node.open() {
            Ok(link) => match self.own.join(socket, link) {
                Ok(()) => Ok(true),
                Err(_refused) => {
                    self.own.lose(Asked::Accept);
                    self.node.close(link);
                    self.wire.close(socket);
                    Ok(true)
                }
            },
            Err(NodeFault::Stopped) => {
                self.wire.close(socket);
                Err(LoopFault::Stopped)
            }
            Err(_refused) => {
                self.own.lose(Asked::Accept);
                self.wire.close(socket);
                Ok(true)
            }
        }
    }
}
