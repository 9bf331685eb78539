// What waits for the file.
ghost use Rattle.std.specs.Prelude.{◌≡◌, [], OnOk, IsErrOf, true};
ghost use Rattle.mr_loop.specs.Going.{GoesAs};
ghost use Rattle.mr_loop.specs.Hosts.{IsSame, moment_in};
ghost use Rattle.mr_loop.specs.Stage.{committed};

use crate::fault::LoopFault;
use crate::host::Host;
use mr_file::LogFile;
use mr_source::Source;
use mr_wire::Wire;

impl<W: Wire, F: LogFile, S: Source> Host<'_, '_, W, F, S> {
    /// Appends what waits for the file, and syncs it with `Always`. Where nothing waits, no call is made.
    pub(crate) fn commit(&mut self) -> Result<(), LoopFault>
        ensures went { GoesAs W.tells W.links W.failures F.told F.synced S.drawn result self.old
            self.new }
        ensures all { OnOk result (self.new.own.now ≡ committed self.old.own.now) }
        ensures node { self.new.node.now ≡ self.old.node.now }
        ensures moment { moment_in S.drawn self.new ≡ moment_in S.drawn self.old }
        ensures same { IsSame W.waited F.failures self.old self.new }
        ensures device { IsErrOf result LoopFault.File → self.new.log.now.broken ≡ true }
    {
        if self.own.batch().is_empty() {
            return Ok(());
        }
        match self.log.append(self.own.batch()) {
            Ok(()) => {
                self.own.clear_batch();
                Ok(())
            }
            Err(_fault) => Err(LoopFault::File),
        }
    }
}
