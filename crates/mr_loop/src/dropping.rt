// Connections that end.
ghost use Rattle.std.specs.Prelude.{◌≡◌};
ghost use Rattle.mr_loop.specs.Causes.{Dropped};
ghost use Rattle.mr_loop.specs.Hosts.{IsSame, moment_in, stage_in};

use crate::host::Host;
use mr_file::LogFile;
use mr_links::LinkId;
use mr_source::Source;
use mr_wire::Wire;

impl<W: Wire, F: LogFile, S: Source> Host<'_, '_, W, F, S> {
    /// Closes a connection, at the node where that has an end of it, and on the wire. What waits is dropped.
    pub(crate) fn drop_connection(&mut self, socket: LinkId, link: Option<LinkId>)
        ensures dropped { Dropped socket link (stage_in W.links W.failures F.told F.synced self.old)
            (stage_in W.links W.failures F.told F.synced self.new) }
        ensures moment { moment_in S.drawn self.new ≡ moment_in S.drawn self.old }
        ensures same { IsSame W.waited F.failures self.old self.new }
    {
        if let Some(link) = link {
            self.node.close(link);
        }
        self.wire.close(socket);
        self.own.remove(socket);
    }
}
