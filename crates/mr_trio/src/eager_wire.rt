//! The wire of a node that shares its thread with others.
ghost use Rattle.std.specs.Prelude.{◌≡◌, [], false};
ghost use Rattle.mr_wire.specs.Wire.{wire_of};

use mr_links::LinkId;
use mr_wire::{Failed, Moved, SocketWire, Wire};

/// A wire over the system's sockets that never waits: others have their turns meanwhile.
#[derive(Drop)]
pub(crate) struct EagerWire {
    wire: SocketWire,
}

impl EagerWire {
    /// The wire over these sockets.
    pub(crate) fn new(wire: SocketWire) -> EagerWire
        ensures { result.wire ≡ wire }
    {
        EagerWire { wire }
    }
}

impl Wire for EagerWire {
    ghost tells = { false };

    ghost links = { λ w. wire_of w.wire.links [] };

    ghost failures = { λ w. w.wire.failed.count };

    ghost waited = { λ _. record { times = 0; millis = 0 } };

    fn wait(&mut self, _millis: u64) -> Result<(), Failed> {
        self.wire.wait(0)
    }

    fn accept(&mut self) -> Result<Option<LinkId>, Failed> {
        self.wire.accept()
    }

    fn connect(&mut self, host: &[u8], port: u16) -> Result<LinkId, Failed> {
        self.wire.connect(host, port)
    }

    fn ready(&mut self) -> Option<LinkId> {
        self.wire.ready()
    }

    fn read(&mut self, link: LinkId, into: &mut [u8]) -> Moved {
        self.wire.read(link, into)
    }

    fn write(&mut self, link: LinkId, bytes: &[u8]) -> Moved {
        self.wire.write(link, bytes)
    }

    fn close(&mut self, link: LinkId) {
        self.wire.close(link);
    }
}
