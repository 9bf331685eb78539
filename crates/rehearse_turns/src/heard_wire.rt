//! A wire that keeps what went over its links.
ghost use Rattle.std.specs.Prelude.{true};
ghost use Rattle.mr_wire.specs.Wire.{wire_of};

use crate::heard::{HeardLink, HeardLinks};
use mr_links::LinkId;
use mr_wire::{Failed, MemWire, Moved, Wire};
use std::alloc::Global;
use std::net::SocketAddrV4;

/// A wire in memory that keeps what went over each link that was asked of it, also behind its end.
#[derive(Drop)]
pub struct HeardWire {
    wire: MemWire,
    heard: HeardLinks,
}

impl HeardWire {
    /// The wire over this one, none of whose links was opened yet.
    pub fn new(alloc: Global, wire: MemWire) -> HeardWire {
        HeardWire {
            wire,
            heard: HeardLinks::new(alloc),
        }
    }

    /// The links that were accepted and dialled, in order.
    pub fn links(&self) -> &[HeardLink] {
        self.heard.links()
    }

    /// Whether memory ran out for what is kept.
    pub fn lacks_memory(&self) -> bool {
        self.heard.lacks_memory()
    }

    /// What was written on an open link.
    pub fn written(&self, link: LinkId) -> Option<&[u8]> {
        self.wire.written(link)
    }
}

/// The peer that a link was asked for.
fn peer_of(wire: &MemWire, connected: Result<LinkId, Failed>) -> Option<SocketAddrV4> {
    match connected {
        Ok(link) => wire.asked(link),
        Err(_failed) => None,
    }
}

impl Wire for HeardWire {
    ghost tells = { true };

    ghost links = { λ w. wire_of w.wire.links w.wire.sent };

    ghost failures = { λ w. w.wire.failed.count };

    ghost waited = { λ w. w.wire.waited };

    fn wait(&mut self, millis: u64) -> Result<(), Failed> {
        self.wire.wait(millis)
    }

    fn accept(&mut self) -> Result<Option<LinkId>, Failed> {
        let accepted = self.wire.accept();
        self.heard.accepted(accepted);
        accepted
    }

    fn connect(&mut self, host: &[u8], port: u16) -> Result<LinkId, Failed> {
        let connected = self.wire.connect(host, port);
        let peer = peer_of(&self.wire, connected);
        self.heard.dialled(connected, peer);
        connected
    }

    fn ready(&mut self) -> Option<LinkId> {
        self.wire.ready()
    }

    fn read(&mut self, link: LinkId, into: &mut [u8]) -> Moved {
        let moved = self.wire.read(link, into);
        self.heard.read(link, moved);
        moved
    }

    fn write(&mut self, link: LinkId, bytes: &[u8]) -> Moved {
        self.wire.write(link, bytes)
    }

    fn close(&mut self, link: LinkId) {
        let written = self.wire.written(link);
        self.heard.closed(link, written);
        self.wire.close(link);
    }
}
