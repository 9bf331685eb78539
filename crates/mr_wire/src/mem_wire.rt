ghost use Rattle.std.specs.Prelude.{◌≡◌, ◌≤◌, ◌↔◌, [], true, length, None, IfOk, IfSome, IsSome, IsNone, OnErr};
ghost use Rattle.std.specs.FinMap as map;
ghost use Rattle.mr_file.specs.LogFile.{Rose};
ghost use Rattle.mr_wire.specs.Wire.{Opens, ChangesLink, behind_read, behind_write, count_of, first_from, bytes_moved, wire_of};

use crate::failures::Failures;
use crate::mem_link::{MemLink, Reading, Writing};
use crate::peer::peer_named;
use crate::sent_log::SentLog;
use crate::waited::Waited;
use crate::wire::{Failed, Moved, Wire};
use mr_links::{LINKS_LIMIT, LinkId, Links};
use std::alloc::Global;
use std::collections::VecDeque;
use std::net::SocketAddrV4;

/// What an accept is to come to.
#[derive(Drop)]
pub enum Accepting {
    /// A peer opened a link, whose reads and writes come to these.
    Link(VecDeque<Reading>, VecDeque<Writing>),
    /// No peer has opened one.
    NotReady,
    /// The listener fails.
    Failed,
}

/// What a connect is to come to.
#[derive(Drop)]
pub enum Connecting {
    /// A link, whose reads and writes come to these. Those of a peer that hasn't answered yet are not ready.
    Link(VecDeque<Reading>, VecDeque<Writing>),
    /// No link can be opened.
    Failed,
}

/// What a wait is to come to.
#[derive(Clone, Copy, Debug, PartialEq, Eq)]
pub enum Waiting {
    Done,
    Failed,
}

/// A wire in memory. Each wait, each accept and each connect takes the next of its list: at its end a wait succeeds, nothing is
/// accepted, and a connect fails. Behind each wait all open links are named, in the order of their places. Where memory runs out it
/// fails.
#[derive(Drop)]
pub struct MemWire {
    alloc: Global,
    waits: VecDeque<Waiting>,
    accepts: VecDeque<Accepting>,
    connects: VecDeque<Connecting>,
    links: Links<MemLink>,
    /// What was sent, on links that are closed too.
    sent: SentLog,
    /// The first place whose link wasn't named since the last wait.
    unnamed: usize,
    failed: Failures,
    waited: Waited,
}

impl MemWire {
    /// A wire without links, whose waits, accepts and connects come to these.
    pub fn new(
        alloc: Global,
        waits: VecDeque<Waiting>,
        accepts: VecDeque<Accepting>,
        connects: VecDeque<Connecting>,
    ) -> MemWire
        ensures links { result.links.open_links ≡ map.empty }
        ensures opened { result.links.opened ≡ 0 }
        ensures sent { result.sent ≡ [] }
        ensures failed { result.failed.count ≡ 0 }
        ensures waited { result.waited.times ≡ 0 }
    {
        MemWire {
            alloc,
            waits,
            accepts,
            connects,
            links: Links::new(alloc),
            sent: SentLog::new(alloc),
            unnamed: 0,
            failed: Failures::new(),
            waited: Waited::never(),
        }
    }

    /// All bytes that the writes of an open link moved.
    pub fn written(&self, link: LinkId) -> Option<&[u8]>
        ensures there { IfSome (map.get self.now.links.open_links link) (λ e.
            IfSome result (λ bytes. bytes.now ≡ e.moved)) }
        ensures absent { IsNone result ↔ (map.get self.now.links.open_links link ≡ None) }
    {
        match self.links.get(link) {
            Some(end) => Some(end.written()),
            None => None,
        }
    }

    /// How often it was asked to wait, and for how long last.
    pub fn waited(&self) -> Waited
        ensures { result ≡ self.now.waited }
    {
        self.waited
    }

    /// The peer that an open link was asked for, if this end opened it.
    pub fn asked(&self, link: LinkId) -> Option<SocketAddrV4>
        ensures there { IfSome (map.get self.now.links.open_links link) (λ e. result ≡ e.asked) }
        ensures absent { map.get self.now.links.open_links link ≡ None → result ≡ None }
    {
        self.links.get(link)?.asked()
    }

    /// Opens a link.
    fn open(&mut self, end: MemLink) -> Result<LinkId, Failed>
        ensures ok { IfOk result (λ link.
            Opens (wire_of self.old.links self.old.sent) link end
            (wire_of self.new.links self.new.sent)) }
        ensures err { OnErr result (self.new.links ≡ self.old.links) }
        ensures sent { self.new.sent ≡ self.old.sent }
        ensures later { self.old.failed.count ≤ self.new.failed.count }
        ensures cause { OnErr result (Rose self.old.failed.count self.new.failed.count) }
        ensures waited { self.new.waited ≡ self.old.waited }
    {
        if self.links.opened() >= LINKS_LIMIT {
            return Err(self.failed.failure());
        }
        match self.links.insert(end) {
            Ok(link) => Ok(link),
            Err(_refused) => Err(self.failed.failure()),
        }
    }

    /// The first open link at this place or behind it.
    fn first_from(&self, place: usize) -> Option<LinkId>
        ensures { result ≡ first_from place self.now.links }
    {
        for link in self.links.ids() {
            if place <= link.index {
                return Some(link);
            }
        }
        None
    }

    /// Reads bytes that came on a link into a room. Fails where the link isn't open.
    fn read_link(&mut self, link: LinkId, into: &mut [u8]) -> Moved
        ensures within { count_of result ≤ length into.new }
        ensures read { ChangesLink (wire_of self.old.links self.old.sent) link
            (behind_read true result into.new) [] (wire_of self.new.links self.new.sent) }
        ensures absent { map.get self.old.links.open_links link ≡ None →
            (result ≡ Moved.Failed) × (self.new.links ≡ self.old.links) }
        ensures sent { self.new.sent ≡ self.old.sent }
        ensures failed { self.new.failed ≡ self.old.failed }
        ensures waited { self.new.waited ≡ self.old.waited }
    {
        match self.links.get_mut(link) {
            Some(end) => end.read(into),
            None => Moved::Failed,
        }
    }

    /// Writes bytes to a link, or the first of them. Fails where the link isn't open.
    fn write_link(&mut self, link: LinkId, bytes: &[u8]) -> Moved
        ensures within { count_of result ≤ length bytes.now }
        ensures written { ChangesLink (wire_of self.old.links self.old.sent) link
            (behind_write true result bytes.now) (bytes_moved true result bytes.now)
            (wire_of self.new.links self.new.sent) }
        ensures absent { map.get self.old.links.open_links link ≡ None →
            (result ≡ Moved.Failed) × (self.new.links ≡ self.old.links) ×
            (self.new.sent ≡ self.old.sent) }
        ensures failed { self.new.failed ≡ self.old.failed }
        ensures waited { self.new.waited ≡ self.old.waited }
    {
        match self.links.get_mut(link) {
            Some(end) => end.write(link, bytes, &mut self.sent),
            None => Moved::Failed,
        }
    }
}

impl Wire for MemWire {
    ghost tells = { true };

    ghost links = { λ w. wire_of w.links w.sent };

    ghost failures = { λ w. w.failed.count };

    ghost waited = { λ w. w.waited };

    fn wait(&mut self, millis: u64) -> Result<(), Failed> {
        self.waited.once_more(millis);
        self.unnamed = 0;
        match self.waits.pop_front() {
            Some(Waiting::Failed) => Err(self.failed.failure()),
            Some(Waiting::Done) | None => Ok(()),
        }
    }

    fn accept(&mut self) -> Result<Option<LinkId>, Failed> {
        match self.accepts.pop_front() {
            Some(Accepting::Link(reads, writes)) => {
                let link = self.open(MemLink::new(self.alloc, reads, writes))?;
                Ok(Some(link))
            }
            Some(Accepting::NotReady) | None => Ok(None),
            Some(Accepting::Failed) => Err(self.failed.failure()),
        }
    }

    fn connect(&mut self, host: &[u8], port: u16) -> Result<LinkId, Failed> {
        let next = self.connects.pop_front();
        let Some(peer) = peer_named(host, port) else {
            return Err(self.failed.failure());
        };
        match next {
            Some(Connecting::Link(reads, writes)) => {
                self.open(MemLink::asked_of(self.alloc, peer, reads, writes))
            }
            Some(Connecting::Failed) | None => Err(self.failed.failure()),
        }
    }

    /// The next open link, in the order of places.
    fn ready(&mut self) -> Option<LinkId>
        ensures next { result ≡ first_from self.old.unnamed self.old.links }
        ensures there { IfSome result (λ link. IsSome (map.get self.new.links.open_links link)) }
        ensures same { wire_of self.new.links self.new.sent ≡
            wire_of self.old.links self.old.sent }
        ensures failures { self.new.failed.count ≡ self.old.failed.count }
        ensures waited { self.new.waited ≡ self.old.waited }
    {
        let link = self.first_from(self.unnamed)?;
        self.unnamed = link.index.saturating_add(1);
        Some(link)
    }

    fn read(&mut self, link: LinkId, into: &mut [u8]) -> Moved {
        let moved = self.read_link(link, into);
        self.failed.tell(moved)
    }

    fn write(&mut self, link: LinkId, bytes: &[u8]) -> Moved {
        let moved = self.write_link(link, bytes);
        self.failed.tell(moved)
    }

    fn close(&mut self, link: LinkId) {
        let _closed = self.links.remove(link);
    }
}
