//! A wire whose links are ends of connections between servers and clients.
ghost use Rattle.std.specs.Prelude.{◌≡◌, ◌≤◌, [], false, length, None, IfOk, IfSome, OnErr};
ghost use Rattle.std.specs.FinMap as map;
ghost use Rattle.mr_file.specs.LogFile.{Rose};
ghost use Rattle.mr_wire.specs.Peer.{Names};
ghost use Rattle.mr_wire.specs.Wire.{Opens, ChangesLink, behind_read, behind_write, count_of, wire_of};

use crate::connection::Tip;
use crate::end::{End, Rest};
use crate::told::{Opened, Told};
use mr_links::{LINKS_LIMIT, LinkId, Links, Side};
use mr_wire::{Failed, Moved, Wire};
use std::alloc::{AllocError, Global};
use std::collections::VecDeque;
use std::net::{Ipv4Addr, SocketAddrV4};

/// The one host that is a name.
const LOCALHOST: &[u8] = b"localhost";

/// A wire of which others say between two turns what was delivered, what more can be written, and which connections may be accepted.
/// After each wait all open links are named, in the order of the connections' numbers, and of one that has
/// both its ends here the opener's first. It tells no bytes.
#[derive(Drop)]
pub struct JoinedWire {
    alloc: Global,
    links: Links<End>,
    /// The numbers of the connections that may be accepted.
    asking: VecDeque<usize>,
    /// The number of the next connection that is opened.
    pub next: usize,
    /// At each end at most so many bytes are written until they are delivered.
    most: usize,
    /// No link with a lower rank is named before the next wait.
    unnamed: usize,
    told: Told,
    failed: u64,
}

impl JoinedWire {
    /// A wire without links, at each end of which at most so many bytes are written until they are delivered.
    pub fn new(alloc: Global, most: usize) -> JoinedWire {
        JoinedWire {
            alloc,
            links: Links::new(alloc),
            asking: VecDeque::new(alloc),
            next: 0,
            most,
            unnamed: 0,
            told: Told::new(alloc),
            failed: 0,
        }
    }

    /// The connection with this number may be accepted.
    pub fn ask(&mut self, number: usize) -> Result<(), AllocError> {
        self.asking.push_back(number)?;
        Ok(())
    }

    /// The connection with this number may not be accepted any more.
    pub fn forget(&mut self, number: usize) {
        self.asking.retain(|asking| *asking != number);
    }

    /// What it was asked for since this was called last.
    pub fn take_told(&mut self) -> Told {
        self.told.take()
    }

    /// So many bytes of a link were delivered to its peer. Where it isn't there nothing happens.
    pub fn give_room(&mut self, link: LinkId, count: usize) {
        if let Some(end) = self.links.get_mut(link) {
            end.give_room(count);
        }
    }

    /// Delivers bytes on a link. Where it isn't there nothing happens.
    pub fn deliver(&mut self, link: LinkId, bytes: &[u8]) -> Result<(), AllocError> {
        match self.links.get_mut(link) {
            Some(end) => end.deliver(bytes),
            None => Ok(()),
        }
    }

    /// Nothing more will be delivered on a link. Where it isn't there nothing happens.
    pub fn finish(&mut self, link: LinkId, rest: Rest) {
        if let Some(end) = self.links.get_mut(link) {
            end.finish(rest);
        }
    }

    /// The end that a link is, none where it isn't there.
    fn tip(&self, link: LinkId) -> Option<Tip> {
        match self.links.get(link) {
            Some(end) => Some(end.tip),
            None => None,
        }
    }

    /// The open link with the lowest rank from this one on, and that rank.
    fn next_from(&self, least: usize) -> Option<(LinkId, usize)> {
        let mut found = None;
        for (link, end) in self.links.iter() {
            let rank = end.tip.rank();
            let is_lower = match found {
                Some((_, other)) => rank < other,
                None => true,
            };
            if least <= rank && is_lower {
                found = Some((link, rank));
            }
        }
        found
    }
}

// What the calls of a wire stand on.
impl JoinedWire {
    /// Counts a failure. The count stays at its greatest.
    fn fail(&mut self) -> Failed
        ensures links { self.new.links ≡ self.old.links }
        ensures later { self.old.failed ≤ self.new.failed }
        ensures rose { Rose self.old.failed self.new.failed }
    {
        self.failed = self.failed.saturating_add(1);
        Failed
    }

    /// Counts an answer that is a failure.
    fn tell(&mut self, moved: Moved) -> Moved
        ensures result { result ≡ moved }
        ensures links { self.new.links ≡ self.old.links }
        ensures later { self.old.failed ≤ self.new.failed }
        ensures cause { moved ≡ Moved.Failed → Rose self.old.failed self.new.failed }
    {
        match moved {
            Moved::Failed => {
                let _ = self.fail();
                moved
            }
            Moved::Bytes(_) | Moved::NotReady | Moved::End => moved,
        }
    }

    /// Opens a link.
    fn open(&mut self, end: End) -> Result<LinkId, Failed>
        ensures ok { IfOk result (λ link.
            Opens (wire_of self.old.links []) link end (wire_of self.new.links [])) }
        ensures err { OnErr result (self.new.links ≡ self.old.links) }
        ensures later { self.old.failed ≤ self.new.failed }
        ensures cause { OnErr result (Rose self.old.failed self.new.failed) }
    {
        if self.links.opened() >= LINKS_LIMIT {
            return Err(self.fail());
        }
        match self.links.insert(end) {
            Ok(link) => Ok(link),
            Err(_refused) => Err(self.fail()),
        }
    }

    /// Reads bytes that were delivered on a link into a room. Fails where the link isn't open.
    fn read_link(&mut self, link: LinkId, into: &mut [u8]) -> Moved
        ensures within { count_of result ≤ length into.new }
        ensures read { ChangesLink (wire_of self.old.links []) link
            (behind_read false result into.new) [] (wire_of self.new.links []) }
        ensures absent { map.get self.old.links.open_links link ≡ None →
            (result ≡ Moved.Failed) × (self.new.links ≡ self.old.links) }
        ensures failed { self.new.failed ≡ self.old.failed }
    {
        match self.links.get_mut(link) {
            Some(end) => end.read(into),
            None => Moved::Failed,
        }
    }

    /// Writes bytes to a link, or the first of them. Fails where the link isn't open.
    fn write_link(&mut self, link: LinkId, bytes: &[u8]) -> Moved
        ensures within { count_of result ≤ length bytes.now }
        ensures written { ChangesLink (wire_of self.old.links []) link
            (behind_write false result bytes.now) [] (wire_of self.new.links []) }
        ensures absent { map.get self.old.links.open_links link ≡ None →
            (result ≡ Moved.Failed) × (self.new.links ≡ self.old.links) }
        ensures failed { self.new.failed ≡ self.old.failed }
    {
        match self.links.get_mut(link) {
            Some(end) => end.write(bytes),
            None => Moved::Failed,
        }
    }

    /// Remembers what a write came to.
    fn note_write(&mut self, link: LinkId, bytes: &[u8], moved: Moved)
        ensures links { self.new.links ≡ self.old.links }
        ensures failed { self.new.failed ≡ self.old.failed }
    {
        if let Some(tip) = self.tip(link) {
            self.told.write(tip, bytes, moved);
        }
    }

    /// Remembers that a link is closed.
    fn note_close(&mut self, link: LinkId)
        ensures links { self.new.links ≡ self.old.links }
        ensures failed { self.new.failed ≡ self.old.failed }
    {
        if let Some(tip) = self.tip(link) {
            self.told.close(tip);
        }
    }
}

/// The peer that a host and a port name. No name is looked up.
fn peer_named(host: &[u8], port: u16) -> Option<SocketAddrV4>
    ensures { IfSome result (Names host.now port) }
{
    if host == LOCALHOST {
        return Some(SocketAddrV4::new(Ipv4Addr::LOCALHOST, port));
    }
    match Ipv4Addr::parse_ascii(host) {
        Ok(address) => Some(SocketAddrV4::new(address, port)),
        Err(_other) => None,
    }
}

impl Wire for JoinedWire {
    ghost tells = { false };

    ghost links = { λ w. wire_of w.links [] };

    ghost failures = { λ w. w.failed };

    ghost waited = { λ _. record { times = 0; millis = 0 } };

    fn wait(&mut self, _millis: u64) -> Result<(), Failed> {
        self.unnamed = 0;
        Ok(())
    }

    fn accept(&mut self) -> Result<Option<LinkId>, Failed> {
        let Some(number) = self.asking.pop_front() else {
            return Ok(None);
        };
        let tip = Tip {
            number,
            side: Side::Server,
        };
        let link = self.open(End::new(self.alloc, tip, self.most))?;
        let peer = None;
        self.told.open(Opened { tip, link, peer });
        Ok(Some(link))
    }

    fn connect(&mut self, host: &[u8], port: u16) -> Result<LinkId, Failed> {
        let Some(peer) = peer_named(host, port) else {
            return Err(self.fail());
        };
        let tip = Tip {
            number: self.next,
            side: Side::Opener,
        };
        let link = self.open(End::asked_of(self.alloc, tip, self.most, peer))?;
        self.next = self.next.saturating_add(1);
        let peer = Some(peer);
        self.told.open(Opened { tip, link, peer });
        Ok(link)
    }

    fn ready(&mut self) -> Option<LinkId> {
        let (link, rank) = self.next_from(self.unnamed)?;
        self.unnamed = rank.saturating_add(1);
        if self.links.contains(link) {
            Some(link)
        } else {
            None
        }
    }

    fn read(&mut self, link: LinkId, into: &mut [u8]) -> Moved {
        let moved = self.read_link(link, into);
        self.tell(moved)
    }

    fn write(&mut self, link: LinkId, bytes: &[u8]) -> Moved {
        let moved = self.write_link(link, bytes);
        self.note_write(link, bytes, moved);
        self.tell(moved)
    }

    fn close(&mut self, link: LinkId) {
        self.note_close(link);
        let _closed = self.links.remove(link);
    }
}
