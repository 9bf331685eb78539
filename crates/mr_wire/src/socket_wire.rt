ghost use Rattle.std.specs.Prelude.{◌≡◌, ◌≤◌, [], false, length, nat_le, None, IfOk, IfSome, IsSome, OnErr};
ghost use Rattle.std.specs.FinMap as map;
ghost use Rattle.mr_file.specs.LogFile.{Rose};
ghost use Rattle.mr_wire.specs.Wire.{Opens, AcceptsNone, ChangesLink, behind_read, behind_write, count_of, wire_of};

use crate::connection::Connection;
use crate::failures::Failures;
use crate::peer::peer_named;
use crate::ready_links::ReadyLinks;
use crate::turning_away::let_in;
use crate::wire::{Failed, Moved, Wire};
use mio::event::Event;
use mio::net::TcpListener;
use mio::{Events, Interest, Poll, Token};
use mr_links::{LINKS_LIMIT, LinkId, Links};
use std::alloc::Global;
use std::io;
use std::io::ErrorKind;
use std::net::SocketAddr;
use std::time::Duration;

const LISTENER: Token = Token(usize::MAX);

/// So many events are taken in one wait.
const MOST_EVENTS: usize = 1024;

/// The system's numbers of the errors that say that it, or this process, has no descriptor left.
const NONE_LEFT: [i32; 2] = [23, 24];

/// A wire over the system's sockets, none of which blocks. Which of them may be ready is remembered from the events, so that no
/// call is made that can't move a byte, and none of those on which nothing comes is named. It tells no bytes.
#[derive(Drop)]
pub struct SocketWire {
    net: HostRuntime,
    poll: Poll,
    events: Events,
    listener: TcpListener,
    acceptable: bool,
    /// The system probes peers that were silent for so many seconds, or none at 0.
    silence: u64,
    /// With so many links open no other peer is let in.
    most: usize,
    /// There was no descriptor for the link that was to be accepted last.
    lacks_descriptors: bool,
    links: Links<Connection>,
    ready: ReadyLinks,
    failed: Failures,
}

impl SocketWire {
    /// Listens on an address.
    pub fn listen(net: HostRuntime, alloc: Global, address: SocketAddr) -> io::Result<SocketWire>
        ensures links { IfOk result (λ wire. wire.links.open_links ≡ map.empty) }
        ensures opened { IfOk result (λ wire. wire.links.opened ≡ 0) }
        ensures failed { IfOk result (λ wire. wire.failed.count ≡ 0) }
    {
        let poll = Poll::new(&net)?;
        let events = Events::with_capacity(alloc, MOST_EVENTS)?;
        let mut listener = TcpListener::bind(&net, address)?;
        poll.registry()
            .register(&mut listener, LISTENER, Interest::READABLE)?;
        Ok(SocketWire {
            net,
            poll,
            events,
            listener,
            acceptable: false,
            silence: 0,
            most: usize::MAX,
            lacks_descriptors: false,
            links: Links::new(alloc),
            ready: ReadyLinks::new(alloc),
            failed: Failures::new(),
        })
    }

    /// From now on the system probes the peer of each link that is opened once it was silent for so many seconds, and fails the link
    /// where it leaves three probes without an answer. At 0, as in the beginning, it probes none.
    pub fn probe_after(&mut self, silence: u64)
        ensures { self.new ≡ record self.old { silence = silence } }
    {
        self.silence = silence;
    }

    /// From now on a peer that opens a link while so many are open is told that there is no room, and its link is closed.
    pub fn take_at_most(&mut self, most: usize)
        ensures { self.new ≡ record self.old { most = most } }
    {
        self.most = most;
    }

    /// Whether as many links are open as may be.
    fn is_full(&self) -> bool
        ensures { result ≡ nat_le self.now.most (map.len self.now.links.open_links) }
    {
        self.most <= self.links.len()
    }

    /// The address that it listens on.
    pub fn address(&self) -> io::Result<SocketAddr> {
        self.listener.local_addr()
    }

    /// Whether there was no descriptor for the link that was to be accepted last. It waits at the system.
    pub fn lacks_descriptors(&self) -> bool
        ensures { result ≡ self.now.lacks_descriptors }
    {
        self.lacks_descriptors
    }

    /// Hangs up on a peer: nothing more comes or goes on the link, which stays open until it is closed. It is named behind the next
    /// wait, and a read of it comes to its end behind what came before. Where it isn't there nothing happens.
    pub fn hang_up(&mut self, link: LinkId)
        ensures links { self.new.links ≡ self.old.links }
        ensures failed { self.new.failed ≡ self.old.failed }
    {
        match self.links.get_mut(link) {
            Some(connection) => {
                connection.hang_up();
                self.ready.push(link.index);
            }
            None => {}
        }
    }

    /// Opens a link over a socket, or drops the socket.
    fn open(&mut self, connection: Connection) -> Result<LinkId, Failed>
        ensures ok { IfOk result (λ link.
            Opens (wire_of self.old.links []) link connection (wire_of self.new.links [])) }
        ensures err { OnErr result
            (AcceptsNone (wire_of self.old.links []) (wire_of self.new.links [])) }
        ensures later { self.old.failed.count ≤ self.new.failed.count }
        ensures cause { OnErr result (Rose self.old.failed.count self.new.failed.count) }
    {
        if self.links.opened() >= LINKS_LIMIT || !connection.send_at_once() {
            return Err(self.failed.failure());
        }
        connection.probe_after(self.silence);
        let Ok(link) = self.links.insert(connection) else {
            return Err(self.failed.failure());
        };
        if self.settle(link) {
            return Ok(link);
        }
        let _ = self.links.remove(link);
        Err(self.failed.failure())
    }

    /// Has events of a link find it. Whether they do.
    fn settle(&mut self, link: LinkId) -> bool
        ensures links { self.new.links ≡ self.old.links }
        ensures failed { self.new.failed ≡ self.old.failed }
    {
        if self.ready.make_room(link).is_err() {
            return false;
        }
        self.register(link)
    }

    /// Has the system tell what becomes of a link. Whether it does.
    fn register(&mut self, link: LinkId) -> bool
        ensures links { self.new.links ≡ self.old.links }
        ensures failed { self.new.failed ≡ self.old.failed }
    {
        match self.links.get_mut(link) {
            Some(connection) => connection.register(&self.poll, Token(link.index)),
            None => false,
        }
    }

    /// Reads bytes that came on a link into a room. Fails where the link isn't open.
    fn read_link(&mut self, link: LinkId, into: &mut [u8]) -> Moved
        ensures within { count_of result ≤ length into.new }
        ensures read { ChangesLink (wire_of self.old.links []) link
            (behind_read false result into.new) [] (wire_of self.new.links []) }
        ensures absent { map.get self.old.links.open_links link ≡ None →
            (result ≡ Moved.Failed) × (self.new.links ≡ self.old.links) }
        ensures failed { self.new.failed ≡ self.old.failed }
    {
        match self.links.get_mut(link) {
            Some(connection) => connection.read(into),
            None => Moved::Failed,
        }
    }

    /// Writes bytes to a link, or the first of them. Fails where the link isn't open.
    fn write_link(&mut self, link: LinkId, bytes: &[u8]) -> Moved
        ensures within { count_of result ≤ length bytes.now }
        ensures written { ChangesLink (wire_of self.old.links []) link
            (behind_write false result bytes.now) [] (wire_of self.new.links []) }
        ensures absent { map.get self.old.links.open_links link ≡ None →
            (result ≡ Moved.Failed) × (self.new.links ≡ self.old.links) }
        ensures failed { self.new.failed ≡ self.old.failed }
    {
        match self.links.get_mut(link) {
            Some(connection) => connection.write(bytes),
            None => Moved::Failed,
        }
    }
}

/// Whether a call failed because no descriptor is left.
fn none_is_left(error: &io::Error) -> bool {
    match error.raw_os_error() {
        Some(code) => NONE_LEFT.contains(&code),
        None => false,
    }
}

/// Remembers what the last wait's events say, and whether a peer may have opened a link. What comes late for a link that was
/// closed tells the one at its place too much, and that one's next call finds it out.
fn remember(events: &Events, ready: &mut ReadyLinks, links: &mut Links<Connection>) -> bool
    ensures { links.new ≡ links.old }
{
    let mut acceptable = false;
    for event in events {
        if event.token() == LISTENER {
            acceptable = true;
            continue;
        }
        let place = event.token().0;
        ready.push(place);
        if let Some(link) = ready.at(place) {
            note(links, link, event);
        }
    }
    acceptable
}

/// Remembers what an event says of a link, if it is open.
fn note(links: &mut Links<Connection>, link: LinkId, event: &Event)
    ensures { links.new ≡ links.old }
{
    match links.get_mut(link) {
        Some(connection) => connection.note(event),
        None => {}
    }
}

/// Of the links that were named, those whose last call was cut short are to be named again, behind the others.
fn put_back(ready: &mut ReadyLinks, links: &mut Links<Connection>)
    ensures { links.new ≡ links.old }
{
    for _ in 0..ready.named() {
        if let Some(link) = ready.pop_named()
            && take_unfinished(links, link)
        {
            ready.push(link.index);
        }
    }
}

/// Whether a link's last call was cut short.
fn take_unfinished(links: &mut Links<Connection>, link: LinkId) -> bool
    ensures { links.new ≡ links.old }
{
    match links.get_mut(link) {
        Some(connection) => connection.take_unfinished(),
        None => false,
    }
}

/// The next of the links that may be ready and weren't named. One that was closed is passed over.
fn next_open(ready: &mut ReadyLinks, links: &Links<Connection>) -> Option<LinkId>
    ensures { IfSome result (λ link. IsSome (map.get links.now.open_links link)) }
{
    for _ in 0..ready.len() {
        if let Some(link) = ready.name_next()
            && links.contains(link)
        {
            return Some(link);
        }
    }
    None
}

impl Wire for SocketWire {
    ghost tells = { false };

    ghost links = { λ w. wire_of w.links [] };

    ghost failures = { λ w. w.failed.count };

    ghost waited = { λ _. record { times = 0; millis = 0 } };

    fn wait(&mut self, millis: u64) -> Result<(), Failed> {
        put_back(&mut self.ready, &mut self.links);
        let longest = if self.ready.is_empty() { millis } else { 0 };
        let timeout = Duration::from_millis(longest);
        if self.poll.poll(&mut self.events, Some(timeout)).is_err() {
            return Err(self.failed.failure());
        }
        let acceptable = remember(&self.events, &mut self.ready, &mut self.links);
        self.acceptable = self.acceptable || acceptable;
        Ok(())
    }

    fn accept(&mut self) -> Result<Option<LinkId>, Failed> {
        if !self.acceptable {
            return Ok(None);
        }
        self.lacks_descriptors = false;
        match let_in(&self.listener, self.is_full()) {
            Ok(Some(stream)) => {
                let link = self.open(Connection::new(stream))?;
                Ok(Some(link))
            }
            Ok(None) => Ok(None),
            Err(error) => match error.kind() {
                ErrorKind::Interrupted => Ok(None),
                ErrorKind::WouldBlock => {
                    self.acceptable = false;
                    Ok(None)
                }
                _ => {
                    self.lacks_descriptors = none_is_left(&error);
                    Err(self.failed.failure())
                }
            },
        }
    }

    fn connect(&mut self, host: &[u8], port: u16) -> Result<LinkId, Failed> {
        let Some(peer) = peer_named(host, port) else {
            return Err(self.failed.failure());
        };
        match Connection::asked_of(&self.net, peer) {
            Ok(connection) => self.open(connection),
            Err(_error) => Err(self.failed.failure()),
        }
    }

    fn ready(&mut self) -> Option<LinkId> {
        next_open(&mut self.ready, &self.links)
    }

    fn read(&mut self, link: LinkId, into: &mut [u8]) -> Moved {
        let moved = self.read_link(link, into);
        self.failed.tell(moved)
    }

    fn write(&mut self, link: LinkId, bytes: &[u8]) -> Moved {
        let moved = self.write_link(link, bytes);
        self.failed.tell(moved)
    }

    fn close(&mut self, link: LinkId) {
        let _closed = self.links.remove(link);
    }
}
