//! The wire of a server, which knows of the link to the master and of those whose peers are silent: on these it hangs up.
ghost use Rattle.std.specs.Prelude.{◌≡◌, [], false};
ghost use Rattle.mr_wire.specs.Wire.{wire_of};

use crate::leading::peer_of;
use crate::master_link::MasterLink;
use mr_links::LinkId;
use mr_loop::Links;
use mr_node::Node;
use mr_silence::{Cause, Limits, Peer, Silence};
use mr_wire::{Failed, Moved, SocketWire, Wire};
use std::time::Instant;

/// How often a wire saw what is told of it. Each count stays at 2^64 - 1.
#[derive(Clone, Copy)]
pub struct Seen {
    /// How often no descriptor was left for a link that a peer opened.
    pub lacking: u64,
    /// How many replicas it hung up on.
    pub replicas: u64,
    /// How many clients that were idle.
    pub idle: u64,
    /// How many links whose end the node had closed, and where nothing was taken of what waited.
    pub parting: u64,
}

impl Seen {
    /// Nothing was seen yet.
    pub fn nothing() -> Seen {
        Seen {
            lacking: 0,
            replicas: 0,
            idle: 0,
            parting: 0,
        }
    }
}

/// A wire over the system's sockets. It hangs up on a master and on replicas that have been silent for too long, on clients that are
/// idle where there is a limit, and on links that the node has closed and where nothing is taken of what waits.
/// What is behind it then finds the end of the link, as where the peer had closed it.
#[derive(Drop)]
pub struct ToldWire {
    rt: HostRuntime,
    wire: SocketWire,
    master: MasterLink,
    silence: Silence,
    /// When the last wait began.
    waited: Option<Instant>,
    /// The links on which bytes came since the node was asked whom they lead to.
    moved: Vec<LinkId>,
    seen: Seen,
}

/// Of a wire: what it saw of its links' peers, of whom the node knows who they are.
pub trait SeesPeers: Wire {
    /// The link that was dialled last, and how often such links came and went.
    fn master(&self) -> &MasterLink;

    /// What it saw since it was opened.
    fn seen(&self) -> Seen;

    /// Has the node say whom the links lead to on which bytes came, and once a second of all links. Then it hangs up on each peer that
    /// has been silent for too long.
    fn look(&mut self, node: &Node, own: &Links)
        ensures links { Self.links self.new ≡ Self.links self.old }
        ensures failures { Self.failures self.new ≡ Self.failures self.old };
}

impl ToldWire {
    /// The wire over these sockets, whose peers may be silent for so long. A master may be for so many seconds.
    pub fn new(rt: HostRuntime, wire: SocketWire, limits: Limits, timeout: u64) -> ToldWire {
        let alloc = rt.alloc();
        ToldWire {
            rt,
            wire,
            master: MasterLink::new(alloc, timeout),
            silence: Silence::new(alloc, limits),
            waited: None,
            moved: Vec::new(alloc),
            seen: Seen::nothing(),
        }
    }

    /// Has the clock of the silence go on. Where the system's clock fails no time has passed.
    fn pass(&mut self)
        ensures links { self.new.wire.links ≡ self.old.wire.links }
        ensures failed { self.new.wire.failed ≡ self.old.wire.failed }
    {
        let Ok(now) = Instant::now(&self.rt) else {
            return;
        };
        if let Some(last) = self.waited {
            let millis = u64::try_from(now.duration_since(last).as_millis());
            self.silence.pass(millis.unwrap_or(u64::MAX));
        }
        self.waited = Some(now);
    }
}

/// Has the node say whom the links lead to on which bytes came.
fn lead_moved(
    silence: &mut Silence,
    moved: &mut Vec<LinkId>,
    master: &MasterLink,
    node: &Node,
    own: &Links,
) {
    for socket in moved.iter() {
        silence.lead(*socket, peer_of(node, own, master, *socket));
    }
    moved.clear();
}

/// Has the node say whom all links lead to.
fn lead_all(silence: &mut Silence, master: &MasterLink, node: &Node, own: &Links) {
    for index in 0..silence.len() {
        if let Some(socket) = silence.link_at(index) {
            silence.lead(socket, peer_of(node, own, master, socket));
        }
    }
}

/// Hangs up on each peer that has been silent for too long, which is counted, or of the master noted.
fn hang_up_silent(
    wire: &mut SocketWire,
    silence: &mut Silence,
    master: &mut MasterLink,
    seen: &mut Seen,
)
    ensures links { wire.new.links ≡ wire.old.links }
    ensures failed { wire.new.failed ≡ wire.old.failed }
{
    for index in 0..silence.len() {
        if let Some((link, cause)) = silence.silent_at(index) {
            wire.hang_up(link);
            silence.forget(link);
            count(seen, master, link, cause);
        }
    }
}

/// Counts that a peer was hung up on for this cause.
fn count(seen: &mut Seen, master: &mut MasterLink, link: LinkId, cause: Cause) {
    match cause {
        Cause::Master => master.hang_up(link),
        Cause::Replica => seen.replicas = seen.replicas.saturating_add(1),
        Cause::Idle => seen.idle = seen.idle.saturating_add(1),
        Cause::Parting => seen.parting = seen.parting.saturating_add(1),
    }
}

impl SeesPeers for ToldWire {
    fn master(&self) -> &MasterLink {
        &self.master
    }

    fn seen(&self) -> Seen {
        self.seen
    }

    fn look(&mut self, node: &Node, own: &Links) {
        lead_moved(&mut self.silence, &mut self.moved, &self.master, node, own);
        if !self.silence.is_due() {
            return;
        }
        lead_all(&mut self.silence, &self.master, node, own);
        hang_up_silent(
            &mut self.wire,
            &mut self.silence,
            &mut self.master,
            &mut self.seen,
        );
    }
}

/// How many bytes a read or a write moved.
fn count_of(moved: Moved) -> usize {
    match moved {
        Moved::Bytes(count) => count,
        Moved::NotReady | Moved::End | Moved::Failed => 0,
    }
}

impl Wire for ToldWire {
    ghost tells = { false };

    ghost links = { λ w. wire_of w.wire.links [] };

    ghost failures = { λ w. w.wire.failed.count };

    ghost waited = { λ _. record { times = 0; millis = 0 } };

    fn wait(&mut self, millis: u64) -> Result<(), Failed> {
        self.pass();
        self.wire.wait(millis)
    }

    fn accept(&mut self) -> Result<Option<LinkId>, Failed> {
        let accepted = self.wire.accept();
        if let Ok(Some(link)) = accepted {
            let _watched = self.silence.open(link, Peer::Client);
        }
        if self.wire.lacks_descriptors() {
            self.seen.lacking = self.seen.lacking.saturating_add(1);
        }
        accepted
    }

    fn connect(&mut self, host: &[u8], port: u16) -> Result<LinkId, Failed> {
        let connected = self.wire.connect(host, port);
        self.master.connected(connected);
        if let Ok(link) = connected {
            let _watched = self.silence.open(link, Peer::Master);
        }
        connected
    }

    fn ready(&mut self) -> Option<LinkId> {
        self.wire.ready()
    }

    fn read(&mut self, link: LinkId, into: &mut [u8]) -> Moved {
        let moved = self.wire.read(link, into);
        self.master.read(link, moved, into);
        let count = count_of(moved);
        self.silence.came(link, count);
        if count > 0 && self.moved.last() != Some(&link) {
            // without memory for it, the node is asked within a second
            let _noted = self.moved.push(link);
        }
        moved
    }

    fn write(&mut self, link: LinkId, bytes: &[u8]) -> Moved {
        let moved = self.wire.write(link, bytes);
        self.master.written(link, moved);
        self.silence.went(link, bytes.len(), count_of(moved));
        moved
    }

    fn close(&mut self, link: LinkId) {
        self.master.closed(link);
        self.silence.forget(link);
        self.wire.close(link);
    }
}
