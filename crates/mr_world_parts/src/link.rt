// A link to a node.
ghost use Rattle.std.specs.Prelude.{◌≡◌, ◌≢◌, ◌+◌, ◌≤◌, ◌↔◌, ◌==◌, ◌&&◌, [], true, false, length, take, drop, IfNone, IfSome, IsTrue, OnOk, OnErr, ℕ};
ghost use Rattle.mr_node_links.specs.Replicas.{is_named};
ghost use Rattle.law_refinement.specs.State.{a_client, a_node};
ghost use Rattle.law_refinement.specs.Way.{left_on, no_way, sent_on, taken_on};
ghost use Rattle.law_refinement.specs.Carrying.{accepted_by, fed_if, is_at, opened_link, shut_if, told};
ghost use Rattle.mr_world_parts.specs.AtLink.{IsAsking, by_node, shut_at, heard_by};
ghost use Rattle.mr_world_parts.specs.Lending.{took_at};
ghost use Rattle.mr_world_parts.specs.Undoing.{asked, unasked, unfed_if, untold};

use crate::way::Way;
use mr_links::{LinkId, Side};
use mr_node_output::Outs;
use std::alloc::{AllocError, Global};
use std::marker::Model;

/// A node, and its own name for a link.
#[derive(Clone, Copy)]
pub struct NodeEnd {
    pub node: usize,
    pub name: LinkId,
}

/// A link to a node, of a client or of another node.
#[derive(Drop)]
pub struct Link {
    peer: Option<(usize, LinkId)>,
    asking: bool,
    waits: bool,
    to: usize,
    name: LinkId,
    serving: bool,
    streams: bool,
    ask: Way,
    tell: Way,
}

impl Model for Link {
    ghost use Rattle.law_refinement.specs.State.{Link as LinkState};
    ghost use Rattle.mr_world_parts.specs.Codes.{caller_as, link_code};

    ghost Value = { LinkState };

    ghost coded = { link_code };

    ghost view = { λ k. record { caller = caller_as k.peer k.asking; waits = k.waits; to = k.to; name = k.name; serving = k.serving; streams = k.streams; ask = k.ask; tell = k.tell } };
}

impl Link {
    /// A client's link to a node that knows it by this name.
    pub fn client(alloc: Global, to: usize, name: LinkId) -> Link
        ensures { result ≡ opened_link to name }
    {
        Link {
            peer: None,
            asking: true,
            waits: false,
            to,
            name,
            serving: true,
            streams: false,
            ask: Way::new(alloc),
            tell: Way::new(alloc),
        }
    }

    /// The link between two nodes; this is what was sent on it by who opened it.
    pub fn of_node(alloc: Global, opener: NodeEnd, server: NodeEnd, ask: Way) -> Link
        ensures { result ≡
            record {
              caller = a_node opener.node opener.name;
              waits = false;
              to = server.node;
              name = server.name;
              serving = true;
              streams = false;
              ask = ask;
              tell = no_way;
            } }
    {
        Link {
            peer: Some((opener.node, opener.name)),
            asking: false,
            waits: false,
            to: server.node,
            name: server.name,
            serving: true,
            streams: false,
            ask,
            tell: Way::new(alloc),
        }
    }

    /// The link of a node, which knows it by this name, that no node has accepted yet; this is what was sent on it.
    pub fn waiting(alloc: Global, n: usize, name: LinkId, ask: Way) -> Link
        ensures { result ≡
            record {
              caller = a_node n name;
              waits = true;
              to = n;
              name = name;
              serving = false;
              streams = false;
              ask = ask;
              tell = no_way;
            } }
    {
        // until a node accepts it, the one that dialled stands in the server's place
        let dialler = NodeEnd { node: n, name };
        let mut link = Link::of_node(alloc, dialler, dialler, ask);
        link.waits = true;
        link.serving = false;
        link
    }

    /// Whether no node has accepted it yet.
    pub fn waits(&self) -> bool
        ensures { result ≡ self.now.waits }
    {
        self.waits
    }

    /// A node serves it from now on, which knows it by this name: what was sent on it is there to be taken.
    pub fn accept(&mut self, to: usize, name: LinkId)
        ensures { self.new ≡ accepted_by to name self.old }
    {
        self.waits = false;
        self.to = to;
        self.name = name;
        self.serving = true;
    }

    /// Whether it is a client's, whose end is open.
    pub fn is_asking(&self) -> bool
        ensures { IsTrue result ↔ IsAsking self.now }
    {
        self.peer.is_none() && self.asking
    }

    /// The node that dialled, and its name for the link; none of a client's.
    pub fn peer(&self) -> Option<(usize, LinkId)>
        ensures node { IfSome result (λ p. self.now.caller ≡ a_node p.0 p.1) }
        ensures client { IfNone result ((n : ℕ) (name : LinkId) →
            self.now.caller ≡ a_node n name → ⊥) }
    {
        self.peer
    }

    /// Whether a node asked for it.
    pub fn is_of_node(&self) -> bool
        ensures { result ≡ by_node self.now.caller }
    {
        self.peer.is_some()
    }

    /// All bytes that the end at this side took.
    pub fn took(&self, side: Side) -> &[u8]
        ensures { result.now ≡ took_at side self.now }
    {
        match side {
            Side::Opener => self.tell.taken(),
            Side::Server => self.ask.taken(),
        }
    }

    /// The caller sends more.
    pub fn ask(&mut self, bytes: &[u8]) -> Result<(), AllocError>
        ensures ok { OnOk result (self.new ≡
            record self.old { ask = sent_on bytes.now self.old.ask }) }
        ensures err { OnErr result (self.new ≡ self.old) }
        ensures some { OnErr result (bytes.now ≢ []) }
    {
        self.ask.send(bytes)?;
        Ok(())
    }

    /// Whether so many bytes more were sent to the server.
    pub fn has_asked(&self, count: usize) -> bool
        ensures { IsTrue result ↔ (self.now.ask.taken + count ≤ length self.now.ask.sent) }
    {
        self.ask.has(count)
    }

    /// The next bytes that the server is to take.
    pub fn next_asked(&self, count: usize) -> &[u8]
        requires { self.now.ask.taken + count ≤ length self.now.ask.sent }
        ensures { result.now ≡ take count (drop self.now.ask.taken self.now.ask.sent) }
    {
        self.ask.next(count)
    }

    /// The server takes them.
    pub fn take_asked(&mut self, count: usize)
        requires { self.old.ask.taken + count ≤ length self.old.ask.sent }
        ensures { self.new ≡ record self.old { ask = taken_on count self.old.ask } }
    {
        self.ask.take(count);
    }

    /// Whether so many bytes more were sent to the caller.
    pub fn has_told(&self, count: usize) -> bool
        ensures { IsTrue result ↔ (self.now.tell.taken + count ≤ length self.now.tell.sent) }
    {
        self.tell.has(count)
    }

    /// The next bytes that the caller is to take.
    pub fn next_told(&self, count: usize) -> &[u8]
        requires { self.now.tell.taken + count ≤ length self.now.tell.sent }
        ensures { result.now ≡ take count (drop self.now.tell.taken self.now.tell.sent) }
    {
        self.tell.next(count)
    }

    /// The caller takes them.
    pub fn take_told(&mut self, count: usize)
        requires { self.old.tell.taken + count ≤ length self.old.tell.sent }
        ensures { self.new ≡ record self.old { tell = taken_on count self.old.tell } }
    {
        self.tell.take(count);
    }

    /// The client closes its end.
    pub fn leave(&mut self)
        requires { IsAsking self.old }
        ensures { self.new ≡ record self.old { caller = a_client false } }
    {
        self.asking = false;
    }

    /// Whether the server's end is open.
    pub fn serving(&self) -> bool
        ensures { result ≡ self.now.serving }
    {
        self.serving
    }

    /// The node that serves.
    pub fn to(&self) -> usize
        ensures { result ≡ self.now.to }
    {
        self.to
    }

    /// By which that node knows it.
    pub fn name(&self) -> LinkId
        ensures { result ≡ self.now.name }
    {
        self.name
    }

    /// The server's end closes.
    pub fn shut(&mut self)
        ensures { self.new ≡ record self.old { serving = false } }
    {
        self.serving = false;
    }

    /// The server's end is open, of a replica or of a client, with so many bytes unread.
    pub(crate) fn stay(&mut self, streams: bool, left: usize)
        ensures { self.new ≡
            record self.old { streams = streams; ask = left_on left self.old.ask } }
    {
        self.streams = streams;
        self.ask.leave(left);
    }

    /// The server's end closes, where this node serves
    pub fn shut_at(&mut self, n: usize)
        ensures { self.new ≡ shut_at n self.old }
    {
        if self.to == n {
            self.shut();
        }
    }

    /// Whether it is a link that this node serves.
    fn is_at(&self, n: usize) -> bool
        ensures { result ≡ is_at n self.now }
    {
        self.to == n && self.serving
    }

    /// The server sends more.
    pub(crate) fn tell(&mut self, bytes: &[u8]) -> Result<(), AllocError>
        ensures ok { OnOk result (self.new ≡ told bytes.now self.old) }
        ensures err { OnErr result (self.new ≡ self.old) }
        ensures some { OnErr result (bytes.now ≢ []) }
    {
        self.tell.send(bytes)?;
        Ok(())
    }

    /// It didn't, so many bytes.
    pub(crate) fn untell(&mut self, count: usize)
        ensures { self.new ≡ untold count self.old }
    {
        self.tell.unsend(count);
    }

    /// The caller didn't send them.
    pub(crate) fn unask(&mut self, count: usize)
        ensures { self.new ≡ unasked count self.old }
    {
        self.ask.unsend(count);
    }

    /// The caller sends more, and leaves so many bytes unread of those that it took; nothing where it is there no more.
    pub(crate) fn hear(&mut self, reply: &[u8], left: Option<usize>) -> Result<(), AllocError>
        ensures ok { OnOk result (self.new ≡ heard_by left reply.now self.old) }
        ensures err { OnErr result (self.new ≡ self.old) }
        ensures some { OnErr result (reply.now ≢ []) }
    {
        match left {
            Some(left) => {
                self.ask.send(reply)?;
                self.tell.leave(left);
                Ok(())
            }
            None => Ok(()),
        }
    }

    /// What the stream grew by is sent, where the outs of this node say so.
    pub(crate) fn feed_if(&mut self, n: usize, outs: &Outs) -> Result<(), AllocError>
        ensures ok { OnOk result (self.new ≡
            fed_if (is_at n self.old &&
            is_named outs.now.fed self.old.name) outs.now.grown self.old) }
        ensures err { OnErr result (self.new ≡ self.old) }
        ensures some { OnErr result (outs.now.grown ≢ []) }
    {
        if self.is_at(n) && is_named(outs.fed(), self.name) {
            return self.tell(outs.grown());
        }
        Ok(())
    }

    /// It wasn't.
    pub(crate) fn unfeed_if(&mut self, n: usize, outs: &Outs)
        ensures { self.new ≡
            unfed_if (is_at n self.old &&
            is_named outs.now.fed self.old.name) (length outs.now.grown) self.old }
    {
        if self.is_at(n) && is_named(outs.fed(), self.name) {
            self.untell(outs.grown().len());
        }
    }

    /// The end closes, where the outs of this node say so.
    pub(crate) fn shut_if(&mut self, n: usize, outs: &Outs)
        ensures { self.new ≡
            shut_if (is_at n self.old && is_named outs.now.closed self.old.name) self.old }
    {
        if self.is_at(n) && is_named(outs.closed(), self.name) {
            self.shut();
        }
    }
}

/// Whether the name is among these.
fn is_named(names: &[LinkId], name: LinkId) -> bool
    ensures { result ≡ is_named names.now name }
{
    for other in names.iter() {
        if *other == name {
            return true;
        }
    }
    false
}
