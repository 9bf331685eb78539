// Links that come, are fed and go.
ghost use Rattle.std.specs.Prelude.{◌≡◌, ◌+◌, ◌↔◌, ◌⊎◌, [], true, false, None, IfNone, IfSome, IsTrue, length};
ghost use Rattle.mr_node_spec.specs.State.{Agrees, end_of, room_of};
ghost use Rattle.mr_node_spec.specs.LinkRows.{Opens, closed_at};
ghost use Rattle.mr_node.specs.Calls.{DialRow, FeedRow, IsClients, IsUnread, OpenRow, OpensNoMore, OpensOn, Unreads};

use crate::fault::NodeFault;
use crate::node::Node;
use mr_follower::fed_bytes_are_unread;
use mr_links::{LINKS_LIMIT, LinkId};
use mr_node_links::Kind;
use mr_node_output::Outs;
use std::hash::RandomState;

/// The first line of the handshake.
const PING_LINE: &[u8] = b"*1\r\n$4\r\nPING\r\n";

impl Node {
    /// Opens the node's end of a client's link, under a name that was never given before. Past the last name the node stops.
    pub fn open(&mut self) -> Result<LinkId, NodeFault>
        ensures { OpenRow self.old self.new result }
    {
        // a name is given once, so that they may run out
        if self.opens_no_more() {
            return Err(NodeFault::Stopped);
        }
        match self.state.open() {
            Ok(link) => Ok(link),
            Err(_) => Err(NodeFault::Memory),
        }
    }

    /// Undoes `open`, of the end that was opened last, where nothing was fed there: the node is as if it had never been opened, but that a
    /// node which was stopped since stays so.
    pub fn take_back(&mut self, link: LinkId)
        requires open { Agrees self.old link [] }
        requires last { self.old.ends.opened ≡ link.generation + 1 }
        ensures { Opens self.new link self.old }
    {
        self.state.take_back(link);
    }

    /// Whether the node is a replica without a link to its master, stopped or not.
    pub fn waits(&self) -> bool
        ensures { IsTrue result ↔
            ((self.now.core.master ≡ false) × (self.now.follow ≡ None)) }
    {
        !self.state.master() && self.state.followed().is_none()
    }

    /// Opens the link to the master of a replica that has none, and begins the handshake. The datasets of snapshots have this seed, which
    /// changes no answer.
    pub fn dial(&mut self, seed: RandomState) -> Result<(LinkId, Outs), NodeFault>
        requires replica { self.old.core.master ≡ false }
        requires alone { self.old.follow ≡ None }
        ensures { DialRow self.old self.new result }
    {
        // as they may for clients' links
        if self.opens_no_more() {
            return Err(NodeFault::Stopped);
        }
        let mut outs = self.fresh_outs(None);
        if outs.say_bytes(PING_LINE).is_err() {
            return Err(NodeFault::Memory);
        }
        let Ok(link) = self.state.dial(seed) else {
            return Err(NodeFault::Memory);
        };
        outs.bind(link);
        Ok((link, outs))
    }

    /// Whether the node is stopped, or stops now since too many links were opened.
    fn opens_no_more(&mut self) -> bool
        ensures yes { IsTrue result → OpensNoMore self.old self.new }
        ensures no { result ≡ false → OpensOn self.old self.new }
    {
        if !self.state.up() {
            return true;
        }
        if self.state.ends().opened() < LINKS_LIMIT {
            return false;
        }
        self.state.stop();
        true
    }

    /// How many bytes `feed` takes on the link now: none where the link isn't there or the node is stopped. It takes no memory.
    pub fn room(&self, link: LinkId) -> Option<usize>
        ensures { result ≡ room_of self.now link }
    {
        if !self.state.up() {
            return None;
        }
        let end = self.state.ends().get(link)?;
        match end.kind() {
            Kind::Client | Kind::Replica => Some(end.room()),
            Kind::Upstream | Kind::Shut => Some(usize::MAX),
        }
    }

    /// Whether the node's end of a link is a client's, stopped or not. It takes no memory.
    pub fn is_client(&self, link: LinkId) -> bool
        ensures { IsTrue result ↔ IsClients self.now link }
    {
        let Some(end) = self.state.ends().get(link) else {
            return false;
        };
        match end.kind() {
            Kind::Client => true,
            Kind::Replica | Kind::Upstream | Kind::Shut => false,
        }
    }

    /// How many bytes were fed on a link and not used; none where the link isn't there or the node is stopped. It takes no memory.
    pub fn unread(&self, link: LinkId) -> Option<usize>
        ensures count { IsUnread self.now link result }
        ensures there { IfSome result (λ count. Unreads self.now link count) }
        ensures absent { IfNone result ((self.now.core.up ≡ false) ⊎
            (end_of self.now link ≡ None)) }
    {
        if !self.state.up() {
            return None;
        }
        let end = self.state.ends().get(link)?;
        match end.kind() {
            Kind::Client | Kind::Replica => Some(end.unread().len()),
            Kind::Upstream => Some(self.state.unread_len() as usize),
            Kind::Shut => Some(0),
        }
    }

    /// Bytes come on a link. On one that the node closed they are dropped.
    pub fn feed(&mut self, link: LinkId, bytes: &[u8]) -> Result<(), NodeFault>
        ensures { FeedRow self.old link bytes.now (length bytes.now) self.new result }
    {
        if !self.state.up() {
            return Err(NodeFault::Stopped);
        }
        let Some(end) = self.state.ends().get(link) else {
            return Err(NodeFault::NoLink);
        };
        if bytes.is_empty() {
            return Ok(());
        }
        let fed = match end.kind() {
            Kind::Client | Kind::Replica => {
                if bytes.len() > end.room() {
                    return Err(NodeFault::InputFull);
                }
                self.state.hear(link, bytes)
            }
            Kind::Upstream => {
                fed_bytes_are_unread();
                self.state.hear_master(bytes)
            }
            Kind::Shut => Ok(()),
        };
        match fed {
            Ok(()) => Ok(()),
            Err(_) => Err(NodeFault::Memory),
        }
    }

    /// Closes a link. Where it isn't there nothing changes.
    pub fn close(&mut self, link: LinkId)
        ensures { self.new ≡ closed_at link self.old }
    {
        self.state.close(link);
    }
}
