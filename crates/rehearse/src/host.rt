//! A node, and the links that were opened on it.
use crate::call::NodeCall;
use crate::telling::tell_outs;
use mr_data::{Dataset, Given};
use mr_links::LinkId;
use mr_node::{Config, Node, Step};
use mr_node_output::Outs;
use mr_repl::ReplId;
use rehearse_shared::{RehearsalFault, tell, tell_refusal};
use std::alloc::Global;

/// A node, and the links that were opened on it in order.
#[derive(Drop)]
pub struct Host {
    node: Node,
    links: Vec<LinkId>,
}

impl Host {
    /// A node with this dataset, under the id of forty `a`.
    pub fn start(alloc: Global, held: Dataset, config: Config) -> Result<Host, RehearsalFault> {
        let node = Node::start(alloc, ReplId::new([0xaa; 20]), held, config)?;
        Ok(Host {
            node,
            links: Vec::new(alloc),
        })
    }

    /// Makes a call, and writes what it answered.
    pub fn make(
        &mut self,
        alloc: Global,
        call: NodeCall,
        given: Given,
        out: &mut Vec<u8>,
    ) -> Result<(), RehearsalFault> {
        match call {
            NodeCall::Open => self.open(alloc, out),
            NodeCall::Feed(link, bytes) => self.feed(alloc, link, bytes.as_slice(), out),
            NodeCall::Step(link) => self.step(alloc, link, given, out),
            NodeCall::Room(link) => self.room(alloc, link, out),
            NodeCall::Close(link) => self.close(link, out),
            NodeCall::Tick => self.tick(alloc, given, out),
            NodeCall::FileFailed => self.file_failed(out),
            NodeCall::Shows => self.shows(alloc, out),
        }
    }

    /// The link that was opened at a place. Fails where none was.
    fn link(&self, place: usize) -> Result<LinkId, RehearsalFault> {
        match self.links.as_slice().get(place) {
            Some(link) => Ok(*link),
            None => Err(RehearsalFault::Line),
        }
    }

    /// Opens a link, and writes that it was opened, or why not.
    fn open(&mut self, alloc: Global, out: &mut Vec<u8>) -> Result<(), RehearsalFault> {
        match self.node.open() {
            Ok(link) => {
                self.links.push(link)?;
                tell(out, "opened")
            }
            Err(fault) => tell_refusal(alloc, fault, out),
        }
    }

    /// Feeds bytes to a link, and writes that they were fed, or why not.
    fn feed(
        &mut self,
        alloc: Global,
        place: usize,
        bytes: &[u8],
        out: &mut Vec<u8>,
    ) -> Result<(), RehearsalFault> {
        let link = self.link(place)?;
        match self.node.feed(link, bytes) {
            Ok(()) => tell(out, "fed"),
            Err(fault) => tell_refusal(alloc, fault, out),
        }
    }

    /// Makes a step at a link, and writes what it gave out, or why it was refused.
    fn step(
        &mut self,
        alloc: Global,
        place: usize,
        given: Given,
        out: &mut Vec<u8>,
    ) -> Result<(), RehearsalFault> {
        let link = self.link(place)?;
        match self.node.step(link, given, ReplId::numbered(1)) {
            Ok(Step::Idle) => tell(out, "idle"),
            Ok(Step::Closed) => tell(out, "closed"),
            Ok(Step::Done(outs)) => self.tell_done(alloc, outs, out),
            Err(fault) => tell_refusal(alloc, fault, out),
        }
    }

    /// Makes a tick, and writes what it gave out, or why it was refused.
    fn tick(
        &mut self,
        alloc: Global,
        given: Given,
        out: &mut Vec<u8>,
    ) -> Result<(), RehearsalFault> {
        match self.node.tick(given) {
            Ok(outs) => self.tell_done(alloc, outs, out),
            Err(fault) => tell_refusal(alloc, fault, out),
        }
    }

    /// Writes the outs, and gives them back.
    fn tell_done(
        &mut self,
        alloc: Global,
        outs: Outs,
        out: &mut Vec<u8>,
    ) -> Result<(), RehearsalFault> {
        let told = tell_outs(alloc, &outs, out);
        self.node.reuse(outs);
        told
    }

    /// Writes how many bytes may come on a link, or that it is gone.
    fn room(&self, alloc: Global, place: usize, out: &mut Vec<u8>) -> Result<(), RehearsalFault> {
        match self.node.room(self.link(place)?) {
            Some(room) => tell(out, format!(in alloc; "room {room}")?.as_str()),
            None => tell(out, "gone"),
        }
    }

    /// Closes a link, and writes so.
    fn close(&mut self, place: usize, out: &mut Vec<u8>) -> Result<(), RehearsalFault> {
        let link = self.link(place)?;
        self.node.close(link);
        tell(out, "closed")
    }

    /// Tells the node that its file failed, and writes that it is stopped.
    fn file_failed(&mut self, out: &mut Vec<u8>) -> Result<(), RehearsalFault> {
        self.node.file_failed();
        tell(out, "stopped")
    }

    /// Writes the id and the offset that the node shows, if it does.
    fn shows(&self, alloc: Global, out: &mut Vec<u8>) -> Result<(), RehearsalFault> {
        match self.node.shows() {
            Some((id, offset)) => tell(out, format!(in alloc; "shows {id} {offset}")?.as_str()),
            None => tell(out, "nothing"),
        }
    }
}
