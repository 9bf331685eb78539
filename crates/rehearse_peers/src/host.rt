//! A node, and the links that were opened on it.
use crate::telling::{tell_count, tell_outs};
use mr_data::{Dataset, Given};
use mr_links::LinkId;
use mr_node::{Config, Node, Role, Step};
use mr_node_output::Outs;
use mr_repl::ReplId;
use rehearse_shared::{
    Line, RehearsalFault, bytes_of, given_of, id_of, place_of, tell, tell_bytes, tell_refusal,
};
use std::alloc::Global;
use std::hash::RandomState;

/// A node, and the links that were opened on it in order.
#[derive(Drop)]
pub struct Host {
    alloc: Global,
    seed: RandomState,
    node: Node,
    links: Vec<LinkId>,
}

impl Host {
    /// A node with this dataset, under this id.
    pub fn start(
        alloc: Global,
        seed: RandomState,
        id: ReplId,
        held: Dataset,
        config: Config,
    ) -> Result<Host, RehearsalFault> {
        let node = Node::start(alloc, id, held, config)?;
        Ok(Host {
            alloc,
            seed,
            node,
            links: Vec::new(alloc),
        })
    }

    /// Makes a call, and writes what came of it.
    pub fn make(&mut self, line: Line<'_>, out: &mut Vec<u8>) -> Result<(), RehearsalFault> {
        match line.name {
            "open" => self.open(out),
            "dial" => self.dial(out),
            "feed" => self.feed(line, out),
            "step" => self.step(line, out),
            "tick" => self.tick(line, out),
            "close" => self.close(line, out),
            "file_failed" => self.file_failed(out),
            _ => self.ask(line, out),
        }
    }

    /// Makes a call that changes nothing.
    fn ask(&self, line: Line<'_>, out: &mut Vec<u8>) -> Result<(), RehearsalFault> {
        match line.name {
            "shows" => self.shows(out),
            "info" => self.info(out),
            "role" => self.role(out),
            "waits" => self.waits(out),
            "room" => self.room(line, out),
            "unread" => self.unread(line, out),
            _ => Err(RehearsalFault::Line),
        }
    }

    /// The link that was opened at the place that a word spells. Fails where none was.
    fn link(&self, word: &str) -> Result<LinkId, RehearsalFault> {
        match self.links.as_slice().get(place_of(word)?) {
            Some(link) => Ok(*link),
            None => Err(RehearsalFault::Line),
        }
    }
}

// Calls that change it.
impl Host {
    /// Opens a client's link, and writes its number, or why it was refused.
    fn open(&mut self, out: &mut Vec<u8>) -> Result<(), RehearsalFault> {
        match self.node.open() {
            Ok(link) => self.tell_opened("opened", link, out),
            Err(fault) => tell_refusal(self.alloc, fault, out),
        }
    }

    /// Keeps the name of a new link, and writes its number.
    fn tell_opened(
        &mut self,
        name: &str,
        link: LinkId,
        out: &mut Vec<u8>,
    ) -> Result<(), RehearsalFault> {
        tell(out, name)?;
        tell(
            out,
            format!(in self.alloc; " {}", self.links.len())?.as_str(),
        )?;
        self.links.push(link)?;
        Ok(())
    }

    /// Dials the master, and writes the link's number and the outs, or why it was refused, or that the node doesn't
    /// wait for that.
    fn dial(&mut self, out: &mut Vec<u8>) -> Result<(), RehearsalFault> {
        if !self.node.waits() {
            return tell(out, "no dial");
        }
        match self.node.dial(self.seed) {
            Ok((link, outs)) => {
                self.tell_opened("dialled", link, out)?;
                self.tell_given(outs, out)
            }
            Err(fault) => tell_refusal(self.alloc, fault, out),
        }
    }

    /// Writes the outs, and gives them back.
    fn tell_given(&mut self, outs: Outs, out: &mut Vec<u8>) -> Result<(), RehearsalFault> {
        let told = tell_outs(self.alloc, &outs, out);
        self.node.reuse(outs);
        told
    }

    /// Writes that a step is done, and its outs, and gives these back.
    fn tell_done(&mut self, outs: Outs, out: &mut Vec<u8>) -> Result<(), RehearsalFault> {
        match tell(out, "done") {
            Ok(()) => self.tell_given(outs, out),
            Err(fault) => Err(fault),
        }
    }

    /// Feeds bytes to a link, and writes that they were fed, or why not.
    fn feed(&mut self, line: Line<'_>, out: &mut Vec<u8>) -> Result<(), RehearsalFault> {
        let link = self.link(line.first)?;
        let bytes = bytes_of(self.alloc, line.second)?;
        match self.node.feed(link, bytes.as_slice()) {
            Ok(()) => tell(out, "fed"),
            Err(fault) => tell_refusal(self.alloc, fault, out),
        }
    }

    /// Makes the step that a line names, and writes what came of it.
    fn step(&mut self, line: Line<'_>, out: &mut Vec<u8>) -> Result<(), RehearsalFault> {
        let link = self.link(line.first)?;
        let given = given_of(line.second, line.third)?;
        let fresh = id_of(line.fourth)?;
        self.make_step(link, given, fresh, out)
    }

    /// Makes a step at a link, and writes what it gave out, or why it was refused.
    fn make_step(
        &mut self,
        link: LinkId,
        given: Given,
        fresh: ReplId,
        out: &mut Vec<u8>,
    ) -> Result<(), RehearsalFault> {
        match self.node.step(link, given, fresh) {
            Ok(Step::Idle) => tell(out, "idle"),
            Ok(Step::Closed) => tell(out, "closed"),
            Ok(Step::Done(outs)) => self.tell_done(outs, out),
            Err(fault) => tell_refusal(self.alloc, fault, out),
        }
    }

    /// Makes a tick, and writes what it gave out, or why it was refused.
    fn tick(&mut self, line: Line<'_>, out: &mut Vec<u8>) -> Result<(), RehearsalFault> {
        let given = given_of(line.first, "0")?;
        match self.node.tick(given) {
            Ok(outs) => self.tell_done(outs, out),
            Err(fault) => tell_refusal(self.alloc, fault, out),
        }
    }

    /// Closes a link, and writes so.
    fn close(&mut self, line: Line<'_>, out: &mut Vec<u8>) -> Result<(), RehearsalFault> {
        let link = self.link(line.first)?;
        self.node.close(link);
        tell(out, "closed")
    }

    /// Tells the node that its file failed, and writes that it is stopped.
    fn file_failed(&mut self, out: &mut Vec<u8>) -> Result<(), RehearsalFault> {
        self.node.file_failed();
        tell(out, "stopped")
    }
}

// Calls that change nothing.
impl Host {
    /// Writes the id and the offset that the node shows, if it does.
    fn shows(&self, out: &mut Vec<u8>) -> Result<(), RehearsalFault> {
        match self.node.shows() {
            Some((id, offset)) => tell(
                out,
                format!(in self.alloc; "shows {id} {offset}")?.as_str(),
            ),
            None => tell(out, "nothing"),
        }
    }

    /// Writes INFO's text, or why it was refused.
    fn info(&self, out: &mut Vec<u8>) -> Result<(), RehearsalFault> {
        match self.node.info() {
            Ok(text) => {
                tell(out, "text")?;
                tell_bytes(self.alloc, text.as_slice(), out)
            }
            Err(fault) => tell_refusal(self.alloc, fault, out),
        }
    }

    /// Writes the node's role and, of a replica, how far it has come with the link to its master.
    fn role(&self, out: &mut Vec<u8>) -> Result<(), RehearsalFault> {
        match self.node.role() {
            Role::Master => tell(out, "master"),
            Role::Connect => tell(out, "connect"),
            Role::Sync => tell(out, "sync"),
            Role::Connected => tell(out, "connected"),
        }
    }

    /// Writes whether the node is a replica without a link to its master.
    fn waits(&self, out: &mut Vec<u8>) -> Result<(), RehearsalFault> {
        tell(
            out,
            if self.node.waits() {
                "waits"
            } else {
                "doesn't wait"
            },
        )
    }

    /// Writes how many bytes may come on a link.
    fn room(&self, line: Line<'_>, out: &mut Vec<u8>) -> Result<(), RehearsalFault> {
        let room = self.node.room(self.link(line.first)?);
        tell_count(self.alloc, "room", room, out)
    }

    /// Writes how many bytes of a link are unread.
    fn unread(&self, line: Line<'_>, out: &mut Vec<u8>) -> Result<(), RehearsalFault> {
        let unread = self.node.unread(self.link(line.first)?);
        tell_count(self.alloc, "unread", unread, out)
    }
}
