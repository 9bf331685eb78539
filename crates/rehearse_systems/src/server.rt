//! A server that runs, and what its turns need.
ghost use Rattle.std.specs.Prelude.{◌≡◌, [], IsTrue, false, true};

use crate::joined_wire::JoinedWire;
use crate::source::NumberedSource;
use crate::telling::tell_turn;
use mr_aof::Log;
use mr_data::Given;
use mr_file::MemFile;
use mr_links::LinkId;
use mr_loop::{Links, turn};
use mr_node::{Node, Role, Step};
use mr_repl::ReplId;
use rehearse_shared::{RehearsalFault, tell, tell_bytes, tell_fault, tell_shown};
use std::alloc::Global;
use std::hash::RandomState;

/// The request to which a node answers with the commands that make its dataset.
const REBUILD: &[u8] = b"BGREWRITEAOF\r\n";

/// A server that runs.
pub struct Server {
    alloc: Global,
    node: Node,
    links: Links,
    log: Log<MemFile>,
    source: NumberedSource,
    /// No turn may begin any more: the last met a fault, or a client said SHUTDOWN in it.
    over: bool,
    ghost filed: { over ≡ false → links.batch ≡ [] },
    ghost runs: { over ≡ false → links.halted ≡ false },
    ghost up: { over ≡ false → node.core.up ≡ true },
}

// By hand, so that it is one call wherever a value goes (docs/PROVING.md).
impl Drop for Server {
    fn drop(self) {
        let Server {
            alloc: _,
            node: _,
            links: _,
            log: _,
            source: _,
            over: _,
        } = self;
    }
}

/// Whether a node isn't stopped.
fn is_up(node: &Node) -> bool
    ensures { IsTrue result → node.now.core.up ≡ true }
{
    node.shows().is_some()
}

impl Server {
    /// One whose node has started, with the log of its file.
    pub fn new(
        alloc: Global,
        seed: RandomState,
        node: Node,
        log: Log<MemFile>,
        source: NumberedSource,
    ) -> Result<Server, RehearsalFault>
        requires { node.core.up ≡ true }
    {
        let links = Links::new(alloc, seed)?;
        Ok(Server {
            alloc,
            node,
            links,
            log,
            source,
            over: false,
        })
    }

    /// Sets its clock to so many milliseconds, unless it is there or further.
    pub fn set_clock(&mut self, millis: u64) {
        self.source.set(millis);
    }

    /// A turn over its wire, where one may begin.
    pub fn turn(&mut self, wire: &mut JoinedWire, out: &mut Vec<u8>) -> Result<(), RehearsalFault> {
        if self.over {
            return tell(out, "over");
        }
        self.over = true;
        match turn(
            &mut self.node,
            &mut self.links,
            wire,
            &mut self.log,
            &mut self.source,
        ) {
            Ok(told) => {
                self.over = told.halted;
                tell_turn(self.alloc, told, out)
            }
            Err(fault) => tell_fault(self.alloc, fault, out),
        }
    }

    /// What its file keeps where it is killed: what was synced, and so many bytes behind that.
    pub fn kept(&self, unsynced: usize) -> Result<Vec<u8>, RehearsalFault> {
        let file = self.log.file();
        let held = file.bytes();
        let count = file.synced().saturating_add(unsynced).min(held.len());
        Ok(Vec::from_slice(self.alloc, &held[..count])?)
    }
}

// What it shows.
impl Server {
    /// Writes its role, the id and the offset that its node shows, the commands that make what the node holds, and how long its file
    /// is, and how much of that was synced; or that the node is stopped.
    pub fn show(&mut self, out: &mut Vec<u8>) -> Result<(), RehearsalFault> {
        let Some((id, offset)) = self.node.shows() else {
            return tell(out, "stopped");
        };
        self.tell_role(out)?;
        tell_shown(self.alloc, id, out)?;
        tell_shown(self.alloc, offset, out)?;
        self.tell_dataset(id, out)?;
        let file = self.log.file();
        tell_shown(self.alloc, file.bytes().len(), out)?;
        tell_shown(self.alloc, file.synced(), out)
    }

    /// Writes its role and, of a replica, how far it has come with the link to its master.
    fn tell_role(&self, out: &mut Vec<u8>) -> Result<(), RehearsalFault> {
        match self.node.role() {
            Role::Master => tell(out, "master"),
            Role::Connect => tell(out, "connect"),
            Role::Sync => tell(out, "sync"),
            Role::Connected => tell(out, "connected"),
        }
    }

    /// Writes the commands that make what its node holds.
    fn tell_dataset(&mut self, id: ReplId, out: &mut Vec<u8>) -> Result<(), RehearsalFault> {
        let was_over = self.over;
        self.over = true;
        tell_rebuilt(self.alloc, &mut self.node, id, out)?;
        if is_up(&self.node) {
            self.over = was_over;
        }
        Ok(())
    }
}

/// Writes the commands that make what a node holds. It is asked for them on a link of its own, and what it puts out for that isn't
/// carried out.
fn tell_rebuilt(
    alloc: Global,
    node: &mut Node,
    id: ReplId,
    out: &mut Vec<u8>,
) -> Result<(), RehearsalFault> {
    let Ok(link) = node.open() else {
        return Err(RehearsalFault::Memory);
    };
    let told = tell_replaced(alloc, node, link, id, out);
    node.close(link);
    told
}

/// Writes what a node would replace its file by, as a link asks for that. It takes no id.
fn tell_replaced(
    alloc: Global,
    node: &mut Node,
    link: LinkId,
    id: ReplId,
    out: &mut Vec<u8>,
) -> Result<(), RehearsalFault> {
    let Some(given) = Given::new(0, 0) else {
        return Err(RehearsalFault::Memory);
    };
    if node.feed(link, REBUILD).is_err() {
        return Err(RehearsalFault::Memory);
    }
    match node.step(link, given, id) {
        Ok(Step::Done(outs)) => match outs.replaced() {
            Some(bytes) => tell_bytes(alloc, bytes, out),
            None => Err(RehearsalFault::Memory),
        },
        Ok(Step::Idle) => Err(RehearsalFault::Memory),
        Ok(Step::Closed) => Err(RehearsalFault::Memory),
        Err(_fault) => Err(RehearsalFault::Memory),
    }
}
