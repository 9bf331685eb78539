//! A node, and what its turns need.
ghost use Rattle.std.specs.Prelude.{◌≡◌, [], IsTrue, false, true};

use crate::heard_wire::HeardWire;
use crate::listed_source::ListedSource;
use crate::telling::{tell_link, tell_turn};
use mr_aof::{Loaded, Log, load_groups};
use mr_file::MemFile;
use mr_loop::{Links, Unwatched, serve, turn};
use mr_node::{Node, Role};
use rehearse_shared::{RehearsalFault, tell, tell_bytes, tell_fault, tell_shown};
use std::alloc::Global;
use std::hash::RandomState;

/// A node, and what its turns need.
pub struct Host {
    alloc: Global,
    seed: RandomState,
    node: Node,
    links: Links,
    wire: HeardWire,
    log: Log<MemFile>,
    source: ListedSource,
    /// No turn may begin any more: the last met a fault, or a client said SHUTDOWN in it.
    over: bool,
    ghost filed: { over ≡ false → links.batch ≡ [] },
    ghost runs: { over ≡ false → links.halted ≡ false },
    ghost up: { over ≡ false → node.core.up ≡ true },
}

// By hand, so that it is one call wherever a value goes (docs/PROVING.md).
impl Drop for Host {
    fn drop(self) {
        let Host {
            alloc: _,
            seed: _,
            node: _,
            links: _,
            wire: _,
            log: _,
            source: _,
            over: _,
        } = self;
    }
}

/// Whether a node isn't stopped.
fn is_up(node: &Node) -> bool
    ensures { IsTrue result → node.now.core.up ≡ true }
{
    node.shows().is_some()
}

impl Host {
    /// A node that has started, with the log of its file.
    pub fn new(
        alloc: Global,
        seed: RandomState,
        node: Node,
        log: Log<MemFile>,
        wire: HeardWire,
        source: ListedSource,
    ) -> Result<Host, RehearsalFault>
        requires { node.core.up ≡ true }
    {
        let links = Links::new(alloc, seed)?;
        Ok(Host {
            alloc,
            seed,
            node,
            links,
            wire,
            log,
            source,
            over: false,
        })
    }

    /// A turn, where one may begin.
    pub fn turn(&mut self, out: &mut Vec<u8>) -> Result<(), RehearsalFault> {
        if self.over {
            return tell(out, "over");
        }
        self.over = true;
        self.source.begin();
        match turn(
            &mut self.node,
            &mut self.links,
            &mut self.wire,
            &mut self.log,
            &mut self.source,
        ) {
            Ok(told) => {
                self.over = told.halted;
                tell_turn(self.alloc, told, out)
            }
            Err(fault) => tell_fault(self.alloc, fault, out),
        }
    }

    /// So many turns, where one may begin.
    pub fn serve(&mut self, turns: u64, out: &mut Vec<u8>) -> Result<(), RehearsalFault> {
        if self.over {
            return tell(out, "over");
        }
        self.over = true;
        self.source.begin();
        match serve(
            &mut self.node,
            &mut self.links,
            &mut self.wire,
            &mut self.log,
            &mut self.source,
            &mut Unwatched { turns },
        ) {
            Ok(()) => {
                if is_up(&self.node) {
                    self.over = self.links.halted();
                }
                tell(out, "served")
            }
            Err(fault) => tell_fault(self.alloc, fault, out),
        }
    }

    /// Memory ran out for what the wire keeps.
    pub fn lacks_memory(&self) -> bool {
        self.wire.lacks_memory()
    }
}

// What it tells.
impl Host {
    /// Writes the id and the offset that the node shows, if it does.
    pub fn shows(&self, out: &mut Vec<u8>) -> Result<(), RehearsalFault> {
        match self.node.shows() {
            Some((id, offset)) => tell(
                out,
                format!(in self.alloc; "shows {id} {offset}")?.as_str(),
            ),
            None => tell(out, "nothing"),
        }
    }

    /// Writes the node's role and, of a replica, how far it has come with the link to its master.
    pub fn role(&self, out: &mut Vec<u8>) -> Result<(), RehearsalFault> {
        match self.node.role() {
            Role::Master => tell(out, "master"),
            Role::Connect => tell(out, "connect"),
            Role::Sync => tell(out, "sync"),
            Role::Connected => tell(out, "connected"),
        }
    }

    /// The file's bytes, and how many of them the last sync covered.
    pub fn file(&self, out: &mut Vec<u8>) -> Result<(), RehearsalFault> {
        let file = self.log.file();
        tell(out, "file")?;
        tell_bytes(self.alloc, file.bytes(), out)?;
        tell_shown(self.alloc, file.synced(), out)
    }

    /// How many of the file's bytes are read, and the commands that make what they hold.
    pub fn load(&self, out: &mut Vec<u8>) -> Result<(), RehearsalFault> {
        let Loaded { dataset, used } = load_groups(self.alloc, self.seed, self.log.file().bytes())?;
        tell(out, "loads")?;
        tell_shown(self.alloc, used, out)?;
        tell_bytes(self.alloc, dataset.rebuild(self.alloc)?.as_slice(), out)
    }

    /// The links that were asked of the wire, in order.
    pub fn links(&self, out: &mut Vec<u8>) -> Result<(), RehearsalFault> {
        tell(out, "links")?;
        for heard in self.wire.links() {
            tell_link(self.alloc, &self.wire, heard, out)?;
        }
        Ok(())
    }
}
