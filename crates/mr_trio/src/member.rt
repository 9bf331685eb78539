// A node of the three.
ghost use Rattle.std.specs.Prelude.{◌≡◌, [], IfErr, IsErrOf, option_copied, false, true};
ghost use Rattle.mr_trio_script.specs.Faults.{IsInner};
ghost use Rattle.mr_file.specs.LogFile.{Rose};
ghost use Rattle.mr_node.specs.Parts.{role_of};
ghost use Rattle.mr_node_spec.specs.State.{shown};

use crate::eager_wire::EagerWire;
use crate::faults::of_loop;
use crate::numbered_source::NumberedSource;
use mr_aof::{Log, NoFile};
use mr_data::Dataset;
use mr_loop::{Links, turn};
use mr_node::{Config, Node, Role};
use mr_node_output::Address;
use mr_repl::{ReplId, USUAL_BACKLOG};
use mr_source::Source;
use mr_trio_script::TrioFault;
use mr_wire::SocketWire;
use std::alloc::Global;
use std::hash::RandomState;
use std::net::{Ipv4Addr, SocketAddr};

/// A node, and what its turns need.
pub(crate) struct Member {
    node: Node,
    links: Links,
    wire: EagerWire,
    log: Log<NoFile>,
    port: u16,
    /// No turn may begin any more: the last met a fault, or a client said SHUTDOWN in it.
    over: bool,
    ghost filed: { over ≡ false → links.batch ≡ [] },
    ghost runs: { over ≡ false → links.halted ≡ false },
    ghost up: { over ≡ false → node.core.up ≡ true },
}

// By hand, so that it is one call wherever a value goes (docs/PROVING.md).
impl Drop for Member {
    fn drop(self) {
        let Member {
            node: _,
            links: _,
            wire: _,
            log: _,
            port: _,
            over: _,
        } = self;
    }
}

impl Member {
    /// A master with no keys, which listens on a port that the system chooses. It takes the next id.
    pub(crate) fn start(
        rt: &HostRuntime,
        alloc: Global,
        seed: RandomState,
        source: &mut NumberedSource,
    ) -> Result<Member, TrioFault>
        ensures { IfErr result IsInner }
    {
        let (wire, port) = match listening(rt, alloc) {
            Ok(wire) => match port_of(&wire) {
                Some(port) => (wire, port),
                None => return Err(TrioFault::Socket),
            },
            Err(fault) => return Err(fault),
        };
        let id = source.id();
        source.end_turn(1);
        begun(alloc, seed, EagerWire::new(wire), port, id)
    }

    /// A turn of its loop. Where none may begin any more there is none.
    pub(crate) fn turn(&mut self, source: &mut NumberedSource) -> Result<(), TrioFault>
        ensures fault { IfErr result IsInner }
        ensures port { self.new.port ≡ self.old.port }
        ensures socket { IsErrOf result TrioFault.Socket →
            Rose self.old.wire.wire.failed.count self.new.wire.wire.failed.count }
        ensures stopped { IsErrOf result TrioFault.Stopped → self.new.node.core.up ≡ false }
    {
        if self.over {
            return Ok(());
        }
        self.over = true;
        match turn(
            &mut self.node,
            &mut self.links,
            &mut self.wire,
            &mut self.log,
            source,
        ) {
            Ok(told) => {
                source.end_turn(told.used);
                self.over = told.halted;
                Ok(())
            }
            Err(fault) => Err(of_loop(fault)),
        }
    }

    /// The port that it listens on.
    pub(crate) fn port(&self) -> u16
        ensures { result ≡ self.now.port }
    {
        self.port
    }

    /// The id and the offset that it shows, none once it is stopped.
    pub(crate) fn shows(&self) -> Option<(ReplId, u64)>
        ensures { result ≡ shown self.now.node.core }
    {
        self.node.shows()
    }

    /// Whether it is a master, or in the stream of whom it follows.
    pub(crate) fn role(&self) -> Role
        ensures { result ≡ role_of self.now.node }
    {
        self.node.role()
    }

    /// Whether it is a master.
    pub(crate) fn leads(&self) -> bool
        ensures { result ≡ self.now.node.core.master }
    {
        match self.node.role() {
            Role::Master => true,
            Role::Connect | Role::Sync | Role::Connected => false,
        }
    }

    /// Whom it was told to follow.
    pub(crate) fn upstream(&self) -> Option<&Address>
        ensures { option_copied result ≡ self.now.node.core.upstream }
    {
        self.node.upstream()
    }
}

/// A master under this id, with no keys.
fn begun(
    alloc: Global,
    seed: RandomState,
    wire: EagerWire,
    port: u16,
    id: ReplId,
) -> Result<Member, TrioFault>
    ensures { IfErr result IsInner }
{
    let Ok(links) = Links::new(alloc, seed) else {
        return Err(TrioFault::Stopped);
    };
    let Some(config) = Config::new(false, port, USUAL_BACKLOG) else {
        unreachable!()
    };
    match Node::start(alloc, id, Dataset::new(alloc, seed), config) {
        Ok(node) => Ok(Member {
            node,
            links,
            wire,
            log: Log::none(),
            port,
            over: false,
        }),
        Err(_refused) => Err(TrioFault::Stopped),
    }
}

/// The port that a wire listens on.
fn port_of(wire: &SocketWire) -> Option<u16> {
    match wire.address() {
        Ok(address) => Some(address.port()),
        Err(_error) => None,
    }
}

/// A wire that listens on a port of this machine alone, which the system chooses.
pub(crate) fn listening(rt: &HostRuntime, alloc: Global) -> Result<SocketWire, TrioFault>
    ensures { IfErr result IsInner }
{
    let Ok(net) = rt.clone() else {
        return Err(TrioFault::Stopped);
    };
    match SocketWire::listen(net, alloc, SocketAddr::from((Ipv4Addr::LOCALHOST, 0))) {
        Ok(wire) => Ok(wire),
        Err(_error) => Err(TrioFault::Socket),
    }
}
