// A node.
ghost use Rattle.std.specs.Prelude.{◌≡◌, true, None, Some, IfOk};
ghost use Rattle.mr_node_output.specs.Outs.{no_outs};
ghost use Rattle.mr_node_links.specs.Parts.{HasAhead};
ghost use Rattle.mr_node_spec.specs.State.{shown, started};
ghost use Rattle.mr_node_spec.specs.Sound.{IsSound};
ghost use Rattle.mr_node.specs.Parts.{Uses};

mod answering;
mod asking;
mod executing;
mod following;
mod linking;
mod noting;
mod roles;
mod serving;
mod synchronizing;
mod telling;
mod ticking;
mod waiting;

use crate::config::Config;
use mr_data::Dataset;
use mr_links::LinkId;
use mr_node_output::{Buffers, Outs};
use mr_node_state::State;
use mr_repl::{Lineage, ReplId};
use mr_replication::Course;
use std::alloc::{AllocError, Global};
use std::marker::Model;
use std::mem;

/// A node: what it holds, and buffers for its outs.
#[derive(Drop)]
pub struct Node {
    alloc: Global,
    state: State,
    spare: Buffers,
}

impl Model for Node {
    ghost use Rattle.mr_node_spec.specs.State.{NodeState, node_code};

    ghost Value = { NodeState };

    ghost coded = { node_code };

    ghost view = { λ a. a.state };
}

impl Node {
    /// A node with this dataset under this id, at offset 0 and with no links. As a replica it has nothing to continue, and was told to
    /// follow nobody.
    pub fn start(
        alloc: Global,
        id: ReplId,
        held: Dataset,
        config: Config,
    ) -> Result<Node, AllocError>
        ensures { IfOk result (λ a.
            a ≡ started config.replica config.port config.backlog id held) }
    {
        let Ok(lineage) = Lineage::new(alloc, id, config.backlog, 0) else {
            return Err(AllocError);
        };
        let course = Course::new(lineage, !config.replica, !config.replica);
        Ok(Node {
            alloc,
            state: State::new(alloc, config.port, course, held),
            spare: Buffers::new(alloc),
        })
    }

    /// The id and the offset, none once it is stopped.
    pub fn shows(&self) -> Option<(ReplId, u64)>
        ensures { result ≡ shown self.now.core }
    {
        if !self.state.up() {
            return None;
        }
        let lineage = self.state.lineage();
        Some((lineage.id(), lineage.stream().end()))
    }

    /// What the types of a node's parts keep, stopped or not: its ids are ids, and its stream and its ports have their bounds. It does
    /// nothing.
    pub fn sound(&self)
        ensures { IsSound self.now }
    {
        self.state.sound();
    }

    /// Takes outs back, to use their buffers again.
    pub fn reuse(&mut self, outs: Outs)
        ensures { self.new ≡ self.old }
    {
        self.spare = outs.into_buffers();
    }

    /// Outs for the next step, with nothing in them.
    fn fresh_outs(&mut self, link: Option<LinkId>) -> Outs
        ensures outs { result ≡ record no_outs { link = link } }
        ensures same { self.new ≡ self.old }
    {
        let buffers = mem::replace(&mut self.spare, Buffers::new(self.alloc));
        Outs::begin(buffers, link)
    }

    /// Uses so many unread bytes of a client's or of a replica's link.
    fn advance(&mut self, link: LinkId, used: usize)
        requires { HasAhead self.old.ends link used }
        ensures { Uses self.old link used self.new }
    {
        // its clause lists the replicas
        let _ = self.state.ends().replicas();
        self.state.take(link, used);
    }
}
