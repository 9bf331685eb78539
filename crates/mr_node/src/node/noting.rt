// A step at a replica's end.
ghost use Rattle.std.specs.Prelude.{◌≡◌, ℕ, List, Some};
ghost use Rattle.mr_node_output.specs.Outs.{no_outs};
ghost use Rattle.mr_node_spec.specs.State.{ReplicaAgrees};
ghost use Rattle.mr_node.specs.Steps.{IsAtReplica, ReplicaStep, step_of};
ghost use Rattle.mr_node.specs.Noting.{NotedAt};

use crate::fault::NodeFault;
use crate::node::Node;
use crate::noted::{Noted, noted_of};
use crate::step::Outcome;
use mr_links::LinkId;
use mr_node_output::Outs;
use std::alloc::AllocError;

impl Node {
    /// Makes a step at a replica's end: an acknowledgement is noted, and anything else but an empty request closes the link.
    pub(crate) fn note(&mut self, link: LinkId, outs: &mut Outs) -> Result<Outcome, NodeFault>
        requires at { (u : List ℕ) × IsAtReplica self.old link u }
        requires begun { outs.old ≡ record no_outs { link = Some link } }
        ensures { (u : List ℕ) → IsAtReplica self.old link u →
            ReplicaStep self.old link u self.new (step_of outs.new result) }
    {
        let Ok(noted) = self.noted(link) else {
            return Err(NodeFault::Memory);
        };
        if let Noted::Wait(progress) = noted {
            self.state.keep(link, progress);
            return Ok(Outcome::Idle);
        }
        match noted {
            Noted::Wait(_) => unreachable!(),
            Noted::Skip { used } => self.advance(link, used),
            Noted::Acknowledgement { used, offset } => {
                self.state.acknowledge(link, offset);
                self.advance(link, used);
            }
            Noted::Part => {
                outs.close();
                self.state.shut(link);
            }
        }
        Ok(Outcome::Done)
    }

    /// What is to be done about a replica's unread bytes.
    fn noted(&self, link: LinkId) -> Result<Noted, AllocError>
        requires { (u : List ℕ) × ReplicaAgrees self.now link u }
        ensures { (u : List ℕ) → ReplicaAgrees self.now link u → NotedAt u result }
    {
        let Some(end) = self.state.ends().get(link) else {
            unreachable!()
        };
        noted_of(self.alloc, end.unread(), end.progress())
    }
}
