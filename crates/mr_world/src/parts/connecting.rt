// A node that dials another, or itself.
ghost use Rattle.law_refinement.specs.Worlds.{IsWorld};
ghost use Rattle.mr_world.specs.Connecting.{BothRun, DialCall};

use crate::parts::Parts;
use crate::refusal::Refusal;
use mr_follower::Follower;
use mr_node::NodeFault;
use mr_world_parts::{Link, NodeEnd, Way};
use std::alloc::Global;
use std::hash::RandomState;

impl Parts {
    /// A replica that follows nobody dials a node.
    pub(crate) fn dial(
        &mut self,
        alloc: Global,
        seed: RandomState,
        n: usize,
        m: usize,
    ) -> Result<(), Refusal>
        requires { IsWorld self.old }
        ensures { DialCall self.old n m self.new result }
    {
        if n >= self.slots.len() {
            return Err(Refusal::Nobody);
        }
        if m >= self.slots.len() {
            return Err(Refusal::Nobody);
        }
        if !self.slots[n].waits() {
            return Err(Refusal::Nobody);
        }
        if !self.slots[n].is_up() {
            return Ok(());
        }
        if !self.slots[m].is_up() {
            return Ok(());
        }
        self.open_both(alloc, seed, n, m)
    }

    /// The end of the node that is dialled comes, and then the other's. Where that one can't come, the first is taken back.
    fn open_both(
        &mut self,
        alloc: Global,
        seed: RandomState,
        n: usize,
        m: usize,
    ) -> Result<(), Refusal>
        requires world { IsWorld self.old }
        requires both { BothRun self.old n m }
        ensures { DialCall self.old n m self.new result }
    {
        let Ok(ask) = Way::begun(alloc, Follower::first_line()) else {
            return Err(Refusal::Memory);
        };
        if self.links.reserve(1).is_err() {
            return Err(Refusal::Memory);
        }
        let at = match self.slots[m].open() {
            Ok(at) => at,
            Err(NodeFault::Memory) => return Err(Refusal::Memory),
            Err(NodeFault::Stopped) => return Ok(()),
            Err(NodeFault::NoLink) => unreachable!(),
            Err(NodeFault::InputFull) => unreachable!(),
        };
        let l = self.links.len();
        match self.slots[n].dial(seed, l) {
            Ok(name) => {
                let opener = NodeEnd { node: n, name };
                let server = NodeEnd { node: m, name: at };
                let Ok(()) = self.links.push(Link::of_node(alloc, opener, server, ask)) else {
                    unreachable!()
                };
                Ok(())
            }
            Err(fault) => {
                self.slots[m].take_back(at);
                match fault {
                    NodeFault::Memory => Err(Refusal::Memory),
                    NodeFault::Stopped => Ok(()),
                    NodeFault::NoLink => unreachable!(),
                    NodeFault::InputFull => unreachable!(),
                }
            }
        }
    }
}
