// A replica that opens its end of a link, and a node that accepts the link later.
ghost use Rattle.mr_world.specs.Accepting.{AcceptCall, ConnectCall};

use crate::parts::Parts;
use crate::refusal::Refusal;
use mr_follower::Follower;
use mr_node::NodeFault;
use mr_world_parts::{Link, Way};
use std::alloc::Global;
use std::hash::RandomState;

impl Parts {
    /// A replica that follows nobody opens its end of a link, on which its first line stands.
    pub(crate) fn connect(
        &mut self,
        alloc: Global,
        seed: RandomState,
        n: usize,
    ) -> Result<(), Refusal>
        ensures { ConnectCall self.old n self.new result }
    {
        if n >= self.slots.len() {
            return Err(Refusal::Nobody);
        }
        if !self.slots[n].waits() {
            return Err(Refusal::Nobody);
        }
        if !self.slots[n].is_up() {
            return Ok(());
        }
        let Ok(ask) = Way::begun(alloc, Follower::first_line()) else {
            return Err(Refusal::Memory);
        };
        if self.links.reserve(1).is_err() {
            return Err(Refusal::Memory);
        }
        let l = self.links.len();
        match self.slots[n].dial(seed, l) {
            Ok(name) => {
                let Ok(()) = self.links.push(Link::waiting(alloc, n, name, ask)) else {
                    unreachable!()
                };
                Ok(())
            }
            Err(NodeFault::Memory) => Err(Refusal::Memory),
            Err(NodeFault::Stopped) => Ok(()),
            Err(NodeFault::NoLink) => unreachable!(),
            Err(NodeFault::InputFull) => unreachable!(),
        }
    }

    /// A node opens its end of a link that waits.
    pub(crate) fn accept(&mut self, l: usize, m: usize) -> Result<(), Refusal>
        ensures { AcceptCall self.old l m self.new result }
    {
        if l >= self.links.len() {
            return Err(Refusal::Nobody);
        }
        if m >= self.slots.len() {
            return Err(Refusal::Nobody);
        }
        if !self.links[l].waits() {
            return Err(Refusal::Nobody);
        }
        if !self.slots[m].is_up() {
            return Ok(());
        }
        match self.slots[m].open() {
            Ok(name) => {
                self.links[l].accept(m, name);
                Ok(())
            }
            Err(NodeFault::Memory) => Err(Refusal::Memory),
            Err(NodeFault::Stopped) => Ok(()),
            Err(NodeFault::NoLink) => unreachable!(),
            Err(NodeFault::InputFull) => unreachable!(),
        }
    }
}
