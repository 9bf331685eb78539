// A step of the node that follows by a link, at that link.
ghost use Rattle.law_refinement.specs.Worlds.{IsWorld};
ghost use Rattle.mr_world.specs.Following.{FollowCall};

use crate::parts::Parts;
use crate::refusal::Refusal;
use mr_data::Given;
use mr_node::{NodeFault, Step};
use mr_repl::ReplId;
use mr_world_parts::{give_heard, is_spent};
use std::alloc::Global;

impl Parts {
    /// The node that follows by a link makes a step there. What it gives out is carried; where memory runs out for that the node stops. At a
    /// stopped node nothing happens.
    pub(crate) fn step_dialler(
        &mut self,
        alloc: Global,
        l: usize,
        given: Given,
        fresh: ReplId,
    ) -> Result<(), Refusal>
        requires { IsWorld self.old }
        ensures { FollowCall self.old l fresh self.new result }
    {
        if is_spent(self.book.as_slice(), fresh) {
            return Err(Refusal::Drawn);
        }
        let Some((n, name)) = self.dialler(l) else {
            return Err(Refusal::Nobody);
        };
        if !self.slots[n].is_up() {
            return Ok(());
        }
        match self.slots[n].step(name, given, fresh) {
            Ok(Step::Done(outs)) => {
                let left = self.slots[n].unread_of_master(name);
                let heard = give_heard(alloc, &mut self.slots[n], &mut self.links[l], left, &outs);
                if heard.is_err() {
                    self.slots[n].fail();
                    return Ok(());
                }
                Ok(())
            }
            Ok(Step::Idle) => Ok(()),
            Ok(Step::Closed) => unreachable!(),
            Err(NodeFault::Memory) => Err(Refusal::Memory),
            Err(NodeFault::Stopped) => Ok(()),
            Err(NodeFault::NoLink) => unreachable!(),
            Err(NodeFault::InputFull) => unreachable!(),
        }
    }
}
