// Steps of a node at a link that it serves.
ghost use Rattle.std.specs.Prelude.{◌≡◌, ◌<◌, Some, false, length, slice_get};
ghost use Rattle.law_refinement.specs.State.{Link as LinkState, Slot as SlotState};
ghost use Rattle.law_refinement.specs.Worlds.{IsWorld};
ghost use Rattle.mr_world_parts.specs.AtNode.{is_spent};
ghost use Rattle.mr_world_parts.specs.Answering.{IsBehind, IsServing};
ghost use Rattle.mr_world.specs.Serving.{IsCarried, StepCall};

use crate::parts::Parts;
use crate::refusal::Refusal;
use mr_data::Given;
use mr_links::LinkId;
use mr_node::{NodeFault, Step};
use mr_repl::ReplId;
use mr_world_parts::{Giving, give_step, is_spent};

/// A link, the node that serves it, and the link's name there.
#[derive(Clone, Copy)]
struct Served {
    link: usize,
    node: usize,
    name: LinkId,
}

impl Parts {
    /// The node that serves a link makes a step there, under a fresh id.
    pub(crate) fn step_server(
        &mut self,
        l: usize,
        given: Given,
        fresh: ReplId,
    ) -> Result<(), Refusal>
        requires { IsWorld self.old }
        ensures { StepCall self.old l given fresh self.new result }
    {
        if is_spent(self.book.as_slice(), fresh) {
            return Err(Refusal::Drawn);
        }
        if l >= self.links.len() {
            return Err(Refusal::Nobody);
        }
        let link = &self.links[l];
        if !link.serving() {
            return Err(Refusal::Nobody);
        }
        let to = link.to();
        let name = link.name();
        if !self.slots[to].is_up() {
            return Ok(());
        }
        let at = Served {
            link: l,
            node: to,
            name,
        };
        self.step_at(at, given, fresh)
    }

    /// A node that runs makes a step at a link that it serves, whose end is open.
    fn step_at(&mut self, at: Served, given: Given, fresh: ReplId) -> Result<(), Refusal>
        requires world { IsWorld self.old }
        requires serving { IsServing self.old at.link at.node at.name }
        requires unspent { is_spent self.old.book fresh ≡ false }
        ensures { StepCall self.old at.link given fresh self.new result }
    {
        let node = at.node;
        let Some((id, offset)) = self.slots[node].shows() else {
            unreachable!()
        };
        match self.slots[node].step(at.name, given, fresh) {
            Ok(Step::Done(outs)) => {
                let giving = Giving {
                    node,
                    id,
                    offset,
                    outs: &outs,
                };
                self.carry_step(at.link, &giving);
                Ok(())
            }
            Ok(Step::Idle) => Ok(()),
            Ok(Step::Closed) => unreachable!(),
            Err(NodeFault::Memory) => Err(Refusal::Memory),
            Err(NodeFault::Stopped) => Ok(()),
            Err(NodeFault::NoLink) => unreachable!(),
            Err(NodeFault::InputFull) => unreachable!(),
        }
    }

    /// What a step gave out is carried. Where memory runs out for that the node stops.
    fn carry_step(&mut self, l: usize, giving: &Giving<'_>)
        requires node { giving.now.node < length self.old.slots }
        requires link { l < length self.old.links }
        requires behind { (s : SlotState) (k : LinkState) →
            slice_get self.old.slots giving.now.node ≡ Some s →
            slice_get self.old.links l ≡ Some k → IsBehind s.node k.name giving.now.outs.now }
        ensures { IsCarried self.old giving.now.node l giving.now.id giving.now.offset
            giving.now.outs.now self.new }
    {
        let node = giving.node;
        let carried = give_step(
            &mut self.slots[node],
            &mut self.links,
            &mut self.book,
            l,
            giving,
        );
        if carried.is_ok() {
            return;
        }
        self.slots[node].fail();
    }
}
