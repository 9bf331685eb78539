// The events in which a node gives something out, over nodes, links and the book.
ghost use Rattle.std.specs.Prelude.{◌≡◌};
ghost use Rattle.mr_world.specs.Stepping.{TickCall};

use crate::parts::Parts;
use crate::refusal::Refusal;
use mr_data::Given;
use mr_node::NodeFault;
use mr_world_parts::{Giving, give_tick};

impl Parts {
    /// Time passes at a node. What it gives out is carried; where memory runs out for that the node stops.
    pub(crate) fn tick(&mut self, n: usize, given: Given) -> Result<(), Refusal>
        ensures { TickCall self.old n given.now self.new result }
    {
        if n >= self.slots.len() {
            return Err(Refusal::Nobody);
        }
        let Some((id, offset)) = self.slots[n].shows() else {
            return Ok(());
        };
        match self.slots[n].tick(given) {
            Ok(outs) => {
                let giving = Giving {
                    node: n,
                    id,
                    offset,
                    outs: &outs,
                };
                let carried = give_tick(
                    &mut self.slots[n],
                    &mut self.links,
                    &mut self.book,
                    &giving,
                );
                if carried.is_err() {
                    self.slots[n].fail();
                    return Ok(());
                }
                Ok(())
            }
            Err(NodeFault::Memory) => Err(Refusal::Memory),
            Err(NodeFault::Stopped) => Ok(()),
            Err(NodeFault::NoLink) => unreachable!(),
            Err(NodeFault::InputFull) => unreachable!(),
        }
    }
}
