// Bytes that come at the node that dialled.
ghost use Rattle.law_refinement.specs.Worlds.{IsWorld};
ghost use Rattle.mr_world.specs.Hearing.{ListenCall};

use crate::parts::Parts;
use crate::refusal::Refusal;
use mr_node::NodeFault;

impl Parts {
    /// The node that follows by a link takes bytes that the server sent it. At a stopped node nothing happens.
    pub(crate) fn deliver_to_dialler(&mut self, l: usize, count: usize) -> Result<(), Refusal>
        requires { IsWorld self.old }
        ensures { ListenCall self.old l count self.new result }
    {
        let Some((n, name)) = self.dialler(l) else {
            return Err(Refusal::Nobody);
        };
        let link = &self.links[l];
        if !link.has_told(count) {
            return Err(Refusal::TooMuch);
        }
        if !self.slots[n].is_up() {
            return Ok(());
        }
        match self.slots[n].feed(name, link.next_told(count)) {
            Ok(()) => {
                self.links[l].take_told(count);
                Ok(())
            }
            Err(NodeFault::Memory) => Err(Refusal::Memory),
            Err(NodeFault::Stopped) => unreachable!(),
            Err(NodeFault::NoLink) => unreachable!(),
            Err(NodeFault::InputFull) => unreachable!(),
        }
    }
}
