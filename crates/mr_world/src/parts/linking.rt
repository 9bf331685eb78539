// Bytes that come at a node, and ends that a node closes.
ghost use Rattle.std.specs.Prelude.{IfNone, IfSome};
ghost use Rattle.law_refinement.specs.Worlds.{IsWorld};
ghost use Rattle.mr_world.specs.Linking.{DeliverCall, DropCall, IsDialler, NoneFollows};

use crate::parts::Parts;
use crate::refusal::Refusal;
use mr_links::LinkId;
use mr_node::NodeFault;

impl Parts {
    /// The node that serves a link takes bytes that were sent there.
    pub(crate) fn deliver_to_server(&mut self, l: usize, count: usize) -> Result<(), Refusal>
        requires { IsWorld self.old }
        ensures { DeliverCall self.old l count self.new result }
    {
        if l >= self.links.len() {
            return Err(Refusal::Nobody);
        }
        let link = &self.links[l];
        if !link.serving() {
            return Err(Refusal::Nobody);
        }
        if !link.has_asked(count) {
            return Err(Refusal::TooMuch);
        }
        let to = link.to();
        let name = link.name();
        if !self.slots[to].is_up() {
            return Ok(());
        }
        if self.slots[to].is_too_much(name, count) {
            return Err(Refusal::InputFull);
        }
        match self.slots[to].feed(name, link.next_asked(count)) {
            Ok(()) => {
                self.links[l].take_asked(count);
                Ok(())
            }
            Err(NodeFault::Memory) => Err(Refusal::Memory),
            Err(NodeFault::Stopped) => unreachable!(),
            Err(NodeFault::NoLink) => unreachable!(),
            Err(NodeFault::InputFull) => Err(Refusal::InputFull),
        }
    }

    /// The node that dialled a link, if its end there is open, and its name for it. It may be stopped.
    pub(crate) fn dialler(&self, l: usize) -> Option<(usize, LinkId)>
        ensures some { IfSome result (λ p. IsDialler self.now l p.0 p.1) }
        ensures none { IfNone result (NoneFollows self.now l) }
    {
        if l >= self.links.len() {
            return None;
        }
        let Some((n, name)) = self.links[l].peer() else {
            return None;
        };
        if n >= self.slots.len() {
            return None;
        }
        if !self.slots[n].follows_by(l) {
            return None;
        }
        Some((n, name))
    }

    /// The node that follows by a link closes its end. At a stopped node nothing happens.
    pub(crate) fn break_dialler(&mut self, l: usize) -> Result<(), Refusal>
        requires { IsWorld self.old }
        ensures { DropCall self.old l self.new result }
    {
        let Some((n, name)) = self.dialler(l) else {
            return Err(Refusal::Nobody);
        };
        if !self.slots[n].is_up() {
            return Ok(());
        }
        self.slots[n].close(name);
        Ok(())
    }
}
