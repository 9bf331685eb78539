// A node that begins anew with what a file holds.
ghost use Rattle.std.specs.Prelude.{◌≡◌, map};
ghost use Rattle.mr_world_parts.specs.AtLink.{shut_at};
ghost use Rattle.mr_world.specs.Restarting.{RestartCall};

use crate::parts::Parts;
use crate::refusal::Refusal;
use mr_world_parts::{BookEntry, Link, Restart, Slot, is_spent};
use std::alloc::Global;
use std::hash::RandomState;

/// Closes the ends of all links that this node serves.
fn shut_ends(links: &mut [Link], n: usize)
    ensures { links.new ≡ map (shut_at n) links.old }
{
    for k in links.iter_mut() {
        k.shut_at(n);
    }
}

/// The same, of a vector.
fn shut_ends_in(links: &mut Vec<Link>, n: usize)
    ensures { links.new.items ≡ map (shut_at n) links.old.items }
{
    shut_ends(links.as_mut_slice(), n);
}

impl Parts {
    /// A node begins anew under a fresh id.
    pub(crate) fn restart(
        &mut self,
        alloc: Global,
        seed: RandomState,
        n: usize,
        restart: &Restart<'_>,
    ) -> Result<(), Refusal>
        ensures { RestartCall self.old n restart.now.kept.now restart.now.id
            restart.now.config.port restart.now.config.backlog self.new result }
    {
        if is_spent(self.book.as_slice(), restart.id) {
            return Err(Refusal::Drawn);
        }
        if n >= self.slots.len() {
            return Err(Refusal::Nobody);
        }
        let as_master = self.slots[n].as_master();
        let Ok(slot) = Slot::load(alloc, seed, as_master, restart) else {
            return Err(Refusal::Memory);
        };
        let Ok(entry) = BookEntry::begun_with(alloc, restart.id, slot.file()) else {
            return Err(Refusal::Memory);
        };
        if self.book.push(entry).is_err() {
            return Err(Refusal::Memory);
        }
        self.slots[n] = slot;
        shut_ends_in(&mut self.links, n);
        Ok(())
    }
}
