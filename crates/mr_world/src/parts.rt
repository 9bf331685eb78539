// Nodes, links and the book, with nothing that holds of them.
ghost use Rattle.std.specs.Prelude.{◌≡◌, slice_get};
ghost use Rattle.law_refinement.specs.Worlds.{IsWorld, no_world};
ghost use Rattle.mr_world.specs.Calls.{BreakCall, ClientCall, CommandCall, LeaveCall, StartCall, TakeCall};
ghost use Rattle.mr_world.specs.Running.{is_between_nodes};

mod accepting;
mod connecting;
mod following;
mod hearing;
mod linking;
mod restarting;
mod serving;

use crate::refusal::Refusal;
use mr_node::{Config, NodeFault};
use mr_repl::ReplId;
use mr_world_parts::{BookEntry, Link, Slot, is_spent};
use std::alloc::Global;
use std::hash::RandomState;
use std::marker::Model;

/// Nodes, links and the book, with nothing that holds of them.
#[derive(Drop)]
pub(crate) struct Parts {
    pub(crate) slots: Vec<Slot>,
    pub(crate) links: Vec<Link>,
    pub(crate) book: Vec<BookEntry>,
}

impl Model for Parts {
    ghost use Rattle.law_refinement.specs.State.{WorldState};
    ghost use Rattle.mr_world_parts.specs.Codes.{world_code};

    ghost Value = { WorldState };

    ghost coded = { world_code };

    ghost view = { λ p. record { slots = p.slots.items; links = p.links.items; book = p.book.items } };
}

impl Parts {
    /// Nothing has begun.
    pub(crate) fn new(alloc: Global) -> Parts
        ensures { result ≡ no_world }
    {
        Parts {
            slots: Vec::new(alloc),
            links: Vec::new(alloc),
            book: Vec::new(alloc),
        }
    }

    /// A node starts under a fresh id.
    pub(crate) fn start(
        &mut self,
        alloc: Global,
        seed: RandomState,
        id: ReplId,
        config: Config,
    ) -> Result<(), Refusal>
        ensures { StartCall self.old id config.replica config.port config.backlog self.new result }
    {
        if is_spent(self.book.as_slice(), id) {
            return Err(Refusal::Drawn);
        }
        let Ok(slot) = Slot::start(alloc, seed, id, config) else {
            return Err(Refusal::Memory);
        };
        if self.book.reserve(1).is_err() {
            return Err(Refusal::Memory);
        }
        if self.slots.push(slot).is_err() {
            return Err(Refusal::Memory);
        }
        let Ok(()) = self.book.push(BookEntry::begun(alloc, id)) else {
            unreachable!()
        };
        Ok(())
    }

    /// Whether a node asked for the link.
    pub(crate) fn is_between_nodes(&self, l: usize) -> bool
        ensures { result ≡ is_between_nodes (slice_get self.now.links l) }
    {
        match self.links.get(l) {
            Some(link) => link.is_of_node(),
            None => false,
        }
    }

    /// A client's link to a node.
    pub(crate) fn client(&mut self, alloc: Global, n: usize) -> Result<(), Refusal>
        ensures { ClientCall self.old n self.new result }
    {
        if n >= self.slots.len() {
            return Err(Refusal::Nobody);
        }
        if !self.slots[n].is_up() {
            return Ok(());
        }
        if self.links.reserve(1).is_err() {
            return Err(Refusal::Memory);
        }
        match self.slots[n].open() {
            Ok(name) => {
                let Ok(()) = self.links.push(Link::client(alloc, n, name)) else {
                    unreachable!()
                };
                Ok(())
            }
            Err(NodeFault::Memory) => Err(Refusal::Memory),
            Err(NodeFault::Stopped) => Ok(()),
            Err(NodeFault::NoLink) => unreachable!(),
            Err(NodeFault::InputFull) => unreachable!(),
        }
    }

    /// A client sends bytes.
    pub(crate) fn command(&mut self, l: usize, bytes: &[u8]) -> Result<(), Refusal>
        ensures { CommandCall self.old l bytes.now self.new result }
    {
        if l >= self.links.len() {
            return Err(Refusal::Nobody);
        }
        if !self.links[l].is_asking() {
            return Err(Refusal::Nobody);
        }
        if self.links[l].ask(bytes).is_err() {
            return Err(Refusal::Memory);
        }
        Ok(())
    }

    /// A client takes bytes that it was sent.
    pub(crate) fn deliver_to_client(&mut self, l: usize, count: usize) -> Result<(), Refusal>
        ensures { TakeCall self.old l count self.new result }
    {
        if l >= self.links.len() {
            return Err(Refusal::Nobody);
        }
        let link = &self.links[l];
        if !link.is_asking() {
            return Err(Refusal::Nobody);
        }
        if !link.has_told(count) {
            return Err(Refusal::TooMuch);
        }
        self.links[l].take_told(count);
        Ok(())
    }

    /// A client closes its end.
    pub(crate) fn break_client(&mut self, l: usize) -> Result<(), Refusal>
        ensures { LeaveCall self.old l self.new result }
    {
        if l >= self.links.len() {
            return Err(Refusal::Nobody);
        }
        let link = &self.links[l];
        if !link.is_asking() {
            return Err(Refusal::Nobody);
        }
        self.links[l].leave();
        Ok(())
    }

    /// A server's end closes.
    pub(crate) fn break_server(&mut self, l: usize) -> Result<(), Refusal>
        requires { IsWorld self.old }
        ensures { BreakCall self.old l self.new result }
    {
        if l >= self.links.len() {
            return Err(Refusal::Nobody);
        }
        let link = &self.links[l];
        if !link.serving() {
            return Err(Refusal::Nobody);
        }
        let to = link.to();
        let name = link.name();
        if !self.slots[to].is_up() {
            return Ok(());
        }
        self.slots[to].close(name);
        self.links[l].shut();
        Ok(())
    }
}
