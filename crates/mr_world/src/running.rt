// Events, one after another.
ghost use Rattle.law_refinement.specs.Worlds.{IsWorld};
ghost use Rattle.mr_world.specs.Running.{BreakAt, DeliverAt, EventCall, RunCall, StepAt};

use crate::event::Event;
use crate::refusal::Refusal;
use crate::world::World;
use mr_data::Given;
use mr_links::Side;
use mr_repl::ReplId;

impl World {
    /// Events happen, one after another, until one is refused: its number, from 0, and why. Those before it stand, and it changes nothing, but for
    /// what a node took of a snapshot (`Refusal::Memory`).
    pub fn run(&mut self, events: &[Event]) -> Result<(), (usize, Refusal)>
        ensures { RunCall self.old events.now self.new result }
    {
        let mut count = 0;
        for event in events.iter() {
            if let Err(refusal) = self.happen(event) {
                return Err((count, refusal));
            }
            count += 1;
        }
        Ok(())
    }

    /// An event happens.
    fn happen(&mut self, event: &Event) -> Result<(), Refusal>
        ensures row { EventCall self.old event.now self.new result }
        ensures sound { IsWorld self.new }
    {
        let happened = match event {
            Event::Start { id, config } => self.start(*id, *config),
            Event::Client { node } => self.client(*node),
            Event::Command { link, bytes } => self.command(*link, bytes.as_slice()),
            Event::Deliver { link, side, count } => self.deliver(*link, *side, *count),
            Event::Step {
                link,
                side,
                given,
                fresh,
            } => self.step(*link, *side, *given, *fresh),
            Event::Tick { node, given } => self.tick(*node, *given),
            Event::Break { link, side } => self.close(*link, *side),
            Event::Dial { node, to } => self.dial(*node, *to),
            Event::Connect { node } => self.connect(*node),
            Event::Accept { link, node } => self.accept(*link, *node),
            Event::Restart {
                node,
                kept,
                id,
                config,
            } => self.restart(*node, kept.as_slice(), *id, *config),
        };
        self.sound();
        happened
    }

    /// An end takes bytes that the other sent.
    fn deliver(&mut self, link: usize, side: Side, count: usize) -> Result<(), Refusal>
        ensures { DeliverAt self.old link side count self.new result }
    {
        match side {
            Side::Server => self.deliver_to_server(link, count),
            Side::Opener => {
                if self.is_between_nodes(link) {
                    self.deliver_to_dialler(link, count)
                } else {
                    self.deliver_to_client(link, count)
                }
            }
        }
    }

    /// A node makes a step at its end.
    fn step(&mut self, link: usize, side: Side, given: Given, fresh: ReplId) -> Result<(), Refusal>
        ensures { StepAt self.old link side given fresh self.new result }
    {
        match side {
            Side::Server => self.step_server(link, given, fresh),
            Side::Opener => self.step_dialler(link, given, fresh),
        }
    }

    /// An end closes.
    fn close(&mut self, link: usize, side: Side) -> Result<(), Refusal>
        ensures { BreakAt self.old link side self.new result }
    {
        match side {
            Side::Server => self.break_server(link),
            Side::Opener => {
                if self.is_between_nodes(link) {
                    self.break_dialler(link)
                } else {
                    self.break_client(link)
                }
            }
        }
    }
}
