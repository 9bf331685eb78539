// A step, at whatever end.
ghost use Rattle.std.specs.Prelude.{◌≡◌, ℕ, List, true, not, Some, Ok, Err};
ghost use Rattle.std.specs.Prelude.{Result};
ghost use Rattle.mr_node_output.specs.Outs.{no_outs};
ghost use Rattle.mr_node_spec.specs.State.{Agrees};
ghost use Rattle.mr_node.specs.Reading.{TodoAt};
ghost use Rattle.mr_node.specs.Steps.{ClientStep, IsAt, Steps, step_of};

use crate::fault::NodeFault;
use crate::node::Node;
use crate::step::{Outcome, Step};
use crate::todo::{Todo, todo_of};
use mr_commands::Answer;
use mr_data::Given;
use mr_links::LinkId;
use mr_node_links::Kind;
use mr_node_output::Outs;
use mr_repl::ReplId;
use std::alloc::AllocError;

impl Node {
    /// Makes a step on a link: uses what stands at the front of what was fed there. `fresh` is the id that a promotion takes.
    // in the body of a host its outs would be moved field by field
    #[inline(never)]
    pub fn step(&mut self, link: LinkId, given: Given, fresh: ReplId) -> Result<Step, NodeFault>
        ensures { Steps self.old link given fresh self.new result }
    {
        let mut outs = self.fresh_outs(Some(link));
        match self.step_into(link, given, fresh, &mut outs) {
            Ok(Outcome::Done) => Ok(Step::Done(outs)),
            Ok(Outcome::Idle) => {
                self.reuse(outs);
                Ok(Step::Idle)
            }
            Ok(Outcome::Closed) => {
                self.reuse(outs);
                Ok(Step::Closed)
            }
            Err(fault) => {
                self.reuse(outs);
                Err(fault)
            }
        }
    }

    /// Makes a step, whose outs are lent to it: they are large, and so moved once.
    fn step_into(
        &mut self,
        link: LinkId,
        given: Given,
        fresh: ReplId,
        outs: &mut Outs,
    ) -> Result<Outcome, NodeFault>
        requires { outs.old ≡ record no_outs { link = Some link } }
        ensures { Steps self.old link given fresh self.new (step_of outs.new result) }
    {
        if !self.state.up() {
            return Err(NodeFault::Stopped);
        }
        let Some(end) = self.state.ends().get(link) else {
            return Err(NodeFault::NoLink);
        };
        match end.kind() {
            Kind::Client => {
                if end.transaction().is_some() {
                    self.serve_within(link, given, outs)
                } else {
                    self.serve(link, given, fresh, outs)
                }
            }
            Kind::Replica => self.note(link, outs),
            Kind::Upstream => self.follow(link, outs),
            Kind::Shut => Ok(Outcome::Closed),
        }
    }

    /// Makes a step at a client's end.
    fn serve(
        &mut self,
        link: LinkId,
        given: Given,
        fresh: ReplId,
        outs: &mut Outs,
    ) -> Result<Outcome, NodeFault>
        requires at { (u : List ℕ) × IsAt self.old link u }
        requires begun { outs.old ≡ record no_outs { link = Some link } }
        ensures { (u : List ℕ) → IsAt self.old link u →
            ClientStep self.old link u given fresh self.new (step_of outs.new result) }
    {
        let Ok(todo) = self.todo(link, given) else {
            return Err(NodeFault::Memory);
        };
        match todo {
            Todo::Wait(progress) => {
                self.state.keep(link, progress);
                Ok(Outcome::Idle)
            }
            Todo::Skip { used } => Ok(self.skip(link, used)),
            Todo::Refuse(fault) => self.refuse(link, fault, outs),
            Todo::Ask { used, request } => self.ask(link, used, request, fresh, outs),
            Todo::Do { used, answer } => match answer {
                Answer::Run(plan) => self.run(link, used, plan, outs),
                Answer::Quit => self.quit(link, outs),
                Answer::Rewrite => self.rewrite(link, used, outs),
                Answer::Tell(question) => self.tell(link, used, question, outs),
                Answer::Halt => Ok(self.halt(link, used, outs)),
            },
        }
    }

    /// What is to be done about a client's unread bytes.
    fn todo(&self, link: LinkId, given: Given) -> Result<Todo, AllocError>
        requires { (u : List ℕ) × Agrees self.now link u }
        ensures { (u : List ℕ) → Agrees self.now link u →
            TodoAt (not self.now.core.master) u given self.now.core.held result }
    {
        let Some(end) = self.state.ends().get(link) else {
            unreachable!()
        };
        todo_of(
            self.alloc,
            self.state.held(),
            !self.state.master(),
            end.unread(),
            end.progress(),
            given,
        )
    }
}
