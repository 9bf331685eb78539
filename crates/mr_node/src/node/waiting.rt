// A step at a client's end where a transaction is begun or open.
ghost use Rattle.std.specs.Prelude.{◌≡◌, ℕ, List, Some, not, take};
ghost use Rattle.mr_resp.specs.ReplyView.{view};
ghost use Rattle.mr_cmd_node.specs.declared.node_ask.NodeAsk.TheVariants as node;
ghost use Rattle.mr_data.specs.declared.given.Given.{Given};
ghost use Rattle.mr_commands.specs.declared.transactions.Within.TheVariants as within;
ghost use Rattle.mr_node_links.specs.Parts.{HasOpen, IsClient};
ghost use Rattle.mr_node_links.specs.State.{CanWait, Transaction};
ghost use Rattle.mr_node_spec.specs.State.{AgreesWithin};
ghost use Rattle.mr_node_output.specs.Outs.{no_outs};
ghost use Rattle.mr_node.specs.Reading.{Wishes};
ghost use Rattle.mr_node.specs.Steps.{ClientStep, IsAt, step_of};
ghost use Rattle.mr_node.specs.Within.{Comes, EndsWith, IsAtOpen, TodoAtOpen, WithinStep};

use crate::fault::NodeFault;
use crate::node::Node;
use crate::replies::{aborted, done, nested, queued};
use crate::step::Outcome;
use crate::within::{TodoWithin, todo_within};
use mr_commands::Within;
use mr_data::Given;
use mr_links::LinkId;
use mr_node_output::Outs;
use mr_resp::Reply;
use std::alloc::AllocError;

// Where none is open.
impl Node {
    /// Begins a transaction, and answers OK.
    pub(crate) fn begin(
        &mut self,
        link: LinkId,
        used: usize,
        outs: &mut Outs,
    ) -> Result<Outcome, NodeFault>
        requires client { IsClient self.old.ends link used }
        requires begun { outs.old ≡ record no_outs { link = Some link } }
        ensures { (u : List ℕ) (given : Given) (fresh : List ℕ) → IsAt self.old link u →
            Wishes u used node.Multi →
            ClientStep self.old link u given fresh self.new (step_of outs.new result) }
    {
        if outs.say(&done()).is_err() {
            return Err(NodeFault::Memory);
        }
        self.state.begin(link, used);
        Ok(Outcome::Done)
    }
}

// Where one is.
impl Node {
    /// Makes a step at a client's end where a transaction is open.
    pub(crate) fn serve_within(
        &mut self,
        link: LinkId,
        given: Given,
        outs: &mut Outs,
    ) -> Result<Outcome, NodeFault>
        requires at { (t : Transaction) × (u : List ℕ) × IsAtOpen self.old link t u }
        requires begun { outs.old ≡ record no_outs { link = Some link } }
        ensures { (t : Transaction) (u : List ℕ) → IsAtOpen self.old link t u →
            WithinStep self.old link t u given self.new (step_of outs.new result) }
    {
        let Ok(todo) = self.todo_within(link) else {
            return Err(NodeFault::Memory);
        };
        match todo {
            TodoWithin::Wait(progress) => {
                self.state.keep(link, progress);
                Ok(Outcome::Idle)
            }
            TodoWithin::Skip { used } => {
                self.advance(link, used);
                Ok(Outcome::Done)
            }
            TodoWithin::Refuse(fault) => self.refuse(link, fault, outs),
            TodoWithin::Come { used, within } => self.come(link, used, within, given, outs),
        }
    }

    /// What is to be done about the unread bytes there.
    fn todo_within(&self, link: LinkId) -> Result<TodoWithin, AllocError>
        requires { (t : Transaction) × (u : List ℕ) × IsAtOpen self.now link t u }
        ensures { (t : Transaction) (u : List ℕ) → IsAtOpen self.now link t u →
            TodoAtOpen (not self.now.core.master) u result }
    {
        let Some(end) = self.state.ends().get(link) else {
            unreachable!()
        };
        todo_within(
            self.alloc,
            !self.state.master(),
            end.unread(),
            end.progress(),
        )
    }

    /// Does what a request comes to.
    fn come(
        &mut self,
        link: LinkId,
        used: usize,
        within: Within,
        given: Given,
        outs: &mut Outs,
    ) -> Result<Outcome, NodeFault>
        requires comes { (t : Transaction) × (u : List ℕ) × IsAtOpen self.old link t u ×
            Comes (not self.old.core.master) u used within }
        requires begun { outs.old ≡ record no_outs { link = Some link } }
        ensures { (t : Transaction) (u : List ℕ) → IsAtOpen self.old link t u →
            Comes (not self.old.core.master) u used within →
            WithinStep self.old link t u given self.new (step_of outs.new result) }
    {
        match within {
            Within::Queue => self.queue(link, used, outs),
            Within::Mark(reply) => self.mark(link, used, &reply, outs),
            Within::Nest => self.nest(link, used, outs),
            Within::Drop => self.end_with(link, used, &done(), outs),
            Within::Run => {
                if self.is_marked(link) {
                    self.end_with(link, used, &aborted(), outs)
                } else {
                    self.execute(link, used, given, outs)
                }
            }
            Within::Quit => self.quit(link, outs),
        }
    }

    /// Whether nothing is to be done at the end of the transaction.
    fn is_marked(&self, link: LinkId) -> bool
        requires { HasOpen self.now.ends link 0 }
        ensures { (t : Transaction) (u : List ℕ) → AgreesWithin self.now link t u →
            result ≡ t.marked }
    {
        let Some(end) = self.state.ends().get(link) else {
            unreachable!()
        };
        let Some(transaction) = end.transaction() else {
            unreachable!()
        };
        transaction.is_marked()
    }

    /// The request waits.
    fn queue(&mut self, link: LinkId, used: usize, outs: &mut Outs) -> Result<Outcome, NodeFault>
        requires open { HasOpen self.old.ends link used }
        requires request { (t : Transaction) (u : List ℕ) → AgreesWithin self.old link t u →
            CanWait (take used u) }
        requires begun { outs.old ≡ record no_outs { link = Some link } }
        ensures { (t : Transaction) (u : List ℕ) (given : Given) →
            IsAtOpen self.old link t u → Comes (not self.old.core.master) u used within.Queue →
            WithinStep self.old link t u given self.new (step_of outs.new result) }
    {
        if outs.say(&queued()).is_err() {
            return Err(NodeFault::Memory);
        }
        if self.state.wait(link, used).is_err() {
            return Err(NodeFault::Memory);
        }
        Ok(Outcome::Done)
    }

    /// The request is answered this, and nothing will be done at the end.
    fn mark(
        &mut self,
        link: LinkId,
        used: usize,
        reply: &Reply,
        outs: &mut Outs,
    ) -> Result<Outcome, NodeFault>
        requires open { HasOpen self.old.ends link used }
        requires begun { outs.old ≡ record no_outs { link = Some link } }
        ensures { (t : Transaction) (u : List ℕ) (given : Given) →
            IsAtOpen self.old link t u →
            Comes (not self.old.core.master) u used (within.Mark reply.now) →
            WithinStep self.old link t u given self.new (step_of outs.new result) }
    {
        if outs.say(reply).is_err() {
            return Err(NodeFault::Memory);
        }
        self.state.mark_open(link, used);
        Ok(Outcome::Done)
    }

    /// `MULTI` is refused, and the transaction goes on.
    fn nest(&mut self, link: LinkId, used: usize, outs: &mut Outs) -> Result<Outcome, NodeFault>
        requires open { HasOpen self.old.ends link used }
        requires begun { outs.old ≡ record no_outs { link = Some link } }
        ensures { (t : Transaction) (u : List ℕ) (given : Given) →
            IsAtOpen self.old link t u → Comes (not self.old.core.master) u used within.Nest →
            WithinStep self.old link t u given self.new (step_of outs.new result) }
    {
        if outs.say(&nested()).is_err() {
            return Err(NodeFault::Memory);
        }
        self.advance(link, used);
        Ok(Outcome::Done)
    }

    /// The transaction ends with this answer, and what waited is dropped.
    fn end_with(
        &mut self,
        link: LinkId,
        used: usize,
        reply: &Reply,
        outs: &mut Outs,
    ) -> Result<Outcome, NodeFault>
        requires open { HasOpen self.old.ends link used }
        requires begun { outs.old ≡ record no_outs { link = Some link } }
        ensures { (t : Transaction) (u : List ℕ) (given : Given) →
            IsAtOpen self.old link t u →
            EndsWith (not self.old.core.master) t u used (view reply.now) →
            WithinStep self.old link t u given self.new (step_of outs.new result) }
    {
        if outs.say(reply).is_err() {
            return Err(NodeFault::Memory);
        }
        let _ = self.state.take_out(link);
        self.advance(link, used);
        Ok(Outcome::Done)
    }
}
