// What a client's request is answered, where it asks nothing of the node itself.
ghost use Rattle.std.specs.Prelude.{◌≡◌, ◌≢◌, ◌≤◌, ℕ, List, [], true, not, length, IfErr, IfOk, OnOk, Some, Ok, false};
ghost use Rattle.mr_resp.specs.ReplyView.{view};
ghost use Rattle.mr_resp.specs.Replies.{error, reply_text};
ghost use Rattle.mr_resp.specs.Faults.{fault_text};
ghost use Rattle.mr_effect.specs.Spelling.{texts};
ghost use Rattle.mr_data.specs.declared.given.Given.{Given};
ghost use Rattle.mr_repl.specs.Backlog.{offset_limit};
ghost use Rattle.mr_cmd_shared.specs.Answered.{done};
ghost use Rattle.mr_node_links.specs.State.{EndState, Transaction, serves};
ghost use Rattle.mr_node_links.specs.Parts.{HasAhead};
ghost use Rattle.mr_node_output.specs.Outs.{growth, outs_with, no_output, no_outs};
ghost use Rattle.mr_node_spec.specs.State.{Agrees, end_of};
ghost use Rattle.mr_node_spec.specs.ClientRows.{Ends, MayLack};
ghost use Rattle.mr_node_spec.specs.Growing.{offset_behind};
ghost use Rattle.mr_node_spec.specs.Served.{rewritten_as};
ghost use Rattle.mr_node.specs.Reading.{HaltsAt, Passes, Quits, Rewrites, Runs};
ghost use Rattle.mr_node_spec.specs.Requests.{IsDoomedBy};
ghost use Rattle.mr_node.specs.Steps.{ClientStep, IsAt, step_of};
ghost use Rattle.mr_node.specs.Within.{IsAtOpen, WithinStep};
ghost use Rattle.mr_node_state.specs.Parts.{Leads};
ghost use Rattle.mr_node.specs.Parts.{AreEmpty, FeedsAll, Tells};

use crate::fault::NodeFault;
use crate::node::Node;
use crate::replies::{done, past_the_limit, rewriting};
use crate::step::Outcome;
use mr_data::Plan;
use mr_links::LinkId;
use mr_node_output::Outs;
use mr_repl::OFFSET_LIMIT;
use mr_resp::{Fault, Reply};
use std::alloc::AllocError;

// Requests without effects.
impl Node {
    /// Uses an empty request. Nothing is given out.
    pub(crate) fn skip(&mut self, link: LinkId, used: usize) -> Outcome
        requires { HasAhead self.old.ends link used }
        ensures { (u : List ℕ) (given : Given) (fresh : List ℕ) → IsAt self.old link u →
            Passes u used →
            ClientStep self.old link u given fresh self.new
            (step_of (record no_outs { link = Some link }) (Ok result)) }
    {
        self.advance(link, used);
        Outcome::Done
    }

    /// Uses a client's wish that the program end. Nothing is answered.
    pub(crate) fn halt(&mut self, link: LinkId, used: usize, outs: &mut Outs) -> Outcome
        requires ahead { HasAhead self.old.ends link used }
        requires begun { outs.old ≡ record no_outs { link = Some link } }
        ensures { (u : List ℕ) (given : Given) (fresh : List ℕ) → IsAt self.old link u →
            HaltsAt u used →
            ClientStep self.old link u given fresh self.new (step_of outs.new (Ok result)) }
    {
        outs.halt();
        self.advance(link, used);
        Outcome::Done
    }

    /// Sends the text of a fault, and closes the link.
    pub(crate) fn refuse(
        &mut self,
        link: LinkId,
        fault: Fault,
        outs: &mut Outs,
    ) -> Result<Outcome, NodeFault>
        requires serves { (end : EndState) × (end_of self.old link ≡ Some end) ×
            (serves end ≡ true) }
        requires begun { outs.old ≡ record no_outs { link = Some link } }
        ensures client { (u : List ℕ) (given : Given) (fresh : List ℕ) →
            IsAt self.old link u → IsDoomedBy u fault →
            ClientStep self.old link u given fresh self.new (step_of outs.new result) }
        ensures open { (t : Transaction) (u : List ℕ) (given : Given) →
            IsAtOpen self.old link t u → IsDoomedBy u fault →
            WithinStep self.old link t u given self.new (step_of outs.new result) }
    {
        let Ok(reply) = fault.reply(self.alloc) else {
            return Err(NodeFault::Memory);
        };
        self.dismiss(link, &reply, outs)
    }

    /// Answers OK, and closes the link.
    pub(crate) fn quit(&mut self, link: LinkId, outs: &mut Outs) -> Result<Outcome, NodeFault>
        requires serves { (end : EndState) × (end_of self.old link ≡ Some end) ×
            (serves end ≡ true) }
        requires begun { outs.old ≡ record no_outs { link = Some link } }
        ensures client { (u : List ℕ) (given : Given) (fresh : List ℕ) →
            IsAt self.old link u → Quits u →
            ClientStep self.old link u given fresh self.new (step_of outs.new result) }
        ensures open { (t : Transaction) (u : List ℕ) (given : Given) →
            IsAtOpen self.old link t u → Quits u →
            WithinStep self.old link t u given self.new (step_of outs.new result) }
    {
        self.dismiss(link, &done(), outs)
    }

    /// Sends a last reply, and closes the link.
    fn dismiss(
        &mut self,
        link: LinkId,
        reply: &Reply,
        outs: &mut Outs,
    ) -> Result<Outcome, NodeFault>
        requires serves { (end : EndState) × (end_of self.old link ≡ Some end) ×
            (serves end ≡ true) }
        requires begun { outs.old ≡ record no_outs { link = Some link } }
        ensures client { (u : List ℕ) (given : Given) (fresh : List ℕ) →
            IsAt self.old link u → MayLack u → Ends u (reply_text (view reply.now)) →
            ClientStep self.old link u given fresh self.new (step_of outs.new result) }
        ensures open { (t : Transaction) (u : List ℕ) (given : Given) →
            IsAtOpen self.old link t u → MayLack u → Ends u (reply_text (view reply.now)) →
            WithinStep self.old link t u given self.new (step_of outs.new result) }
    {
        if outs.say(reply).is_err() {
            return Err(NodeFault::Memory);
        }
        outs.close();
        self.state.shut(link);
        Ok(Outcome::Done)
    }

    /// The append-only file is written anew, and the client is told so.
    pub(crate) fn rewrite(
        &mut self,
        link: LinkId,
        used: usize,
        outs: &mut Outs,
    ) -> Result<Outcome, NodeFault>
        requires ahead { HasAhead self.old.ends link used }
        requires begun { outs.old ≡ record no_outs { link = Some link } }
        ensures { (u : List ℕ) (given : Given) (fresh : List ℕ) → IsAt self.old link u →
            Rewrites u used →
            ClientStep self.old link u given fresh self.new (step_of outs.new result) }
    {
        if outs.say(&rewriting()).is_err() {
            return Err(NodeFault::Memory);
        }
        let Ok(texts) = self.state.held().rebuild(self.alloc) else {
            return Err(NodeFault::Memory);
        };
        outs.replace(texts);
        self.advance(link, used);
        Ok(Outcome::Done)
    }
}

// Requests with a plan.
impl Node {
    /// Carries out a plan.
    pub(crate) fn run(
        &mut self,
        link: LinkId,
        used: usize,
        plan: Plan,
        outs: &mut Outs,
    ) -> Result<Outcome, NodeFault>
        requires ahead { HasAhead self.old.ends link used }
        requires leads { Leads plan.effects.items self.old.core.held }
        requires silent { self.old.core.master ≡ false → plan.effects.items ≡ [] }
        requires begun { outs.old ≡ record no_outs { link = Some link } }
        ensures { (u : List ℕ) (given : Given) (fresh : List ℕ) → IsAt self.old link u →
            Runs (not self.old.core.master) u given self.old.core.held used plan →
            ClientStep self.old link u given fresh self.new (step_of outs.new result) }
    {
        match self.put_answer(&plan, outs) {
            Err(_) => Err(NodeFault::Memory),
            Ok(false) => {
                self.advance(link, used);
                Ok(Outcome::Done)
            }
            Ok(true) => self.commit(link, used, plan, outs),
        }
    }

    /// Writes the texts of the effects and the reply. False where the effects would carry the offset past its limit: then what is
    /// written says so, and no effect.
    fn put_answer(&self, plan: &Plan, outs: &mut Outs) -> Result<bool, AllocError>
        requires { AreEmpty outs.old }
        ensures { IfOk result (λ fits.
            Tells self.now.core (view plan.now.reply) plan.now.effects.items outs.old fits
            outs.new) }
    {
        outs.grow(plan.effects.as_slice())?;
        if outs.grown().len() as u64 > OFFSET_LIMIT - self.state.lineage().stream().end() {
            outs.drop_grown();
            outs.say(&past_the_limit())?;
            return Ok(false);
        }
        outs.say(&plan.reply)?;
        Ok(true)
    }

    /// What the stream grows by goes to all replicas. Where it grows by nothing, nothing is sent.
    pub(crate) fn feed_replicas(&self, outs: &mut Outs) -> Result<(), AllocError>
        requires { outs.old.fed ≡ [] }
        ensures feeds { OnOk result (FeedsAll self.now outs.old outs.new) }
        ensures lacks { IfErr result (λ lacks. outs.old.grown ≢ []) }
    {
        if outs.grown().is_empty() {
            return Ok(());
        }
        let replicas = self.state.ends().replicas();
        if replicas.is_empty() {
            return Ok(());
        }
        outs.feed(replicas)
    }

    /// Applies the effects, puts their texts behind the stream, and sends them to all replicas.
    fn commit(
        &mut self,
        link: LinkId,
        used: usize,
        plan: Plan,
        outs: &mut Outs,
    ) -> Result<Outcome, NodeFault>
        requires ahead { HasAhead self.old.ends link used }
        requires leads { Leads plan.effects.items self.old.core.held }
        requires silent { self.old.core.master ≡ false → plan.effects.items ≡ [] }
        requires outs { outs.old ≡
            outs_with (Some link)
            (record (growth (texts plan.effects.items)) { said = reply_text (view plan.reply) }) }
        requires within { offset_behind plan.effects.items self.old.core ≤ offset_limit }
        ensures { (u : List ℕ) (given : Given) (fresh : List ℕ) → IsAt self.old link u →
            Runs (not self.old.core.master) u given self.old.core.held used plan →
            ClientStep self.old link u given fresh self.new (step_of outs.new result) }
    {
        if self.feed_replicas(outs).is_err() {
            return Err(NodeFault::Memory);
        }
        let Plan { reply: _, effects } = plan;
        if self.state.commit(effects, outs.grown()).is_err() {
            return Err(NodeFault::Stopped);
        }
        self.advance(link, used);
        Ok(Outcome::Done)
    }
}
