// What waited is done as one.
ghost use Rattle.std.specs.Prelude.{◌≡◌, ◌≢◌, ◌<◌, ◌≤◌, ◌+◌, ◌∷◌, All, List, ℕ, [], map, not, false, true, length, IfOk, Some, IsTrue};
ghost use Rattle.std.specs.List.{list_all};
ghost use Rattle.std.specs.Cow.{cow_slice_items};
ghost use Rattle.mr_bytes.specs.Words.{fits};
ghost use Rattle.mr_resp.specs.ReplyView.{view};
ghost use Rattle.mr_resp.specs.Request.{IsRequest};
ghost use Rattle.mr_resp.specs.Spelling.{number_line};
ghost use Rattle.mr_resp.specs.Usual.{commands, usual};
ghost use Rattle.mr_keyspace.specs.Dataset.{Dataset as Held};
ghost use Rattle.mr_effect.specs.declared.effect.Effect.{Effect};
ghost use Rattle.mr_groups.specs.Groups.{frame_for};
ghost use Rattle.mr_data.specs.declared.given.Given.{Given as Moment};
ghost use Rattle.mr_commands.specs.Requests.{HasPlan, IsPlain};
ghost use Rattle.mr_node_links.specs.Parts.{HasOpen};
ghost use Rattle.mr_node_links.specs.State.{CanWait, Transaction};
ghost use Rattle.mr_node_output.specs.Outs.{no_outs};
ghost use Rattle.mr_node_spec.specs.State.{NodeState};
ghost use Rattle.mr_node.specs.Executing.{AreFramed, behind_frame, ClosesFrame, ClosesGroup, CountsDone, DoesEach, DoesOne, Executes, GivesUp, IsWaited, SaysOnly, AreDone};
ghost use Rattle.mr_node_state.specs.Parts.{Leads};
ghost use Rattle.mr_node.specs.Steps.{step_of};
ghost use Rattle.mr_node.specs.Within.{Comes, IsAtOpen, WithinStep};
ghost use Rattle.mr_commands.specs.declared.transactions.Within.TheVariants as within;

use crate::fault::NodeFault;
use crate::node::Node;
use crate::replies::past_the_limit;
use crate::step::Outcome;
use crate::todo::{Todo, request_todo};
use crate::waited::Waited;
use mr_commands::{Answer, not_allowed};
use mr_data::{Given, Plan};
use mr_groups::{FRAME, exec_text, multi_text};
use mr_links::LinkId;
use mr_node_output::Outs;
use mr_repl::OFFSET_LIMIT;
use mr_resp::{Reply, Scan, next_request, words_fit};
use std::alloc::AllocError;
use std::borrow::CowSlice;

// All of them.
impl Node {
    /// Does what waits as one: each request at the dataset that those before it left. The stream, the file and the replicas get the group of
    /// their effects, and the client all replies as one. Where memory is lacking and none had an effect, the transaction stays open.
    pub(crate) fn execute(
        &mut self,
        link: LinkId,
        used: usize,
        given: Given,
        outs: &mut Outs,
    ) -> Result<Outcome, NodeFault>
        requires open { HasOpen self.old.ends link used }
        requires begun { outs.old ≡ record no_outs { link = Some link } }
        ensures { (t : Transaction) (u : List ℕ) → IsAtOpen self.old link t u →
            t.marked ≡ false → Comes (not self.old.core.master) u used within.Run →
            WithinStep self.old link t u given self.new (step_of outs.new result) }
    {
        let transaction = self.state.take_out(link);
        match self.execute_all(transaction.requests(), given, outs) {
            Ok(()) => {
                self.advance(link, used);
                Ok(Outcome::Done)
            }
            Err(fault) => {
                self.state.put_back(link, transaction);
                Err(fault)
            }
        }
    }

    /// Does the requests of these texts, and lets the stream grow by the group of their effects. Where memory is lacking before one of them had
    /// an effect, nothing has changed; behind that the node stops. Once all are done none is taken.
    fn execute_all(
        &mut self,
        requests: &[Vec<u8>],
        given: Given,
        outs: &mut Outs,
    ) -> Result<(), NodeFault>
        requires requests { All CanWait (map (λ r. r.items) requests.now) }
        requires empty { (outs.old.grown ≡ []) × (outs.old.appended ≡ []) ×
            (outs.old.fed ≡ []) × (outs.old.reply ≡ []) }
        ensures { Executes self.old given (map (λ r. r.items) requests.now) outs.old result
            self.new outs.new }
    {
        if outs.begin_frame(multi_text(), exec_text()).is_err() {
            return Err(NodeFault::Memory);
        }
        if outs.feed(self.state.ends().replicas()).is_err() {
            return Err(NodeFault::Memory);
        }
        if outs.say_count(requests.len()).is_err() {
            return Err(NodeFault::Memory);
        }
        match self.execute_each(requests, given, outs) {
            Ok(count) => {
                self.close_group(count, outs);
                Ok(())
            }
            Err(fault) => Err(fault),
        }
    }

    /// Does them one after another, and counts their effects.
    fn execute_each(
        &mut self,
        requests: &[Vec<u8>],
        given: Given,
        outs: &mut Outs,
    ) -> Result<usize, NodeFault>
        requires requests { All CanWait (map (λ r. r.items) requests.now) }
        requires grown { outs.old.grown ≡ behind_frame [] }
        requires appended { outs.old.appended ≡ behind_frame [] }
        ensures { DoesEach self.old given (map (λ r. r.items) requests.now) outs.old result
            self.new outs.new }
    {
        // its clause bounds the offset
        let _ = self.state.lineage().stream().end();
        let mut count = 0;
        for request in requests {
            match self.execute_one(request.as_slice(), count, given, outs) {
                Ok(more) => count += more,
                Err(fault) => return Err(self.give_up(fault, count)),
            }
        }
        Ok(count)
    }

    /// What a fault behind so many effects comes to: memory that is lacking stops the node if there are some.
    fn give_up(&mut self, fault: NodeFault, count: usize) -> NodeFault
        ensures { GivesUp fault count self.old self.new result }
    {
        match fault {
            NodeFault::Memory if count > 0 => {
                self.state.stop();
                NodeFault::Stopped
            }
            _ => fault,
        }
    }

    /// The texts of so many effects stand in a frame where they are several, and behind the stream. Where there are none nobody is fed.
    fn close_group(&mut self, count: usize, outs: &mut Outs)
        requires { CountsDone count self.old outs.old }
        ensures { (a : NodeState) (effects : List Effect) (m : Held) →
            AreDone a effects m self.old outs.old → count ≡ length effects →
            ClosesGroup effects self.old outs.old self.new outs.new }
    {
        close_frame(count, outs);
        self.state.grow(outs.grown());
    }
}

// One of them.
impl Node {
    /// Does the request of this text behind so many effects, and counts its own.
    fn execute_one(
        &mut self,
        request: &[u8],
        before: usize,
        given: Given,
        outs: &mut Outs,
    ) -> Result<usize, NodeFault>
        requires request { CanWait request.now }
        requires same { outs.old.appended ≡ outs.old.grown }
        ensures { (a : NodeState) (words : List (List ℕ)) (effects : List Effect) (m : Held) →
            IsRequest usual request.now words → AreDone a effects m self.old outs.old →
            before ≡ length effects →
            DoesOne a given words effects m outs.old self.old result self.new outs.new }
    {
        let Ok(scan) = next_request(self.alloc, request) else {
            return Err(NodeFault::Memory);
        };
        // it is a request's text
        let Scan::Whole { words, used: _ } = scan else {
            unreachable!()
        };
        words_fit();
        match self.waited(words.as_slice(), given) {
            Err(_) => Err(NodeFault::Memory),
            Ok(Waited::Run(plan)) => self.execute_plan(plan, before, outs),
            Ok(Waited::Say(reply)) => say_only(&reply, outs),
        }
    }

    /// What a request of these words comes to that waited. What may not wait, which doesn't, would be refused.
    fn waited(&self, words: &[CowSlice<'_, u8>], given: Given) -> Result<Waited, AllocError>
        requires some { 0 < length words.now }
        requires fit { IsTrue (list_all fits (map cow_slice_items words.now)) }
        requires few { length words.now ≤ commands.words }
        ensures { IfOk result (λ w. IsWaited self.now (map cow_slice_items words.now) given w) }
    {
        // its bytes were used when it came
        let used = 0;
        let held = self.state.held();
        match request_todo(self.alloc, held, !self.state.master(), words, used, given)? {
            Todo::Do { used: _, answer } => match answer {
                Answer::Run(plan) => Ok(Waited::Run(plan)),
                Answer::Tell(question) => Ok(Waited::Say(self.answer_about(question)?)),
                _ => Ok(Waited::Say(not_allowed())),
            },
            _ => Ok(Waited::Say(not_allowed())),
        }
    }

    /// Carries out a plan behind so many effects, if its own have room, and counts them.
    fn execute_plan(
        &mut self,
        plan: Plan,
        before: usize,
        outs: &mut Outs,
    ) -> Result<usize, NodeFault>
        requires leads { Leads plan.effects.items self.old.core.held }
        requires same { outs.old.appended ≡ outs.old.grown }
        ensures { (a : NodeState) (given : Moment) (words : List (List ℕ)) (effects : List Effect)
            (m : Held) → IsPlain words →
            HasPlan (not a.core.master) m words given (view plan.reply) plan.effects.items →
            AreDone a effects m self.old outs.old → before ≡ length effects →
            DoesOne a given words effects m outs.old self.old result self.new outs.new }
    {
        let Plan { reply, effects } = plan;
        let count = effects.len();
        if count == 0 {
            return say_only(&reply, outs);
        }
        let room = OFFSET_LIMIT - self.state.lineage().stream().end();
        let frame = frame_round(before, count);
        if room < frame {
            return say_only(&past_the_limit(), outs);
        }
        // the parts of a frame stand in front of the texts already
        match outs.grow_on(effects.as_slice(), room - frame + FRAME) {
            Err(_) => return Err(NodeFault::Memory),
            Ok(false) => return say_only(&past_the_limit(), outs),
            Ok(true) => {}
        }
        if outs.say(&reply).is_err() {
            return Err(NodeFault::Memory);
        }
        if self.state.apply(effects).is_err() {
            return Err(NodeFault::Stopped);
        }
        Ok(count)
    }
}

/// The texts of so many effects, which stand behind both parts of a frame, stand in it where they are several, and else alone. Where there
/// are none nobody is fed.
fn close_frame(count: usize, outs: &mut Outs)
    requires { (effects : List Effect) × AreFramed count effects outs.old }
    ensures { (effects : List Effect) → AreFramed count effects outs.old →
        ClosesFrame effects outs.old outs.new }
{
    if count > 1 {
        outs.turn_front(exec_text().len());
        return;
    }
    outs.drop_front(FRAME as usize);
    if count == 1 {
        return;
    }
    outs.feed_nobody();
}

/// How many bytes stand round the texts of so many effects behind so many.
fn frame_round(before: usize, count: usize) -> u64
    ensures { 0 < count → result ≡ frame_for (before + count) }
{
    if before > 0 || count > 1 { FRAME } else { 0 }
}

/// Answers, without an effect.
fn say_only(reply: &Reply, outs: &mut Outs) -> Result<usize, NodeFault>
    ensures { SaysOnly (view reply.now) outs.old result outs.new }
{
    if outs.say(reply).is_err() {
        return Err(NodeFault::Memory);
    }
    Ok(0)
}
