// What a client's request asks of the node itself.
ghost use Rattle.std.specs.Prelude.{◌≡◌, ◌↔◌, ℕ, List, true, IsTrue, Some, Ok};
ghost use Rattle.mr_resp.specs.ReplyView.{view};
ghost use Rattle.mr_cmd_shared.specs.Answered.{done};
ghost use Rattle.mr_data.specs.declared.given.Given.{Given};
ghost use Rattle.mr_cmd_node.specs.declared.node_ask.NodeAsk.{NodeAsk};
ghost use Rattle.mr_cmd_node.specs.declared.node_ask.NodeAsk.TheVariants as node;
ghost use Rattle.mr_node_links.specs.Parts.{HasAhead, IsClient};
ghost use Rattle.mr_node_output.specs.Outs.{no_output, no_outs};
ghost use Rattle.mr_node_spec.specs.Served.{says};
ghost use Rattle.mr_node.specs.Reading.{IsWish, Wishes};
ghost use Rattle.mr_node.specs.Steps.{ClientStep, IsAt, step_of};
ghost use Rattle.mr_node.specs.Parts.{Keeps};

use crate::fault::NodeFault;
use crate::node::Node;
use crate::replies::{discard_alone, done, exec_alone, not_chained};
use crate::request::NodeRequest;
use crate::step::Outcome;
use mr_links::LinkId;
use mr_node_links::Introduction;
use mr_node_output::{Address, Outs};
use mr_repl::ReplId;
use mr_resp::Reply;

impl Node {
    /// Does what is asked of the node, by its role.
    pub(crate) fn ask(
        &mut self,
        link: LinkId,
        used: usize,
        request: NodeRequest,
        fresh: ReplId,
        outs: &mut Outs,
    ) -> Result<Outcome, NodeFault>
        requires client { IsClient self.old.ends link used }
        requires begun { outs.old ≡ record no_outs { link = Some link } }
        ensures { (u : List ℕ) (given : Given) (wish : NodeAsk) → IsAt self.old link u →
            Wishes u used wish → IsWish wish request →
            ClientStep self.old link u given fresh self.new (step_of outs.new result) }
    {
        match request {
            NodeRequest::Stream(wish) => {
                if self.state.master() {
                    self.synchronize(link, used, &wish, outs)
                } else {
                    self.say(link, used, &not_chained(), outs)
                }
            }
            NodeRequest::Introduction(introduction) => self.introduce(
                link,
                used,
                introduction,
                outs,
            ),
            NodeRequest::Acknowledgement(offset) => Ok(self.acknowledge(link, used, offset)),
            NodeRequest::Follow(address) => self.follow_another(link, used, address, outs),
            NodeRequest::Lead => {
                if self.state.master() {
                    self.say(link, used, &done(), outs)
                } else {
                    self.promote(link, used, fresh, outs)
                }
            }
            NodeRequest::Begin => self.begin(link, used, outs),
            NodeRequest::Exec => self.say(link, used, &exec_alone(), outs),
            NodeRequest::Discard => self.say(link, used, &discard_alone(), outs),
        }
    }

    /// Follows another, by the node's role: whom a replica follows already it goes on to follow.
    fn follow_another(
        &mut self,
        link: LinkId,
        used: usize,
        address: Address,
        outs: &mut Outs,
    ) -> Result<Outcome, NodeFault>
        requires client { IsClient self.old.ends link used }
        requires begun { outs.old ≡ record no_outs { link = Some link } }
        ensures { (u : List ℕ) (given : Given) (fresh : List ℕ) → IsAt self.old link u →
            Wishes u used (node.ReplicaOf address.host address.port) →
            ClientStep self.old link u given fresh self.new (step_of outs.new result) }
    {
        if self.state.master() {
            return self.demote(link, used, address, outs);
        }
        if self.is_followed(&address) {
            return self.say(link, used, &done(), outs);
        }
        self.turn(link, used, address, outs)
    }

    /// Whether the node was told to follow this one.
    fn is_followed(&self, address: &Address) -> bool
        ensures { IsTrue result ↔ (self.now.core.upstream ≡ Some address.now) }
    {
        match self.state.upstream() {
            None => false,
            Some(upstream) => upstream.is(address.host(), address.port()),
        }
    }

    /// Answers, and nothing changes.
    fn say(
        &mut self,
        link: LinkId,
        used: usize,
        reply: &Reply,
        outs: &mut Outs,
    ) -> Result<Outcome, NodeFault>
        requires ahead { HasAhead self.old.ends link used }
        requires begun { outs.old ≡ record no_outs { link = Some link } }
        ensures { (u : List ℕ) (given : Given) (fresh : List ℕ) → IsAt self.old link u →
            Keeps self.old.core u used (says (view reply.now)) →
            ClientStep self.old link u given fresh self.new (step_of outs.new result) }
    {
        if outs.say(reply).is_err() {
            return Err(NodeFault::Memory);
        }
        self.advance(link, used);
        Ok(Outcome::Done)
    }

    /// Answers OK to what a replica says of itself, and keeps it.
    fn introduce(
        &mut self,
        link: LinkId,
        used: usize,
        introduction: Introduction,
        outs: &mut Outs,
    ) -> Result<Outcome, NodeFault>
        requires ahead { HasAhead self.old.ends link used }
        requires begun { outs.old ≡ record no_outs { link = Some link } }
        ensures { (u : List ℕ) (given : Given) (fresh : List ℕ) → IsAt self.old link u →
            Keeps self.old.core u used (says done) →
            ClientStep self.old link u given fresh self.new (step_of outs.new result) }
    {
        let answered = self.say(link, used, &done(), outs);
        if answered.is_ok() {
            self.state.introduce(link, introduction);
        }
        answered
    }

    /// Keeps the offset that is acknowledged. Nothing is given out.
    fn acknowledge(&mut self, link: LinkId, used: usize, offset: i64) -> Outcome
        requires { HasAhead self.old.ends link used }
        ensures { (u : List ℕ) (given : Given) (fresh : List ℕ) → IsAt self.old link u →
            Keeps self.old.core u used no_output →
            ClientStep self.old link u given fresh self.new
            (step_of (record no_outs { link = Some link }) (Ok result)) }
    {
        self.state.acknowledge(link, offset);
        self.advance(link, used);
        Outcome::Done
    }
}
