// A change of roles.
ghost use Rattle.std.specs.Prelude.{◌≡◌, ◌≢◌, ◌<◌, ℕ, List, [], true, false, Some, OnOk};
ghost use Rattle.mr_resp.specs.Replies.{reply_text};
ghost use Rattle.mr_cmd_shared.specs.Answered.{done};
ghost use Rattle.mr_data.specs.declared.given.Given.{Given};
ghost use Rattle.mr_cmd_node.specs.declared.node_ask.NodeAsk.TheVariants as node;
ghost use Rattle.mr_links.specs.declared.link_id.LinkId.{LinkId};
ghost use Rattle.mr_node_links.specs.Parts.{HasAhead};
ghost use Rattle.mr_node_links.specs.Replicas.{Lists};
ghost use Rattle.mr_node_output.specs.Outs.{no_outs};
ghost use Rattle.mr_node_spec.specs.Ends.{names_of};
ghost use Rattle.mr_node_spec.specs.Sound.{ports};
ghost use Rattle.mr_replication.specs.State.{name_of};
ghost use Rattle.mr_node.specs.Reading.{Wishes};
ghost use Rattle.mr_node.specs.Steps.{ClientStep, IsAt, step_of};

use crate::fault::NodeFault;
use crate::node::Node;
use crate::step::Outcome;
use mr_links::LinkId;
use mr_node_output::{Address, Outs};
use mr_repl::ReplId;
use std::alloc::AllocError;

impl Node {
    /// A replica is a master from now on, and its stream goes on under the fresh id.
    pub(crate) fn promote(
        &mut self,
        link: LinkId,
        used: usize,
        fresh: ReplId,
        outs: &mut Outs,
    ) -> Result<Outcome, NodeFault>
        requires ahead { HasAhead self.old.ends link used }
        requires begun { outs.old ≡ record no_outs { link = Some link } }
        requires replica { self.old.core.master ≡ false }
        ensures { (u : List ℕ) (given : Given) → IsAt self.old link u →
            Wishes u used node.NoOne →
            ClientStep self.old link u given fresh self.new (step_of outs.new result) }
    {
        if self.put_leaving(outs).is_err() {
            return Err(NodeFault::Memory);
        }
        outs.take_id(fresh);
        self.advance(link, used);
        self.state.promote(fresh);
        Ok(Outcome::Done)
    }

    /// A replica is to follow another.
    pub(crate) fn turn(
        &mut self,
        link: LinkId,
        used: usize,
        address: Address,
        outs: &mut Outs,
    ) -> Result<Outcome, NodeFault>
        requires ahead { HasAhead self.old.ends link used }
        requires begun { outs.old ≡ record no_outs { link = Some link } }
        requires replica { self.old.core.master ≡ false }
        requires another { self.old.core.upstream ≢ Some address }
        ensures { (u : List ℕ) (given : Given) (fresh : List ℕ) → IsAt self.old link u →
            Wishes u used (node.ReplicaOf address.host address.port) →
            ClientStep self.old link u given fresh self.new (step_of outs.new result) }
    {
        if self.put_leaving(outs).is_err() || self.put_following(&address, outs).is_err() {
            return Err(NodeFault::Memory);
        }
        self.advance(link, used);
        self.state.turn(address);
        Ok(Outcome::Done)
    }

    /// A master becomes a replica, and closes its replicas' links.
    pub(crate) fn demote(
        &mut self,
        link: LinkId,
        used: usize,
        address: Address,
        outs: &mut Outs,
    ) -> Result<Outcome, NodeFault>
        requires ahead { HasAhead self.old.ends link used }
        requires begun { outs.old ≡ record no_outs { link = Some link } }
        requires master { self.old.core.master ≡ true }
        ensures { (u : List ℕ) (given : Given) (fresh : List ℕ) → IsAt self.old link u →
            Wishes u used (node.ReplicaOf address.host address.port) →
            ClientStep self.old link u given fresh self.new (step_of outs.new result) }
    {
        if self.put_dismissal(outs).is_err() || self.put_following(&address, outs).is_err() {
            return Err(NodeFault::Memory);
        }
        self.advance(link, used);
        self.state.obey(address);
        Ok(Outcome::Done)
    }

    /// OK, and the link to the master is closed.
    fn put_leaving(&self, outs: &mut Outs) -> Result<(), AllocError>
        requires { (outs.old.reply ≡ []) × (outs.old.closed ≡ []) }
        ensures { OnOk result (outs.new ≡
            record outs.old
            { reply = reply_text done; closed = names_of (name_of self.now.follow) }) }
    {
        outs.say_bytes(b"+OK\r\n")?;
        match self.state.followed() {
            None => Ok(()),
            Some(link) => outs.close_all(&[link]),
        }
    }

    /// OK, and the replicas' links are closed.
    fn put_dismissal(&self, outs: &mut Outs) -> Result<(), AllocError>
        requires { (outs.old.reply ≡ []) × (outs.old.closed ≡ []) }
        ensures { OnOk result ((names : List LinkId) × Lists names self.now.ends.open_links ×
            (outs.new ≡ record outs.old { reply = reply_text done; closed = names })) }
    {
        outs.say_bytes(b"+OK\r\n")?;
        outs.close_all(self.state.ends().replicas())
    }

    /// Whom the node follows from now on.
    fn put_following(&self, address: &Address, outs: &mut Outs) -> Result<(), AllocError>
        ensures told { OnOk result (outs.new ≡ record outs.old { follows = Some address.now }) }
        ensures port { address.now.port < ports }
    {
        let told = Address::copied(self.alloc, address.host(), address.port())?;
        outs.follow(told);
        Ok(())
    }
}
