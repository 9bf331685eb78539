// What a node tells of itself.
ghost use Rattle.std.specs.Prelude.{◌≡◌, ◌↔◌, ◌⊎◌, if◌then◌else◌, ℕ, List, Some, None, false, IfOk, IfErr, IsErrOf, length, not, option_copied};
ghost use Rattle.std.specs.FinMap as map;
ghost use Rattle.mr_resp.specs.ReplyView.{view};
ghost use Rattle.mr_data.specs.declared.given.Given.{Given};
ghost use Rattle.mr_info.specs.Info.{info_text};
ghost use Rattle.mr_links.specs.declared.link_id.LinkId.{LinkId};
ghost use Rattle.mr_node_links.specs.Parts.{HasAhead};
ghost use Rattle.mr_node_links.specs.Replicas.{Lists};
ghost use Rattle.mr_node_output.specs.Outs.{no_outs};
ghost use Rattle.mr_node_spec.specs.Telling.{link_of};
ghost use Rattle.mr_node.specs.Reading.{Questions};
ghost use Rattle.mr_node.specs.Steps.{ClientStep, IsAt, step_of};
ghost use Rattle.mr_node.specs.Parts.{ListsReplicas, TellsInfo, TellsOf, role_of};

use crate::fault::NodeFault;
use crate::node::Node;
use crate::role::Role;
use crate::step::Outcome;
use mr_cmd_server::Question;
use mr_follower::Phase;
use mr_info::{MasterLink, Replica, info, master_role, replica_role};
use mr_links::LinkId;
use mr_node_links::LinkEnd;
use mr_node_output::{Address, Outs};
use mr_resp::Reply;
use std::alloc::AllocError;

impl Node {
    /// INFO's section on replication.
    pub fn info(&self) -> Result<Vec<u8>, NodeFault>
        ensures text { IfOk result (λ text. TellsInfo self.now text.items) }
        ensures stopped { IsErrOf result NodeFault.Stopped ↔ (self.now.core.up ≡ false) }
        ensures no_other { IfErr result (λ e. (e ≡ NodeFault.Memory) ⊎
            (e ≡ NodeFault.Stopped)) }
    {
        if !self.state.up() {
            return Err(NodeFault::Stopped);
        }
        match self.info_text() {
            Ok(text) => Ok(text),
            Err(_) => Err(NodeFault::Memory),
        }
    }

    /// The text of INFO's section on replication.
    fn info_text(&self) -> Result<Vec<u8>, AllocError>
        ensures { IfOk result (λ text. TellsInfo self.now text.items) }
    {
        info(
            self.alloc,
            !self.state.master(),
            self.state.ends().replicas().len(),
            self.state.lineage(),
        )
    }

    /// Answers what is asked about the node.
    pub(crate) fn tell(
        &mut self,
        link: LinkId,
        used: usize,
        question: Question,
        outs: &mut Outs,
    ) -> Result<Outcome, NodeFault>
        requires ahead { HasAhead self.old.ends link used }
        requires begun { outs.old ≡ record no_outs { link = Some link } }
        ensures { (u : List ℕ) (given : Given) (fresh : List ℕ) → IsAt self.old link u →
            Questions u used question →
            ClientStep self.old link u given fresh self.new (step_of outs.new result) }
    {
        let Ok(reply) = self.answer_about(question) else {
            return Err(NodeFault::Memory);
        };
        if outs.say(&reply).is_err() {
            return Err(NodeFault::Memory);
        }
        self.advance(link, used);
        Ok(Outcome::Done)
    }

    /// What is answered to what is asked about the node.
    pub(crate) fn answer_about(&self, question: Question) -> Result<Reply, AllocError>
        ensures { IfOk result (λ reply. TellsOf question self.now (view reply)) }
    {
        match question {
            Question::Replication => Ok(Reply::Bulk(self.info_text()?)),
            Question::OtherSection => {
                // its clause lists the replicas
                let _ = self.state.ends().replicas();
                Ok(Reply::Bulk(Vec::new(self.alloc)))
            }
            Question::Role => self.role_reply(),
        }
    }

    /// ROLE's reply.
    fn role_reply(&self) -> Result<Reply, AllocError>
        ensures { IfOk result (λ reply. TellsOf Question.Role self.now (view reply)) }
    {
        let stream = self.state.lineage().stream();
        if self.state.master() {
            let replicas = self.seen_replicas()?;
            return master_role(self.alloc, stream, replicas.as_slice());
        }
        // its clause lists the replicas
        let _ = self.state.ends().replicas();
        match self.state.upstream() {
            None => replica_role(self.alloc, stream, b"", 0, self.master_link()),
            Some(address) => {
                replica_role(
                    self.alloc,
                    stream,
                    address.host(),
                    address.port(),
                    self.master_link(),
                )
            }
        }
    }

    /// The node's role and, of a replica, how far it has come with the link to its master, stopped or not. It takes no memory.
    pub fn role(&self) -> Role
        ensures { result ≡ role_of self.now }
    {
        if self.state.master() {
            return Role::Master;
        }
        match self.master_link() {
            MasterLink::Connect => Role::Connect,
            MasterLink::Sync => Role::Sync,
            MasterLink::Connected => Role::Connected,
        }
    }

    /// Whom the node was told to follow, since it was started or promoted, stopped or not. It takes no memory.
    pub fn upstream(&self) -> Option<&Address>
        ensures { option_copied result ≡ self.now.core.upstream }
    {
        self.state.upstream()
    }

    /// How many keys its dataset has, expired ones included; none once it is stopped, whose dataset may be spent. It takes no memory.
    pub fn key_count(&self) -> Option<usize>
        ensures { result ≡ if self.now.core.up
            then Some (map.len self.now.core.held)
            else None }
    {
        if !self.state.up() {
            return None;
        }
        Some(self.state.held().len())
    }

    /// How far a replica has come with the link to its master.
    fn master_link(&self) -> MasterLink
        ensures { result ≡ link_of self.now.follow }
    {
        match self.state.phase() {
            None => MasterLink::Connect,
            Some(Phase::Stream) => MasterLink::Connected,
            Some(_) => MasterLink::Sync,
        }
    }

    /// The replicas, with what they said of themselves, in the order in which they became replicas.
    fn seen_replicas(&self) -> Result<Vec<Replica<'_>>, AllocError>
        ensures { IfOk result (λ replicas. ListsReplicas self.now (length replicas.items)) }
    {
        let ends = self.state.ends();
        let names = ends.replicas();
        let mut replicas = Vec::new(self.alloc);
        for name in names {
            replicas.push(seen(ends.get(*name)))?;
        }
        Ok(replicas)
    }
}

/// A replica, as it said of itself at its end.
fn seen(end: Option<&LinkEnd>) -> Replica<'_> {
    let Some(end) = end else {
        return Replica {
            address: None,
            port: None,
            acknowledged: None,
        };
    };
    let said = end.introduction();
    Replica {
        address: said.address(),
        port: said.port(),
        acknowledged: Some(end.acknowledged()),
    }
}
