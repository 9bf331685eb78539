// A node and its one client.
ghost use Rattle.std.specs.Prelude.{◌≡◌, [], IfOk, IfErr};
ghost use Rattle.mr_pipe.specs.State.{Stands, counted, fresh_id};
ghost use Rattle.mr_pipe.specs.Piped.{begun_with};

use crate::fault::PipeFault;
use mr_data::Dataset;
use mr_links::LinkId;
use mr_node::{Config, Node};
use mr_node_output::Outs;
use mr_repl::{ReplId, USUAL_BACKLOG};
use std::alloc::Global;

/// A node, the link of its one client, and how many fresh ids were taken. The count stays at its greatest.
#[derive(Drop)]
pub(crate) struct LinkedNode {
    pub(crate) node: Node,
    pub(crate) link: LinkId,
    pub(crate) used: u64,
}

impl LinkedNode {
    /// A node with this dataset, and a client's link of it.
    pub(crate) fn begin(
        alloc: Global,
        id: ReplId,
        dataset: Dataset,
    ) -> Result<LinkedNode, PipeFault>
        ensures stands { IfOk result (λ linked. Stands linked (begun_with id dataset) []) }
        ensures fault { IfErr result (λ e. e ≡ PipeFault.Memory) }
    {
        let Some(config) = Config::new(false, 0, USUAL_BACKLOG) else {
            unreachable!()
        };
        let Ok(mut node) = Node::start(alloc, id, dataset, config) else {
            return Err(PipeFault::Memory);
        };
        let link = node.open()?;
        Ok(LinkedNode {
            node,
            link,
            used: 0,
        })
    }

    /// The fresh id of the next step.
    pub(crate) fn fresh(&self) -> ReplId
        ensures { result ≡ fresh_id self.now.used }
    {
        ReplId::numbered(self.used.saturating_add(1))
    }

    /// Counts the fresh id, where a step took it.
    pub(crate) fn count(&mut self, outs: &Outs)
        ensures { self.new ≡ record self.old { used = counted outs.now.used self.old.used } }
    {
        if outs.used().is_some() {
            self.used = self.used.saturating_add(1);
        }
    }
}
