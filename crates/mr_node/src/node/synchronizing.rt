// PSYNC, on a master.
ghost use Rattle.std.specs.Prelude.{◌≡◌, ◌≤◌, ◌+◌, ◌++◌, ℕ, ℤ, pos, List, [], true, OnOk, Some, length};
ghost use Rattle.mr_data.specs.declared.given.Given.{Given};
ghost use Rattle.mr_cmd_node.specs.declared.node_ask.NodeAsk.TheVariants as node;
ghost use Rattle.mr_node_links.specs.Parts.{IsClient};
ghost use Rattle.mr_node_output.specs.Outs.{no_outs};
ghost use Rattle.mr_repl.specs.Backlog.{first_of, bytes_from, offset_limit};
ghost use Rattle.mr_peer_lines.specs.Written.{reply_line, length_line};
ghost use Rattle.mr_peer_lines.specs.declared.psync.PsyncReply.TheVariants.{FullResync, Continue};
ghost use Rattle.mr_node_spec.specs.Growing.{Remakes, rebuilt};
ghost use Rattle.mr_data.specs.Rebuilding.{rebuilding};
ghost use Rattle.mr_node.specs.Reading.{Wishes};
ghost use Rattle.mr_node.specs.Steps.{ClientStep, IsAt, step_of};
ghost use Rattle.mr_node.specs.Parts.{Offers};

use crate::fault::NodeFault;
use crate::node::Node;
use crate::request::StreamWish;
use crate::step::Outcome;
use mr_links::LinkId;
use mr_node_output::Outs;
use mr_peer_lines::write_continue;
use mr_repl::{PsyncAnswer, decide};
use std::alloc::AllocError;

impl Node {
    /// Answers PSYNC on a master: all that stands ready is sent at once, and the link is a replica's from then on.
    pub(crate) fn synchronize(
        &mut self,
        link: LinkId,
        used: usize,
        wish: &StreamWish,
        outs: &mut Outs,
    ) -> Result<Outcome, NodeFault>
        requires client { IsClient self.old.ends link used }
        requires begun { outs.old ≡ record no_outs { link = Some link } }
        requires master { self.old.core.master ≡ true }
        ensures { (u : List ℕ) (given : Given) (fresh : List ℕ) → IsAt self.old link u →
            Wishes u used (node.Psync wish.now.id.items wish.now.wanted) →
            ClientStep self.old link u given fresh self.new (step_of outs.new result) }
    {
        if self
            .put_stream(wish.id.as_slice(), wish.wanted(), outs)
            .is_err()
        {
            return Err(NodeFault::Memory);
        }
        if self.state.stream_to(link, used).is_err() {
            return Err(NodeFault::Memory);
        }
        Ok(Outcome::Done)
    }

    /// The answer to PSYNC: the stream from the byte that is wanted, where it may be continued there, and else the whole dataset.
    fn put_stream(&mut self, id: &[u8], wanted: i64, outs: &mut Outs) -> Result<(), AllocError>
        requires { outs.old.reply ≡ [] }
        ensures offers { OnOk result
            (Offers self.old.core.lineage self.old.core.held id.now wanted outs.old outs.new) }
        ensures same { self.new ≡ self.old }
    {
        match decide(id, wanted, &self.state.lineage().standing()) {
            PsyncAnswer::Continue(from) => self.put_tail(from, outs),
            PsyncAnswer::Full => self.put_dataset(outs),
        }
    }

    /// The line that says so, and the stream from this byte on.
    fn put_tail(&self, from: u64, outs: &mut Outs) -> Result<(), AllocError>
        requires empty { outs.old.reply ≡ [] }
        requires held { first_of self.now.core.lineage.stream ≤ from }
        requires within { from ≤ self.now.core.lineage.stream.offset + 1 }
        ensures { OnOk result (outs.new ≡
            record outs.old {
              reply = reply_line (Continue self.now.core.lineage.id) ++
                  bytes_from self.now.core.lineage.stream from;
            }) }
    {
        let lineage = self.state.lineage();
        let mut line = Vec::new(self.alloc);
        write_continue(lineage.id(), &mut line)?;
        outs.say_bytes(line.as_slice())?;
        let tail = lineage.stream().tail(self.alloc, from)?;
        outs.say_bytes(tail.as_slice())
    }

    /// The line that says so, and what rebuilds the dataset behind its length. Who asks at the same offset shares the text.
    fn put_dataset(&mut self, outs: &mut Outs) -> Result<(), AllocError>
        ensures remakes { OnOk result (Remakes (rebuilding self.old.core.held) self.old.core.held) }
        ensures counted { OnOk result (length (rebuilt self.old.core.held) ≤ offset_limit) }
        ensures text { OnOk result (outs.new ≡ record outs.old {
          reply = reply_line
              (FullResync self.old.core.lineage.id self.old.core.lineage.stream.offset) ++
              (length_line (length (rebuilt self.old.core.held)) ++ rebuilt self.old.core.held);
        }) }
        ensures same { self.new ≡ self.old }
    {
        let text = self.state.copy()?;
        outs.say_shared(text);
        Ok(())
    }
}
