// A step at the link to the master, and what a node does where its file fails.
ghost use Rattle.std.specs.Prelude.{◌≡◌, false, true, Some, bytes_eq};
ghost use Rattle.mr_replication.specs.State.{name_of};
ghost use Rattle.mr_node_spec.specs.State.{stopped_as};
ghost use Rattle.mr_links.specs.declared.link_id.LinkId.{LinkId};
ghost use Rattle.mr_node_output.specs.Outs.{no_outs};
ghost use Rattle.mr_node_spec.specs.UpstreamRows.{beat, outs_behind};
ghost use Rattle.mr_node.specs.Steps.{MasterStep, step_of};

use crate::fault::NodeFault;
use crate::node::Node;
use crate::step::Outcome;
use mr_links::LinkId;
use mr_node_output::Outs;
use mr_replication::{UpstreamFault, UpstreamStep};

/// The text of a heartbeat.
const BEAT: &[u8] = b"*1\r\n$4\r\nPING\r\n";

impl Node {
    /// Makes a step at the link to the master.
    // its locals are a thousand bytes, which each step at a client's end would clear
    #[inline(never)]
    pub(crate) fn follow(&mut self, link: LinkId, outs: &mut Outs) -> Result<Outcome, NodeFault>
        requires up { self.old.core.up ≡ true }
        requires followed { name_of self.old.follow ≡ Some link }
        requires begun { outs.old ≡ record no_outs { link = Some link } }
        ensures { MasterStep self.old link self.new (step_of outs.new result) }
    {
        let mut told = outs.take_room();
        match self.state.listen(&mut told) {
            Err(UpstreamFault::Memory) => Err(NodeFault::Memory),
            Err(UpstreamFault::Stopped) => Err(NodeFault::Stopped),
            Ok(UpstreamStep::Idle) => {
                outs.apply(told, false);
                Ok(Outcome::Idle)
            }
            Ok(step) => {
                carry(step, told, outs);
                Ok(Outcome::Done)
            }
        }
    }

    /// The append-only file failed: the node stops, and nothing else of it changes. A stopped node stays as it is.
    pub fn file_failed(&mut self)
        ensures stops { self.new ≡ stopped_as self.old }
        ensures down { self.old.core.up ≡ false → self.new ≡ self.old }
    {
        self.state.stop();
    }
}

/// What a step at the link to the master gives out.
fn carry(step: UpstreamStep, told: Vec<u8>, outs: &mut Outs)
    requires { (l : LinkId) × (outs.old ≡ record no_outs { link = Some l }) }
    ensures { (l : LinkId) → outs.old ≡ record no_outs { link = Some l } →
        outs.new ≡ outs_behind step l told.items }
{
    match step {
        UpstreamStep::Idle | UpstreamStep::Announced | UpstreamStep::Continued => {}
        UpstreamStep::Said => outs.tell(told),
        UpstreamStep::Loaded => outs.replace(told),
        UpstreamStep::Applied => {
            let files = !is_beat(told.as_slice());
            outs.apply(told, files);
        }
        UpstreamStep::Left | UpstreamStep::Spoiled => outs.close(),
    }
}

/// Whether this is the text of a heartbeat.
fn is_beat(text: &[u8]) -> bool
    ensures { result ≡ bytes_eq text.now beat }
{
    text == BEAT
}
