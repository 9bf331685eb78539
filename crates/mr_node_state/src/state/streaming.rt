// The stream and the dataset, as effects come from clients, from the clock or from the master.
ghost use Rattle.std.specs.Prelude.{◌≡◌, ◌≢◌, ◌≤◌, ◌+◌, [], true, false, length, OnOk, OnErr, IsOk, IsSome};
ghost use Rattle.std.specs.List.{AllByRecursion};
ghost use Rattle.mr_effect.specs.Spelling.{texts};
ghost use Rattle.mr_keyspace.specs.Changes.{NeedsNoMemory};
ghost use Rattle.mr_repl.specs.Backlog.{offset_limit};
ghost use Rattle.mr_node_links.specs.State.{end_at};
ghost use Rattle.mr_node_spec.specs.State.{stopped_as};
ghost use Rattle.mr_node_spec.specs.UpstreamRows.{ends_behind};
ghost use Rattle.mr_node_state.specs.Parts.{Commits, Holds, Leads, Spends, marked_at, streams_on};
ghost use Rattle.mr_node_state.specs.Listening.{Heard};

use crate::spent::Spent;
use crate::state::State;
use mr_data::Effect;
use mr_links::LinkId;
use mr_node_links::Ends;
use mr_replication::{UpstreamFault, UpstreamStep};

impl State {
    /// Applies effects, and puts their texts behind the stream. Where memory runs out the dataset is spent, and the node stops.
    pub fn commit(&mut self, effects: Vec<Effect<'static>>, told: &[u8]) -> Result<(), Spent>
        requires master { effects.items ≢ [] → self.old.core.master ≡ true }
        requires leads { Leads effects.items self.old.core.held }
        requires told { told.now ≡ texts effects.items }
        requires within { self.old.core.lineage.stream.offset + length (texts effects.items) ≤
            offset_limit }
        ensures ok { OnOk result (Commits self.old effects.entry.items self.new) }
        ensures spent { OnErr result (Spends self.old effects.entry.items self.new) }
        // Effects that take no memory don't lack it.
        ensures light { AllByRecursion NeedsNoMemory effects.entry.items → IsOk result }
    {
        self.apply(effects)?;
        self.grow(told);
        Ok(())
    }

    /// Applies effects; the stream stays. Where memory runs out the dataset is spent, and the node stops.
    pub fn apply(&mut self, effects: Vec<Effect<'static>>) -> Result<(), Spent>
        requires leads { Leads effects.items self.old.core.held }
        ensures ok { OnOk result (Holds self.old effects.entry.items self.new) }
        ensures spent { OnErr result (Spends self.old effects.entry.items self.new) }
        ensures light { AllByRecursion NeedsNoMemory effects.entry.items → IsOk result }
    {
        if effects.is_empty() {
            return Ok(());
        }
        if self.held.apply_all(effects).is_err() {
            self.up = false;
            return Err(Spent);
        }
        Ok(())
    }

    /// Texts of effects that were applied come behind the stream.
    pub fn grow(&mut self, told: &[u8])
        requires master { told.now ≢ [] → self.old.core.master ≡ true }
        requires within { self.old.core.lineage.stream.offset + length told.now ≤ offset_limit }
        ensures { self.new ≡ streams_on told.now self.old }
    {
        if told.is_empty() {
            // its clause bounds what the backlog holds: growing by nothing changes nothing
            let _ = self.course.lineage().stream().end();
            return;
        }
        self.held.forget_copy();
        self.course.grow(told);
    }

    /// Makes a step at the link to the master. What is to be sent, what was applied, or what rebuilds a snapshot is put into `out`.
    pub fn listen(&mut self, out: &mut Vec<u8>) -> Result<UpstreamStep, UpstreamFault>
        requires follows { IsSome self.old.follow }
        requires empty { out.old.items ≡ [] }
        ensures { Heard self.old result self.new out.new.items }
    {
        let Some(name) = self.course.name() else {
            unreachable!()
        };
        match self.held.listen(&mut self.course, out) {
            Err(UpstreamFault::Memory) => Err(UpstreamFault::Memory),
            Err(UpstreamFault::Stopped) => {
                self.up = false;
                Err(UpstreamFault::Stopped)
            }
            Ok(step) => {
                settle(&mut self.ends, step, name);
                Ok(step)
            }
        }
    }

    /// The moment from which the next heartbeat or acknowledgement is counted is this.
    pub fn set_mark(&mut self, now: i64)
        ensures { self.new ≡ marked_at now self.old }
    {
        self.mark = Some(now);
    }

    /// The node stops, and nothing else of it changes. A stopped node stays as it is.
    pub fn stop(&mut self)
        ensures stops { self.new ≡ stopped_as self.old }
        ensures down { self.old.core.up ≡ false → self.new ≡ self.old }
    {
        self.up = false;
    }
}

/// The end of the link to the master is closed where the master is left.
fn settle(ends: &mut Ends, step: UpstreamStep, name: LinkId)
    requires { IsSome (end_at ends.old name) }
    ensures { ends.new ≡ ends_behind step name ends.old }
{
    match step {
        UpstreamStep::Left | UpstreamStep::Spoiled => ends.shut(name),
        UpstreamStep::Idle
        | UpstreamStep::Said
        | UpstreamStep::Announced
        | UpstreamStep::Continued
        | UpstreamStep::Loaded
        | UpstreamStep::Applied => {}
    }
}
