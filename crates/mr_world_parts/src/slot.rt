// A node among others.
ghost use Rattle.std.specs.Prelude.{◌≡◌, ◌≢◌, ◌↔◌, ◌+◌, ◌-◌, ◌++◌, [], None, false, length, not, take, IfOk, IsTrue, OnOk, OnErr};
ghost use Rattle.std.specs.Option.{option_map};
ghost use Rattle.std.specs.FinMap.{empty};
ghost use Rattle.mr_node.specs.Calls.{FeedRow, FitsMore, IsClients, IsUnread, OpenRow, TickStep};
ghost use Rattle.mr_node.specs.Steps.{Steps};
ghost use Rattle.mr_node_spec.specs.State.{Agrees, IsTooMuch, shown, stopped_as};
ghost use Rattle.mr_node_spec.specs.Sound.{IsSound};
ghost use Rattle.mr_node_spec.specs.LinkRows.{Opens, closed_at};
ghost use Rattle.law_refinement.specs.Carrying.{begun_slot, filed_by};
ghost use Rattle.mr_world_parts.specs.AtNode.{DialsBy, IsFollowing, IsLoaded};

use crate::entry::front_of;
use crate::restart::Restart;
use mr_data::{Dataset, Given};
use mr_groups::{Loaded, load_groups};
use mr_links::LinkId;
use mr_node::{Config, Node, NodeFault, Role, Step};
use mr_node_output::Outs;
use mr_repl::ReplId;
use std::alloc::{AllocError, Global};
use std::hash::RandomState;
use std::marker::Model;

/// A node, its file, the role in which it starts, and the link that it dialled last.
#[derive(Drop)]
pub struct Slot {
    node: Node,
    file: Vec<u8>,
    as_master: bool,
    dialled: usize,
}

impl Model for Slot {
    ghost use Rattle.law_refinement.specs.State.{Slot as SlotState};
    ghost use Rattle.mr_world_parts.specs.Codes.{slot_code};

    ghost Value = { SlotState };

    ghost coded = { slot_code };

    ghost view = { λ s. record { node = s.node; file = s.file.items; as_master = s.as_master; dialled = s.dialled } };
}

impl Slot {
    /// A node that begins, with an empty dataset and an empty file.
    pub fn start(
        alloc: Global,
        seed: RandomState,
        id: ReplId,
        config: Config,
    ) -> Result<Slot, AllocError>
        ensures { IfOk result (λ s.
            s ≡ begun_slot config.replica config.port config.backlog id empty []) }
    {
        let held = Dataset::new(alloc, seed);
        let Ok(node) = Node::start(alloc, id, held, config) else {
            return Err(AllocError);
        };
        Ok(Slot {
            node,
            file: Vec::new(alloc),
            as_master: !config.replica,
            dialled: 0,
        })
    }

    /// A node that begins with what a file holds, as far as that makes a dataset by groups, and with so much of the file.
    pub fn load(
        alloc: Global,
        seed: RandomState,
        as_master: bool,
        restart: &Restart<'_>,
    ) -> Result<Slot, AllocError>
        ensures { IfOk result (λ s. IsLoaded restart.now.kept.now (not as_master)
            restart.now.config.port restart.now.config.backlog restart.now.id s) }
    {
        let Loaded { dataset, used } = load_groups(alloc, seed, restart.kept)?;
        let file = Vec::from_slice(alloc, front_of(restart.kept, used))?;
        let mut anew = restart.config;
        anew.replica = !as_master;
        let Ok(node) = Node::start(alloc, restart.id, dataset, anew) else {
            return Err(AllocError);
        };
        Ok(Slot {
            node,
            file,
            as_master: !anew.replica,
            dialled: 0,
        })
    }

    /// Whether it started as a master.
    pub fn as_master(&self) -> bool
        ensures { result ≡ self.now.as_master }
    {
        self.as_master
    }

    /// Its file.
    pub fn file(&self) -> &[u8]
        ensures { result.now ≡ self.now.file }
    {
        self.file.as_slice()
    }

    /// The node.
    pub fn node(&self) -> &Node
        ensures { result.now ≡ self.now.node }
    {
        &self.node
    }

    /// Whether the node runs.
    pub fn is_up(&self) -> bool
        ensures { result ≡ self.now.node.core.up }
    {
        self.shows().is_some()
    }

    /// Opens the node's end of a client's link.
    pub fn open(&mut self) -> Result<LinkId, NodeFault>
        ensures row { OpenRow self.old.node self.new.node result }
        ensures rest { self.new ≡ record self.old { node = self.new.node } }
    {
        self.node.open()
    }

    /// Undoes `open`, of the end that was opened last, where nothing was fed there: the node is as if it had never been opened, but that a
    /// node which was stopped since stays so.
    pub fn take_back(&mut self, name: LinkId)
        requires open { Agrees self.old.node name [] }
        requires last { self.old.node.ends.opened ≡ name.generation + 1 }
        ensures row { Opens self.new.node name self.old.node }
        ensures rest { self.new ≡ record self.old { node = self.new.node } }
    {
        self.node.take_back(name);
    }

    /// Whether the node is a replica that follows nobody, stopped or not.
    pub fn waits(&self) -> bool
        ensures { IsTrue result ↔
            ((self.now.node.core.master ≡ false) × (self.now.node.follow ≡ None)) }
    {
        self.node.waits()
    }

    /// Opens the node's own end of a link, which has this number, and dials its master by it.
    pub fn dial(&mut self, seed: RandomState, l: usize) -> Result<LinkId, NodeFault>
        requires replica { self.old.node.core.master ≡ false }
        requires alone { self.old.node.follow ≡ None }
        ensures row { DialsBy self.old.node self.new.node result }
        ensures sound { IsSound self.new.node }
        ensures ok { OnOk result (self.new ≡
            record self.old { node = self.new.node; dialled = l }) }
        ensures err { OnErr result (self.new ≡ record self.old { node = self.new.node }) }
    {
        let dialled = self.node.dial(seed);
        self.node.sound();
        match dialled {
            Ok((name, outs)) => {
                self.node.reuse(outs);
                self.dialled = l;
                Ok(name)
            }
            Err(fault) => Err(fault),
        }
    }

    /// Whether so many bytes more are too many for what is unread on a link.
    pub fn is_too_much(&self, name: LinkId, count: usize) -> bool
        ensures yes { IsTrue result → IsTooMuch self.now.node name count }
        ensures no { (result ≡ false) → FitsMore self.now.node name count }
    {
        match self.node.room(name) {
            Some(room) => count > room,
            None => false,
        }
    }

    /// Bytes come on a link.
    pub fn feed(&mut self, name: LinkId, bytes: &[u8]) -> Result<(), NodeFault>
        ensures row { FeedRow self.old.node name bytes.now (length bytes.now) self.new.node result }
        ensures sound { IsSound self.new.node }
        ensures rest { self.new ≡ record self.old { node = self.new.node } }
    {
        let fed = self.node.feed(name, bytes);
        // its clause says what a node keeps
        self.node.sound();
        fed
    }

    /// Whether the node follows by the link that it dialled last, which is this, stopped or not.
    pub fn follows_by(&self, l: usize) -> bool
        ensures { IsTrue result ↔ IsFollowing self.now l }
    {
        // its clause says that a master follows nobody
        self.node.sound();
        self.dialled == l && matches!(self.node.role(), Role::Sync | Role::Connected)
    }

    /// Closes the node's end of a link.
    pub fn close(&mut self, name: LinkId)
        ensures { self.new ≡ record self.old { node = closed_at name self.old.node } }
    {
        self.node.close(name);
    }

    /// The id and the offset, none where the node is stopped.
    pub fn shows(&self) -> Option<(ReplId, u64)>
        ensures { result ≡ shown self.now.node.core }
    {
        self.node.shows()
    }

    /// The link that the node dialled last.
    pub(crate) fn dialled(&self) -> usize
        ensures { result ≡ self.now.dialled }
    {
        self.dialled
    }

    /// Time passes at the node.
    pub fn tick(&mut self, given: Given) -> Result<Outs, NodeFault>
        ensures row { TickStep self.old.node given.now self.new.node result }
        ensures sound { IsSound self.new.node }
        ensures rest { self.new ≡ record self.old { node = self.new.node } }
    {
        let ticked = self.node.tick(given);
        self.node.sound();
        ticked
    }

    /// The node makes a step on a link.
    pub fn step(&mut self, name: LinkId, given: Given, fresh: ReplId) -> Result<Step, NodeFault>
        ensures row { Steps self.old.node name given fresh self.new.node result }
        ensures sound { IsSound self.new.node }
        ensures rest { self.new ≡ record self.old { node = self.new.node } }
    {
        let stepped = self.node.step(name, given, fresh);
        self.node.sound();
        stepped
    }

    /// Whether the link is a client's, and open.
    pub(crate) fn is_client(&self, name: LinkId) -> bool
        ensures { IsTrue result ↔ IsClients self.now.node name }
    {
        self.node.is_client(name)
    }

    /// How many bytes are unread on a link.
    pub fn unread(&self, name: LinkId) -> Option<usize>
        ensures { IsUnread self.now.node name result }
    {
        self.node.unread(name)
    }

    /// How many bytes are unread at the link to its master, which has this name; none where it follows nobody.
    pub fn unread_of_master(&self, name: LinkId) -> Option<usize>
        ensures alone { self.now.node.follow ≡ None → result ≡ None }
        ensures there { self.now.node.follow ≢ None → IsUnread self.now.node name result }
    {
        if !self.follows_by(self.dialled) {
            return None;
        }
        self.unread(name)
    }

    /// The node stops.
    pub fn fail(&mut self)
        ensures { self.new ≡ record self.old { node = stopped_as self.old.node } }
    {
        self.node.file_failed();
    }

    /// Puts bytes behind the file.
    pub(crate) fn append(&mut self, bytes: &[u8]) -> Result<(), AllocError>
        ensures ok { OnOk result (self.new ≡
            record self.old { file = self.old.file ++ bytes.now }) }
        ensures err { OnErr result (self.new ≡ self.old) }
        ensures some { OnErr result (bytes.now ≢ []) }
    {
        self.file.extend_from_slice(bytes)?;
        Ok(())
    }

    /// Takes the last bytes of the file away, so many.
    pub(crate) fn shorten(&mut self, count: usize)
        ensures { self.new ≡
            record self.old { file = take (length self.old.file - count) self.old.file } }
    {
        let kept = self.file.len().saturating_sub(count);
        self.file.truncate(kept);
    }

    /// Puts other bytes in the file's place, where there are any.
    pub(crate) fn replace(&mut self, bytes: Option<Vec<u8>>)
        ensures { self.new ≡
            record self.old { file = filed_by (option_map (λ b. b.items) bytes) self.old.file } }
    {
        if let Some(bytes) = bytes {
            self.file = bytes;
        }
    }
}
