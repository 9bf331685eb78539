// A World.
ghost use Rattle.std.specs.Prelude.{◌≡◌, slice_get};
ghost use Rattle.law_refinement.specs.Worlds.{no_world, IsWorld};
ghost use Rattle.mr_world.specs.Calls.{BreakCall, ClientCall, CommandCall, LeaveCall, StartCall, TakeCall};
ghost use Rattle.mr_world.specs.Accepting.{AcceptCall, ConnectCall};
ghost use Rattle.mr_world.specs.Connecting.{DialCall};
ghost use Rattle.mr_world.specs.Linking.{DeliverCall, DropCall};
ghost use Rattle.mr_world.specs.Running.{is_between_nodes};
ghost use Rattle.mr_world.specs.Hearing.{ListenCall};
ghost use Rattle.mr_world.specs.Restarting.{RestartCall};
ghost use Rattle.mr_world.specs.Stepping.{TickCall};
ghost use Rattle.mr_world.specs.Serving.{StepCall};
ghost use Rattle.mr_world.specs.Following.{FollowCall};

use crate::parts::Parts;
use crate::refusal::Refusal;
use mr_data::Given;
use mr_node::Config;
use mr_repl::ReplId;
use mr_world_parts::Restart;
use std::alloc::Global;
use std::hash::RandomState;
use std::marker::Model;

/// Nodes with their files, the links between them and to clients, and what is known of each id.
#[derive(Drop)]
pub struct World {
    alloc: Global,
    seed: RandomState,
    pub(crate) parts: Parts,
}

impl Model for World {
    ghost use Rattle.law_refinement.specs.State.{WorldState};
    ghost use Rattle.law_refinement.specs.Worlds.{IsWorld};
    ghost use Rattle.mr_world_parts.specs.Codes.{world_code};

    ghost Value = { WorldState };

    ghost coded = { world_code };

    ghost view = { λ w. w.parts };

    ghost invariant = { λ w. IsWorld w.parts };
}

impl World {
    /// A world in which nothing has begun. Look-ups in its datasets go by a hash with this seed, which changes no answer.
    pub fn new(alloc: Global, seed: RandomState) -> World
        ensures { result ≡ no_world }
    {
        World {
            alloc,
            seed,
            parts: Parts::new(alloc),
        }
    }

    /// A node starts under an id that was never drawn, with an empty dataset and an empty file.
    pub fn start(&mut self, id: ReplId, config: Config) -> Result<(), Refusal>
        ensures { StartCall self.old id config.replica config.port config.backlog self.new result }
    {
        // its clause says that it is an id
        let _ = id.bytes();
        self.parts.start(self.alloc, self.seed, id, config)
    }

    /// A client's link to a node comes, behind all others. At a stopped node nothing happens.
    pub fn client(&mut self, n: usize) -> Result<(), Refusal>
        ensures { ClientCall self.old n self.new result }
    {
        self.parts.client(self.alloc, n)
    }

    /// A client sends bytes on its link.
    pub fn command(&mut self, l: usize, bytes: &[u8]) -> Result<(), Refusal>
        ensures { CommandCall self.old l bytes.now self.new result }
    {
        self.parts.command(l, bytes)
    }

    /// A client takes the next bytes of those that it was sent, so many.
    pub fn deliver_to_client(&mut self, l: usize, count: usize) -> Result<(), Refusal>
        ensures { TakeCall self.old l count self.new result }
    {
        self.parts.deliver_to_client(l, count)
    }

    /// A client closes its end, and loses what it hasn't taken.
    pub fn break_client(&mut self, l: usize) -> Result<(), Refusal>
        ensures { LeaveCall self.old l self.new result }
    {
        self.parts.break_client(l)
    }

    /// The server's end of a link closes, and loses what it hasn't taken. At a stopped node nothing happens.
    pub fn break_server(&mut self, l: usize) -> Result<(), Refusal>
        ensures { BreakCall self.old l self.new result }
    {
        self.parts.break_server(l)
    }

    /// The node that serves a link takes the next bytes of those that were sent there, so many. At a stopped node nothing happens.
    pub fn deliver_to_server(&mut self, l: usize, count: usize) -> Result<(), Refusal>
        ensures { DeliverCall self.old l count self.new result }
    {
        self.parts.deliver_to_server(l, count)
    }

    /// The node that follows by a link takes the next bytes of those that the server sent it, so many. A client takes its own by
    /// `deliver_to_client`; a node that follows by it no more has no end of it. At a stopped node nothing happens.
    pub fn deliver_to_dialler(&mut self, l: usize, count: usize) -> Result<(), Refusal>
        ensures { ListenCall self.old l count self.new result }
    {
        self.parts.deliver_to_dialler(l, count)
    }

    /// Time passes at a node. At a stopped node nothing happens; where memory runs out for what the node gives out, it stops.
    pub fn tick(&mut self, n: usize, given: Given) -> Result<(), Refusal>
        ensures { TickCall self.old n given.now self.new result }
    {
        self.parts.tick(n, given)
    }

    /// Its clause says what each World keeps.
    pub(crate) fn sound(&self)
        ensures { IsWorld self.now }
    {
        let _ = &self.parts;
    }

    /// Whether a node asked for the link, and not a client.
    pub fn is_between_nodes(&self, l: usize) -> bool
        ensures { result ≡ is_between_nodes (slice_get self.now.links l) }
    {
        self.parts.is_between_nodes(l)
    }

    /// The node that serves a link makes a step there: it uses what stands at the front of its unread bytes. The id is for a promotion, and must
    /// be fresh. At a stopped node nothing happens; where memory runs out for what the node gives out, it stops.
    pub fn step_server(&mut self, l: usize, given: Given, fresh: ReplId) -> Result<(), Refusal>
        ensures { StepCall self.old l given fresh self.new result }
    {
        self.parts.step_server(l, given, fresh)
    }

    /// The node that follows by a link closes its end. That of a client, or of a node that follows by it no more, isn't one. At a stopped node
    /// nothing happens.
    pub fn break_dialler(&mut self, l: usize) -> Result<(), Refusal>
        ensures { DropCall self.old l self.new result }
    {
        self.parts.break_dialler(l)
    }

    /// A node, stopped or not, begins anew under an id that was never drawn, in the role in which it started, with as much of these bytes
    /// as makes a dataset. Its ends are closed. Of the config its port and its backlog are taken.
    pub fn restart(
        &mut self,
        n: usize,
        kept: &[u8],
        id: ReplId,
        config: Config,
    ) -> Result<(), Refusal>
        ensures { RestartCall self.old n kept.now id config.port config.backlog self.new result }
    {
        // its clause says that it is an id
        let _ = id.bytes();
        let restart = Restart { kept, id, config };
        self.parts.restart(self.alloc, self.seed, n, &restart)
    }

    /// The node that follows by a link makes a step there, with a fresh id that was never drawn. Where memory runs out for what the node
    /// gives out, it stops. Where the node itself lacks memory, it may have taken what is there of a snapshot: what it shows, its file, its
    /// links and the book stay. At a stopped node nothing happens.
    pub fn step_dialler(&mut self, l: usize, given: Given, fresh: ReplId) -> Result<(), Refusal>
        ensures { FollowCall self.old l fresh self.new result }
    {
        self.parts.step_dialler(self.alloc, l, given, fresh)
    }

    /// A replica that follows nobody dials a node, whichever it was told to follow. Where either is stopped nothing happens. Where memory is lacking,
    /// for whichever end, nothing has changed.
    pub fn dial(&mut self, n: usize, m: usize) -> Result<(), Refusal>
        ensures { DialCall self.old n m self.new result }
    {
        self.parts.dial(self.alloc, self.seed, n, m)
    }

    /// A replica that follows nobody opens its end of a link, which comes behind all others and waits for a node to accept it. At a stopped node
    /// nothing happens.
    pub fn connect(&mut self, n: usize) -> Result<(), Refusal>
        ensures { ConnectCall self.old n self.new result }
    {
        self.parts.connect(self.alloc, self.seed, n)
    }

    /// A node accepts a link that waits, and serves it from now on. Which node dialled, and whether it follows by the link still, doesn't matter. At a
    /// stopped node nothing happens, and the link waits on.
    pub fn accept(&mut self, l: usize, m: usize) -> Result<(), Refusal>
        ensures { AcceptCall self.old l m self.new result }
    {
        self.parts.accept(l, m)
    }
}
