// What the loop holds: its connections, and what waits for the file.
ghost use Rattle.std.specs.Prelude.{◌≡◌, ◌≤◌, ◌||◌, [], length, false, true, IfOk, IfSome, IfNone, OnOk, OnErr, None, Some, option_copied};
ghost use Rattle.std.specs.FinMap as map;
ghost use Rattle.mr_connections.specs.State.{HasLink, NoneDone, NoneHas, begun, changed, parted, sent, wrote};
ghost use Rattle.mr_loop.specs.Lacking.{no_lack};
ghost use Rattle.mr_loop.specs.Stage.{LoopState, committed, connection_at, filed, halting, lacking, losing, with_connections};

use crate::lacking::{Asked, Lacked};
use mr_connections::{Connection, Connections, PIECE, Patience};
use mr_links::LinkId;
use mr_node::Role;
use std::alloc::{AllocError, Global};
use std::hash::RandomState;
use std::marker::Model;
use std::mem;
use std::rc::Rc;

/// A turn waits so many milliseconds at most.
const LONGEST_WAIT: u64 = 100;

/// More room for what waits for the file isn't kept: as many bytes as a turn reads of one connection.
const MOST_ROOM: usize = 4_194_304;

/// The connections of a loop, and the texts of groups that aren't in its file yet.
#[derive(Drop)]
pub struct Links {
    alloc: Global,
    connections: Connections,
    batch: Vec<u8>,
    /// A client asked that the program end.
    halted: bool,
    /// The last turn met a limit, so that the next doesn't wait.
    hurries: bool,
    /// How often memory ran out.
    lacked: Lacked,
    /// Room for what one read gives.
    piece: Vec<u8>,
    /// For the datasets of snapshots.
    seed: RandomState,
    /// When the master may be dialled again.
    patience: Patience,
}

impl Model for Links {
    ghost use Rattle.mr_loop.specs.Stage.{LoopState, loop_code};

    ghost Value = { LoopState };

    ghost coded = { loop_code };

    ghost view = { λ l. record { connections = l.connections; batch = l.batch.items; halted = l.halted; hurries = l.hurries; lacked = l.lacked } };
}

impl Links {
    /// No connections. The datasets of snapshots that are loaded have this seed, which changes no answer.
    pub fn new(alloc: Global, seed: RandomState) -> Result<Links, AllocError>
        ensures { IfOk result (λ links.
            links ≡ record {
              connections = map.empty;
              batch = [];
              halted = false;
              hurries = false;
              lacked = no_lack;
            }) }
    {
        let piece = Vec::from_elem(alloc, 0u8, PIECE)?;
        Ok(Links {
            alloc,
            connections: Connections::new(alloc),
            batch: Vec::new(alloc),
            halted: false,
            hurries: false,
            lacked: Lacked::none(),
            piece,
            seed,
            patience: Patience::new(),
        })
    }

    /// How many milliseconds the next turn waits at most.
    pub fn longest_wait(&self) -> u64
        ensures hurries { self.now.hurries ≡ true → result ≡ 0 }
        ensures waits { self.now.hurries ≡ false → result ≡ 100 }
    {
        if self.hurries { 0 } else { LONGEST_WAIT }
    }

    /// How often memory ran out: for a link that a peer opened or that leads to the master, for bytes that came, a step, time that
    /// passes, or what the node gave out.
    pub fn lacked(&self) -> Lacked
        ensures { result ≡ self.now.lacked }
    {
        self.lacked
    }

    /// Whether a client said SHUTDOWN: no turn may begin any more.
    pub fn halted(&self) -> bool
        ensures { result ≡ self.now.halted }
    {
        self.halted
    }
}

// Of a turn.
impl Links {
    /// Takes the room for what one read gives.
    pub(crate) fn take_piece(&mut self) -> Vec<u8>
        ensures { self.new ≡ self.old }
    {
        mem::replace(&mut self.piece, Vec::new(self.alloc))
    }

    /// Gives that room back.
    pub(crate) fn put_piece(&mut self, piece: Vec<u8>)
        ensures { self.new ≡ self.old }
    {
        self.piece = piece;
    }

    /// Says whether the next turn is to wait for nothing.
    pub(crate) fn set_hurries(&mut self, hurries: bool)
        ensures { self.new ≡ record self.old { hurries = hurries } }
    {
        self.hurries = hurries;
    }

    /// A client asked that the program end.
    pub(crate) fn halt(&mut self)
        ensures { self.new ≡ halting self.old }
    {
        self.halted = true;
    }

    /// Memory ran out, and no link is closed for it.
    pub(crate) fn lack(&mut self)
        ensures { self.new ≡ lacking self.old }
    {
        self.lacked.count();
    }

    /// Memory ran out as this was asked for, and a link is closed for it.
    pub(crate) fn lose(&mut self, asked: Asked)
        ensures { self.new ≡ losing asked self.old }
    {
        self.lacked.count_link(asked);
    }

    /// For the datasets of snapshots.
    pub(crate) fn seed(&self) -> RandomState {
        self.seed
    }

    /// Whether the master may be dialled at this moment: not so soon again, unless the clock stands still.
    pub(crate) fn may_dial(&self, now: i64) -> bool {
        self.patience.may_dial(now)
    }

    /// The master is dialled at this moment.
    pub(crate) fn note_dial(&mut self, now: i64)
        ensures { self.new ≡ self.old }
    {
        self.patience.note(now);
    }

    /// The node has this role. Where it is in its master's stream, that is dialled again soon once it breaks.
    pub(crate) fn note_role(&mut self, role: Role)
        ensures { self.new ≡ self.old }
    {
        match role {
            Role::Connected => self.patience.trust(),
            Role::Master | Role::Connect | Role::Sync => {}
        }
    }

    /// Another master is to be followed: it may be dialled at once.
    pub(crate) fn forget_dial(&mut self)
        ensures { self.new ≡ self.old }
    {
        self.patience = Patience::new();
    }
}

// What waits for the file.
impl Links {
    /// The bytes that wait for the file.
    pub(crate) fn batch(&self) -> &[u8]
        ensures { result.now ≡ self.now.batch }
    {
        self.batch.as_slice()
    }

    /// All of it is in the file. Much room is given back.
    pub(crate) fn clear_batch(&mut self)
        ensures { self.new ≡ committed self.old }
    {
        if self.batch.capacity() > MOST_ROOM {
            self.batch = Vec::new(self.alloc);
        } else {
            self.batch.clear();
        }
    }

    /// Puts texts behind what waits for the file.
    pub(crate) fn file(&mut self, texts: &[u8]) -> Result<(), AllocError>
        ensures ok { OnOk result (self.new ≡ filed texts.now self.old) }
        ensures err { OnErr result (self.new ≡ lacking self.old) }
    {
        match self.batch.extend_from_slice(texts) {
            Ok(()) => Ok(()),
            Err(refused) => {
                self.lack();
                Err(refused)
            }
        }
    }

    /// As `file`, of texts that aren't copied where nothing waits: they change places with the room of what waits, and what stands in
    /// `texts` then says nothing.
    pub(crate) fn file_whole(&mut self, texts: &mut Vec<u8>) -> Result<(), AllocError>
        ensures ok { OnOk result (self.new ≡ filed texts.old.items self.old) }
        ensures err { OnErr result (self.new ≡ lacking self.old) }
    {
        if !self.batch.is_empty() {
            return self.file(texts.as_slice());
        }
        mem::swap(&mut self.batch, texts);
        Ok(())
    }
}

// The connections.
impl Links {
    /// The connection under the name of this socket, if there is one: with its link of the node, until that has closed its end.
    pub fn connection(&self, socket: LinkId) -> Option<&Connection>
        ensures { option_copied result ≡ connection_at self.now socket }
    {
        self.connections.get(socket)
    }

    /// How many connections there are.
    pub(crate) fn len(&self) -> usize {
        self.connections.len()
    }

    /// A connection begins. None does where memory runs out.
    pub(crate) fn join(&mut self, socket: LinkId, link: LinkId) -> Result<(), AllocError>
        ensures fresh { OnOk result (connection_at self.old socket ≡ None) }
        ensures joined { OnOk result (self.new ≡
            record self.old { connections = map.insert self.old.connections socket (begun link) }) }
        ensures err { OnErr result (self.new ≡ self.old) }
    {
        self.connections.join(socket, link)
    }

    /// Takes a connection out.
    pub(crate) fn remove(&mut self, socket: LinkId)
        ensures { self.new ≡
            record self.old { connections = map.remove self.old.connections socket } }
    {
        self.connections.remove(socket);
    }

    /// The node's end of the link is closed: what waits on its connection is still written.
    pub(crate) fn part(&mut self, link: LinkId)
        ensures { self.new ≡ with_connections (parted link) self.old }
    {
        self.connections.part(link);
    }

    /// A connection whose end the node has closed, and on which nothing waits, if there is one.
    pub(crate) fn next_done(&self) -> Option<LinkId>
        ensures some { IfSome result (λ socket.
            connection_at self.now socket ≡ Some (record { link = None; waiting = [] })) }
        ensures none { IfNone result (NoneDone self.now.connections) }
    {
        self.connections.next_done()
    }

    /// Puts bytes behind what waits on the connection with this link.
    pub(crate) fn send(&mut self, link: LinkId, bytes: &[u8]) -> Result<(), AllocError>
        ensures ok { OnOk result (self.new ≡ with_connections (sent link bytes.now) self.old) }
        ensures err { OnErr result (self.new ≡ lacking self.old) }
    {
        match self.connections.send(link, bytes) {
            Ok(()) => Ok(()),
            Err(refused) => {
                self.lack();
                Err(refused)
            }
        }
    }

    /// As `send`, of bytes that aren't copied where nothing waits there, as `file_whole` has it.
    pub(crate) fn send_whole(&mut self, link: LinkId, bytes: &mut Vec<u8>) -> Result<(), AllocError>
        ensures ok { OnOk result (self.new ≡
            with_connections (sent link bytes.old.items) self.old) }
        ensures err { OnErr result (self.new ≡ lacking self.old) }
    {
        match self.connections.send_whole(link, bytes) {
            Ok(()) => Ok(()),
            Err(refused) => {
                self.lack();
                Err(refused)
            }
        }
    }

    /// As `send`, of a text that is shared with others and isn't copied.
    pub(crate) fn send_shared(&mut self, link: LinkId, text: Rc<Vec<u8>>) -> Result<(), AllocError>
        ensures ok { OnOk result (self.new ≡
            with_connections (sent link text.value.items) self.old) }
        ensures err { OnErr result (self.new ≡ lacking self.old) }
    {
        match self.connections.send_shared(link, text) {
            Ok(()) => Ok(()),
            Err(refused) => {
                self.lack();
                Err(refused)
            }
        }
    }

    /// So many bytes of what waits on a connection were moved.
    pub(crate) fn wrote(&mut self, socket: LinkId, count: usize)
        requires { IfSome (connection_at self.old socket) (λ c. count ≤ length c.waiting) }
        ensures { self.new ≡ with_connections (changed socket (wrote count)) self.old }
    {
        self.connections.wrote(socket, count);
    }

    /// What is sent on a connection was large: less of it is read at once.
    pub(crate) fn narrow(&mut self, socket: LinkId)
        ensures { self.new ≡ self.old }
    {
        self.connections.narrow(socket);
    }

    /// So many bytes of a connection were read at once.
    pub(crate) fn widen(&mut self, socket: LinkId, count: usize)
        ensures { self.new ≡ self.old }
    {
        self.connections.widen(socket, count);
    }
}

// Who is served in a turn, and who is written to.
impl Links {
    /// A turn begins, in which nobody is served yet.
    pub(crate) fn serve_nobody(&mut self)
        ensures { self.new ≡ self.old }
    {
        self.connections.serve_nobody();
    }

    /// Serves the connection behind the others.
    pub(crate) fn serve(&mut self, socket: LinkId)
        ensures { self.new ≡ self.old }
    {
        self.connections.serve(socket);
    }

    /// How many are served in this turn, one after another.
    pub(crate) fn ready_count(&self) -> usize {
        self.connections.ready_count()
    }

    /// The connection that is served there.
    pub(crate) fn ready_at(&self, index: usize) -> Option<LinkId> {
        self.connections.ready_at(index)
    }

    /// The connection is written to next, where something waits there.
    pub(crate) fn note(&mut self, socket: LinkId)
        ensures { self.new ≡ self.old }
    {
        self.connections.note(socket);
    }

    /// How many are written to next.
    pub(crate) fn noted_count(&self) -> usize {
        self.connections.noted_count()
    }

    /// The connection that is written to there.
    pub(crate) fn noted_at(&self, index: usize) -> Option<LinkId> {
        self.connections.noted_at(index)
    }

    /// Those were written to.
    pub(crate) fn forget_noted(&mut self)
        ensures { self.new ≡ self.old }
    {
        self.connections.forget_noted();
    }
}
