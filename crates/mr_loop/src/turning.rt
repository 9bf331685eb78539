// A turn.
ghost use Rattle.std.specs.Prelude.{◌≡◌, ◌≤◌, ◌||◌, ◌∷◌, [], false, true, OnErr, OnOk, IsErrOf};
ghost use Rattle.mr_file.specs.LogFile.{Rose};
ghost use Rattle.mr_connections.specs.State.{NoneDone};
ghost use Rattle.mr_loop.specs.Counting.{most_pieces, nothing_counted, pieces_by};
ghost use Rattle.mr_loop.specs.Going.{GoesAs, GoesTelling, GoesUpToAs, ReadsAs};
ghost use Rattle.mr_loop.specs.Hosts.{FileGoes, IsSame, moment_in, stage_in};
ghost use Rattle.mr_loop.specs.Outcomes.{Turns};
ghost use Rattle.mr_loop.specs.Quiet.{AllWait};
ghost use Rattle.mr_loop.specs.Stage.{stage};
ghost use Rattle.mr_wire.specs.Wire.{WaitsOnce};

use crate::fault::LoopFault;
use crate::host::Host;
use crate::links::Links;
use crate::moment::Moment;
use crate::told::Turn;
use mr_aof::Log;
use mr_connections::{FIRST_PIECE, PIECE};
use mr_file::LogFile;
use mr_links::LinkId;
use mr_node::Node;
use mr_source::Source;
use mr_wire::{Failed, Wire};

/// So many pieces of a connection are read in one turn at most.
const MOST_PIECES: u32 = 64;

/// One turn: waits until something is ready, accepts links, reads of each connection whose socket is ready and steps as far as its
/// bytes go, appends what they changed to the file, sends replies and the stream, dials the master where the node waits for one, lets
/// time pass at the node, and closes each connection whose end the node has closed once all is written there. On a connection whose
/// socket isn't ready it spends nothing but what is sent there. No turn begins once a client asked that the program end: the one in
/// which it did goes to its end. It answers how many steps the node was asked
/// for, how many of them used something, how many fresh ids the node took, how many clients were given up as deaf, what came of
/// following a master, and whether a client asked that. Where the file fails, or memory runs out for what the node gave out, the node is stopped, and no turn may
/// begin any more.
pub fn turn<W: Wire, F: LogFile, S: Source>(
    node: &mut Node,
    links: &mut Links,
    wire: &mut W,
    log: &mut Log<F>,
    source: &mut S,
) -> Result<Turn, LoopFault>
    requires filed { links.old.batch ≡ [] }
    requires runs { links.old.halted ≡ false }
    requires up { node.old.core.up ≡ true }
    ensures went { Turns W.tells log.old.mode [] (S.drawn source.old) (S.drawn source.new) result
        (stage node.old links.old (W.links wire.old) (W.failures wire.old) (F.told log.old.file)
        (F.synced log.old.file))
        (stage node.new links.new (W.links wire.new) (W.failures wire.new) (F.told log.new.file)
        (F.synced log.new.file)) }
    ensures written { OnOk result (links.new.batch ≡ []) }
    ensures mode { log.new.mode ≡ log.old.mode }
    ensures device { IsErrOf result LoopFault.File → log.new.broken ≡ true }
    ensures goes { FileGoes F.failures log.old log.new }
    ensures listener { IsErrOf result LoopFault.Listener →
        Rose (W.failures wire.old) (W.failures wire.new) }
    ensures quiet { AllWait node.old → OnOk result (AllWait node.new) }
    ensures closed { OnOk result (NoneDone links.new.connections) }
    ensures file { IsErrOf result LoopFault.File → node.new.core.up ≡ false }
    ensures stopped { IsErrOf result LoopFault.Stopped → node.new.core.up ≡ false }
    ensures up { OnOk result (node.new.core.up ≡ true) }
    ensures hurries { W.tells ≡ true → links.old.hurries ≡ true →
        WaitsOnce 0 (W.waited wire.old) (W.waited wire.new) }
    ensures waits { W.tells ≡ true → links.old.hurries ≡ false →
        WaitsOnce 100 (W.waited wire.old) (W.waited wire.new) }
{
    match wait(links, wire) {
        Ok(()) => {
            let moment = Moment::begun(source);
            turn_at(node, links, wire, log, source, moment)
        }
        Err(_failed) => Err(LoopFault::Listener),
    }
}

/// A turn behind its wait.
fn turn_at<W: Wire, F: LogFile, S: Source>(
    node: &mut Node,
    own: &mut Links,
    wire: &mut W,
    log: &mut Log<F>,
    source: &mut S,
    moment: Moment,
) -> Result<Turn, LoopFault>
    requires filed { own.old.batch ≡ [] }
    requires begun { moment.turn ≡ nothing_counted }
    requires up { node.old.core.up ≡ true }
    ensures went { Turns W.tells log.old.mode (moment.fresh ∷ []) (S.drawn source.old)
        (S.drawn source.new) result
        (stage node.old own.old (W.links wire.old) (W.failures wire.old) (F.told log.old.file)
        (F.synced log.old.file))
        (stage node.new own.new (W.links wire.new) (W.failures wire.new) (F.told log.new.file)
        (F.synced log.new.file)) }
    ensures written { OnOk result (own.new.batch ≡ []) }
    ensures mode { log.new.mode ≡ log.old.mode }
    ensures device { IsErrOf result LoopFault.File → log.new.broken ≡ true }
    ensures goes { FileGoes F.failures log.old log.new }
    ensures listener { IsErrOf result LoopFault.Listener → ⊥ }
    ensures quiet { AllWait node.old → OnOk result (AllWait node.new) }
    ensures closed { OnOk result (NoneDone own.new.connections) }
    ensures down { OnErr result (node.new.core.up ≡ false) }
    ensures up { OnOk result (node.new.core.up ≡ true) }
    ensures waited { W.waited wire.new ≡ W.waited wire.old }
{
    let mut host = Host {
        node,
        own,
        wire,
        log,
        source,
        moment,
    };
    host.run()
}

/// Waits until something is ready. Behind a turn that met a limit nothing is waited for.
fn wait<W: Wire>(links: &Links, wire: &mut W) -> Result<(), Failed>
    ensures same { W.links wire.new ≡ W.links wire.old }
    ensures hurries { W.tells ≡ true → links.now.hurries ≡ true →
        WaitsOnce 0 (W.waited wire.old) (W.waited wire.new) }
    ensures waits { W.tells ≡ true → links.now.hurries ≡ false →
        WaitsOnce 100 (W.waited wire.old) (W.waited wire.new) }
    ensures later { W.failures wire.old ≤ W.failures wire.new }
    ensures cause { OnErr result (Rose (W.failures wire.old) (W.failures wire.new)) }
{
    wire.wait(links.longest_wait())
}

/// Whether a turn met a limit: more may be due, accepted or read.
fn is_limited(due: bool, accepts: bool, reads: bool) -> bool
    ensures { result ≡ ((due || accepts) || reads) }
{
    due || accepts || reads
}

/// How many bytes are read at once in a round of a turn: few at first, so that not many requests wait unseen where each has a large
/// reply, and then more and more.
fn most_read(round: u32) -> usize {
    match round {
        0 => FIRST_PIECE,
        1 => 4 * FIRST_PIECE,
        2 => 16 * FIRST_PIECE,
        _ => PIECE,
    }
}

impl<W: Wire, F: LogFile, S: Source> Host<'_, '_, W, F, S> {
    /// A turn behind its wait. Behind a fault the node is stopped.
    fn run(&mut self) -> Result<Turn, LoopFault>
        requires filed { self.old.own.now.batch ≡ [] }
        requires begun { self.old.moment.turn ≡ nothing_counted }
        ensures went { Turns W.tells self.old.log.now.mode (self.old.moment.fresh ∷ [])
            (S.drawn self.old.source.now) (S.drawn self.new.source.now) result
            (stage_in W.links W.failures F.told F.synced self.old)
            (stage_in W.links W.failures F.told F.synced self.new) }
        ensures written { OnOk result (self.new.own.now.batch ≡ []) }
        ensures same { IsSame W.waited F.failures self.old self.new }
        ensures device { IsErrOf result LoopFault.File → self.new.log.now.broken ≡ true }
        ensures quiet { AllWait self.old.node.now → OnOk result (AllWait self.new.node.now) }
        ensures closed { OnOk result (NoneDone self.new.own.now.connections) }
        ensures listener { IsErrOf result LoopFault.Listener → ⊥ }
        ensures down { OnErr result (self.new.node.now.core.up ≡ false) }
        ensures up { self.old.node.now.core.up ≡ true →
            OnOk result (self.new.node.now.core.up ≡ true) }
    {
        match self.go_on() {
            Ok(told) => Ok(told),
            Err(fault) => {
                self.node.file_failed();
                Err(fault)
            }
        }
    }

    /// .. whose node goes on whatever comes of it.
    fn go_on(&mut self) -> Result<Turn, LoopFault>
        requires filed { self.old.own.now.batch ≡ [] }
        requires begun { self.old.moment.turn ≡ nothing_counted }
        ensures went { GoesTelling W.tells W.links W.failures F.told F.synced S.drawn result
            self.old self.new }
        ensures written { OnOk result (self.new.own.now.batch ≡ []) }
        ensures same { IsSame W.waited F.failures self.old self.new }
        ensures device { IsErrOf result LoopFault.File → self.new.log.now.broken ≡ true }
        ensures quiet { AllWait self.old.node.now → OnOk result (AllWait self.new.node.now) }
        ensures closed { OnOk result (NoneDone self.new.own.now.connections) }
    {
        let before = self.own.lacked();
        let accepts = self.accept_all()?;
        let reads = self.read_all()?;
        self.send_all()?;
        self.dial()?;
        let due = self.tick_all()?;
        self.finish()?;
        self.own.set_hurries(is_limited(due, accepts, reads));
        let lacked = self.own.lacked().since(before);
        Ok(self.moment.turn().ended(self.own.halted(), lacked))
    }

    /// The end of a turn: what waits is appended and written, and each connection whose end the node has closed is closed where all
    /// is written.
    fn finish(&mut self) -> Result<(), LoopFault>
        ensures went { GoesAs W.tells W.links W.failures F.told F.synced S.drawn result self.old
            self.new }
        ensures written { OnOk result (self.new.own.now.batch ≡ []) }
        ensures closed { OnOk result (NoneDone self.new.own.now.connections) }
        ensures same { IsSame W.waited F.failures self.old self.new }
        ensures moment { OnOk result (moment_in S.drawn self.new ≡ moment_in S.drawn self.old) }
        ensures core { self.new.node.now.core ≡ self.old.node.now.core }
        ensures device { IsErrOf result LoopFault.File → self.new.log.now.broken ≡ true }
        ensures quiet { AllWait self.old.node.now → OnOk result (AllWait self.new.node.now) }
    {
        self.send_all()?;
        self.close_done();
        Ok(())
    }

    /// Appends what waits for the file, and then writes what waits on the connections.
    fn send_all(&mut self) -> Result<(), LoopFault>
        ensures went { GoesAs W.tells W.links W.failures F.told F.synced S.drawn result self.old
            self.new }
        ensures written { OnOk result (self.new.own.now.batch ≡ []) }
        ensures same { IsSame W.waited F.failures self.old self.new }
        ensures moment { OnOk result (moment_in S.drawn self.new ≡ moment_in S.drawn self.old) }
        ensures core { self.new.node.now.core ≡ self.old.node.now.core }
        ensures device { IsErrOf result LoopFault.File → self.new.log.now.broken ≡ true }
        ensures quiet { AllWait self.old.node.now → OnOk result (AllWait self.new.node.now) }
    {
        self.commit()?;
        self.write_all();
        Ok(())
    }

    /// Serves each connection whose socket is ready. It answers whether one of them may have more to read.
    fn read_all(&mut self) -> Result<bool, LoopFault>
        ensures went { ReadsAs W.tells W.links W.failures F.told F.synced S.drawn result self.old
            self.new }
        ensures same { IsSame W.waited F.failures self.old self.new }
        ensures device { IsErrOf result LoopFault.File → self.new.log.now.broken ≡ true }
        ensures quiet { AllWait self.old.node.now → OnOk result (AllWait self.new.node.now) }
    {
        self.gather();
        let mut piece = self.own.take_piece();
        let read = self.read_each(&mut piece);
        self.own.put_piece(piece);
        read
    }

    /// Reads of each connection whose socket is ready, and steps as far as its bytes go. It answers whether more is left to read.
    fn read_each(&mut self, piece: &mut [u8]) -> Result<bool, LoopFault>
        ensures went { ReadsAs W.tells W.links W.failures F.told F.synced S.drawn result self.old
            self.new }
        ensures same { IsSame W.waited F.failures self.old self.new }
        ensures device { IsErrOf result LoopFault.File → self.new.log.now.broken ≡ true }
        ensures quiet { AllWait self.old.node.now → OnOk result (AllWait self.new.node.now) }
    {
        let mut more = false;
        for index in 0..self.own.ready_count() {
            let left = self.read_at(piece, index)?;
            more = more || left;
        }
        Ok(more)
    }

    /// Serves the connection that is ready there, and has what waits on it written next.
    fn read_at(&mut self, piece: &mut [u8], index: usize) -> Result<bool, LoopFault>
        ensures went { ReadsAs W.tells W.links W.failures F.told F.synced S.drawn result self.old
            self.new }
        ensures same { IsSame W.waited F.failures self.old self.new }
        ensures device { IsErrOf result LoopFault.File → self.new.log.now.broken ≡ true }
        ensures quiet { AllWait self.old.node.now → OnOk result (AllWait self.new.node.now) }
    {
        let Some(socket) = self.own.ready_at(index) else {
            return Ok(false);
        };
        let left = self.read_connection(piece, socket)?;
        self.own.note(socket);
        Ok(left)
    }

    /// Reads of a connection and steps, until nothing more is there. It answers whether it left off before that.
    fn read_connection(&mut self, piece: &mut [u8], socket: LinkId) -> Result<bool, LoopFault>
        ensures went { GoesUpToAs W.tells W.links W.failures F.told F.synced S.drawn
            (pieces_by socket) most_pieces result self.old self.new }
        ensures same { IsSame W.waited F.failures self.old self.new }
        ensures device { IsErrOf result LoopFault.File → self.new.log.now.broken ≡ true }
        ensures quiet { AllWait self.old.node.now → OnOk result (AllWait self.new.node.now) }
    {
        for round in 0..MOST_PIECES {
            let Some(link) = self.read_piece(socket, piece, most_read(round)) else {
                return Ok(false);
            };
            self.step_all(socket, link)?;
        }
        Ok(true)
    }
}
