// What is sent to peers.
ghost use Rattle.std.specs.Prelude.{◌≡◌, [], false, true};
ghost use Rattle.mr_node_spec.specs.LinkRows.{closed_at};
ghost use Rattle.mr_connections.specs.State.{HasLink, NoneDone};
ghost use Rattle.mr_links.specs.declared.link_id.LinkId.{LinkId};
ghost use Rattle.mr_loop.specs.Writing.{IsWritten, WroteOn};
ghost use Rattle.mr_loop.specs.Going.{Goes};
ghost use Rattle.mr_loop.specs.Hosts.{IsSame, moment_in};
ghost use Rattle.mr_loop.specs.Quiet.{AllWait};

use crate::host::Host;
use mr_file::LogFile;
use mr_links::LinkId;
use mr_source::Source;
use mr_wire::{Moved, Wire};

/// Of at most so many pieces is what waits on a connection: of bytes of its own, of a text that is shared, and of its own again.
const PIECES: usize = 3;

/// What a write came to.
#[derive(Clone, Copy)]
pub(crate) enum Wrote {
    /// All that was in front was moved, and more may wait.
    Whole,
    /// Bytes were moved.
    Some,
    /// Nothing waits, or nothing can be moved now.
    Nothing,
    /// The connection is closed, or wasn't there.
    Gone,
}

impl<W: Wire, F: LogFile, S: Source> Host<'_, '_, W, F, S> {
    /// Writes what waits on each connection that is noted, once. One on which less is moved is served again once the wire names it.
    pub(crate) fn write_all(&mut self)
        requires { self.old.own.now.batch ≡ [] }
        ensures went { Goes W.tells W.links W.failures F.told F.synced S.drawn self.old self.new }
        ensures same { IsSame W.waited F.failures self.old self.new }
        ensures batch { self.new.own.now.batch ≡ [] }
        ensures moment { moment_in S.drawn self.new ≡ moment_in S.drawn self.old }
        ensures core { self.new.node.now.core ≡ self.old.node.now.core }
        ensures quiet { AllWait self.old.node.now → AllWait self.new.node.now }
    {
        for index in 0..self.own.noted_count() {
            if let Some(socket) = self.own.noted_at(index) {
                self.write_pieces(socket);
            }
        }
        self.own.forget_noted();
    }

    /// Writes what waits on a connection: each piece once, until less of one is moved than there is.
    fn write_pieces(&mut self, socket: LinkId)
        requires { self.old.own.now.batch ≡ [] }
        ensures went { Goes W.tells W.links W.failures F.told F.synced S.drawn self.old self.new }
        ensures same { IsSame W.waited F.failures self.old self.new }
        ensures batch { self.new.own.now.batch ≡ [] }
        ensures moment { moment_in S.drawn self.new ≡ moment_in S.drawn self.old }
        ensures core { self.new.node.now.core ≡ self.old.node.now.core }
        ensures quiet { AllWait self.old.node.now → AllWait self.new.node.now }
    {
        for _ in 0..PIECES {
            match self.write_once(socket) {
                Wrote::Whole => {}
                Wrote::Some | Wrote::Nothing | Wrote::Gone => return,
            }
        }
    }

    /// Writes what waits on a connection until nothing more is moved. It answers whether the connection is still there.
    pub(crate) fn write_ready(&mut self, socket: LinkId, link: LinkId) -> bool
        requires filed { self.old.own.now.batch ≡ [] }
        requires has { HasLink self.old.own.now.connections socket link }
        ensures went { Goes W.tells W.links W.failures F.told F.synced S.drawn self.old self.new }
        ensures same { IsSame W.waited F.failures self.old self.new }
        ensures moment { moment_in S.drawn self.new ≡ moment_in S.drawn self.old }
        ensures there { result ≡ true →
            (self.new.node.now ≡ self.old.node.now) ×
            IsWritten W.tells (W.links self.new.wire.now) socket link self.new.own.now }
        ensures gone { result ≡ false → self.new.node.now ≡ closed_at link self.old.node.now }
    {
        loop {
            match self.write_once(socket) {
                Wrote::Whole | Wrote::Some => {}
                Wrote::Nothing => return true,
                Wrote::Gone => return false,
            }
        }
    }

    /// Writes what is in front of what waits on a connection, once. Where that fails, the connection is closed.
    fn write_once(&mut self, socket: LinkId) -> Wrote
        requires { self.old.own.now.batch ≡ [] }
        ensures went { Goes W.tells W.links W.failures F.told F.synced S.drawn self.old self.new }
        ensures same { IsSame W.waited F.failures self.old self.new }
        ensures batch { self.new.own.now.batch ≡ [] }
        ensures moment { moment_in S.drawn self.new ≡ moment_in S.drawn self.old }
        ensures core { self.new.node.now.core ≡ self.old.node.now.core }
        ensures wrote { (link : LinkId) → HasLink self.old.own.now.connections socket link →
            WroteOn W.tells result (W.links self.new.wire.now) socket link self.old.node.now
            self.new.node.now self.old.own.now self.new.own.now }
        ensures quiet { AllWait self.old.node.now → AllWait self.new.node.now }
    {
        let Some(connection) = self.own.connection(socket) else {
            return Wrote::Gone;
        };
        let front = connection.front();
        if front.is_empty() {
            return Wrote::Nothing;
        }
        let length = front.len();
        let link = connection.link();
        match self.wire.write(socket, front) {
            Moved::Bytes(count) => {
                self.own.wrote(socket, count);
                if count >= length {
                    Wrote::Whole
                } else if count > 0 {
                    Wrote::Some
                } else {
                    Wrote::Nothing
                }
            }
            // of a peer that sends no more, reads tell
            Moved::NotReady | Moved::End => {
                self.own.wrote(socket, 0);
                Wrote::Nothing
            }
            Moved::Failed => {
                self.drop_connection(socket, link);
                Wrote::Gone
            }
        }
    }

    /// Closes each connection whose end the node has closed, where all is written.
    pub(crate) fn close_done(&mut self)
        ensures went { Goes W.tells W.links W.failures F.told F.synced S.drawn self.old self.new }
        ensures same { IsSame W.waited F.failures self.old self.new }
        ensures batch { self.new.own.now.batch ≡ self.old.own.now.batch }
        ensures moment { moment_in S.drawn self.new ≡ moment_in S.drawn self.old }
        ensures node { self.new.node.now ≡ self.old.node.now }
        ensures closed { NoneDone self.new.own.now.connections }
    {
        while let Some(socket) = self.own.next_done() {
            self.drop_connection(socket, None);
        }
    }
}
