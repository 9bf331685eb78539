// What peers send.
ghost use Rattle.std.specs.Prelude.{◌≡◌, ◌≤◌, length, false, IfSome, is_some};
ghost use Rattle.mr_node.specs.Calls.{IsClients};
ghost use Rattle.mr_connections.specs.State.{HasLink, most_kept};
ghost use Rattle.mr_loop.specs.Causes.{HasRoom, IsRead};
ghost use Rattle.mr_loop.specs.Counting.{pieces_by};
ghost use Rattle.mr_loop.specs.Going.{GoesUpTo, StaysAs};
ghost use Rattle.mr_loop.specs.Hosts.{IsSame};
ghost use Rattle.mr_loop.specs.Quiet.{AllWait, WaitsBut};

use crate::host::Host;
use crate::lacking::{Asked, told_with};
use mr_connections::{Connection, PIECE};
use mr_file::LogFile;
use mr_links::LinkId;
use mr_node::Node;
use mr_source::Source;
use mr_wire::{Moved, Wire};

/// Whether so much waits for a client that nothing more is read of it. A replica is heard however much waits, and so is the master: no
/// reply is owed to what they say.
fn is_full(node: &Node, connection: &Connection, link: LinkId) -> bool
    ensures { result ≡ false → IsClients node.now link →
        length connection.now.waiting ≤ most_kept }
{
    connection.is_full() && node.is_client(link)
}

/// So many bytes are read at once at most: of a client few where its replies are large, or much waits for it.
fn most_at_once(node: &Node, connection: &Connection, link: LinkId) -> usize {
    if node.is_client(link) {
        connection.piece()
    } else {
        PIECE
    }
}

impl<W: Wire, F: LogFile, S: Source> Host<'_, '_, W, F, S> {
    /// Serves those in this turn whose sockets the wire names, in its order.
    pub(crate) fn gather(&mut self)
        ensures stays { StaysAs W.tells W.links W.failures F.told F.synced S.drawn self.old
            self.new }
        ensures same { IsSame W.waited F.failures self.old self.new }
    {
        self.own.serve_nobody();
        for _ in 0..self.own.len() {
            match self.wire.ready() {
                Some(socket) => self.own.serve(socket),
                None => return,
            }
        }
    }

    /// Reads the next bytes of a connection, as many as the node takes, the buffer has room for, and may be read at once, and feeds
    /// them. It answers on which link bytes were fed: where on none, nothing more is to be read now.
    pub(crate) fn read_piece(
        &mut self,
        socket: LinkId,
        piece: &mut [u8],
        most: usize,
    ) -> Option<LinkId>
        ensures went { GoesUpTo W.tells W.links W.failures F.told F.synced S.drawn
            (pieces_by socket) 1 (is_some result) self.old self.new }
        ensures same { IsSame W.waited F.failures self.old self.new }
        ensures quiet { AllWait self.old.node.now → WaitsBut result self.new.node.now }
        ensures linked { IfSome result (λ link. HasLink self.new.own.now.connections socket link) }
    {
        let Some(connection) = self.own.connection(socket) else {
            return None;
        };
        let Some(link) = connection.link() else {
            return None;
        };
        if is_full(self.node, connection, link) {
            self.own.narrow(socket);
            return None;
        }
        let Some(room) = self.node.room(link) else {
            return None;
        };
        let at_once = most_at_once(self.node, connection, link);
        let most = room.min(piece.len()).min(at_once).min(most);
        if most == 0 {
            return None;
        }
        self.read_into(socket, link, &mut piece[..most])
    }

    /// Reads once, and feeds what came.
    fn read_into(&mut self, socket: LinkId, link: LinkId, buffer: &mut [u8]) -> Option<LinkId>
        requires read { IsRead self.old.node.now self.old.own.now socket link }
        requires room { HasRoom self.old.node.now link (length buffer.old) }
        ensures went { GoesUpTo W.tells W.links W.failures F.told F.synced S.drawn
            (pieces_by socket) 1 (is_some result) self.old self.new }
        ensures same { IsSame W.waited F.failures self.old self.new }
        ensures quiet { AllWait self.old.node.now → WaitsBut result self.new.node.now }
        ensures linked { IfSome result (λ l. HasLink self.new.own.now.connections socket l) }
    {
        match self.wire.read(socket, buffer) {
            Moved::Bytes(count) => {
                if count == 0 {
                    return None;
                }
                match self.node.feed(link, &buffer[..count]) {
                    Ok(()) => {
                        self.node.sound();
                        self.own.widen(socket, count);
                        Some(link)
                    }
                    Err(_refused) => {
                        let unread = self.node.unread(link);
                        self.own.lose(Asked::Bytes(told_with(unread, count)));
                        self.drop_connection(socket, Some(link));
                        None
                    }
                }
            }
            Moved::NotReady => None,
            Moved::End => {
                self.part(link);
                None
            }
            Moved::Failed => {
                self.drop_connection(socket, Some(link));
                None
            }
        }
    }
}
