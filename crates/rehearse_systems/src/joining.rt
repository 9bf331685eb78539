//! What becomes of connections.
use crate::connection::{Connection, Holder, Tip, across};
use crate::end::Rest;
use crate::line::side_of;
use crate::system::{FIRST_PORT, System};
use crate::telling::{tell_number, tell_told};
use crate::told::{Opened, Told};
use mr_links::{LinkId, Side};
use rehearse_shared::{Line, RehearsalFault, bytes_of, place_of, tell, tell_bytes};
use std::net::{Ipv4Addr, SocketAddrV4};

/// The number of the server whose address this is.
fn server_at(peer: SocketAddrV4) -> Option<usize> {
    if *peer.ip() != Ipv4Addr::LOCALHOST || peer.port() < FIRST_PORT {
        return None;
    }
    Some((peer.port() - FIRST_PORT) as usize)
}

// What scripts say of connections.
impl System {
    /// A client opens a connection to a server.
    pub fn open(&mut self, number: usize, out: &mut Vec<u8>) -> Result<(), RehearsalFault> {
        let opened = self.connections.len();
        let connection = Connection::new(self.alloc, Holder::Client, Some(number));
        self.connections.push(connection)?;
        tell_number(self.alloc, "connection", opened, out)
    }

    /// Has the event happen on a connection that a line names, and writes what came of it.
    pub fn join(
        &mut self,
        number: usize,
        line: Line<'_>,
        out: &mut Vec<u8>,
    ) -> Result<(), RehearsalFault> {
        if number >= self.connections.len() {
            return tell(out, "none");
        }
        match line.name {
            "accept" => self.accept(number, out),
            "send" => self.send(number, line, out),
            "deliver" => self.deliver(number, line, out),
            "close" => self.close(number, out),
            "cut" => self.cut(number, out),
            _ => Err(RehearsalFault::Line),
        }
    }

    /// The server that is asked accepts the connection in its next turn.
    fn accept(&mut self, number: usize, out: &mut Vec<u8>) -> Result<(), RehearsalFault> {
        let Some(connection) = self.connections.get(number) else {
            return tell(out, "none");
        };
        let Holder::Waiting = connection.holder(Side::Server) else {
            return tell(out, "none");
        };
        let Some(to) = connection.to else {
            return tell(out, "none");
        };
        let Some(running) = self.running(to) else {
            return tell(out, "none");
        };
        running.wire.ask(number)?;
        self.hold(
            Tip {
                number,
                side: Side::Server,
            },
            Holder::Asking,
        );
        tell(out, "accepted")
    }

    /// Another one holds an end of a connection.
    fn hold(&mut self, tip: Tip, holder: Holder) {
        if let Some(connection) = self.connections.get_mut(tip.number) {
            connection.set_holder(tip.side, holder);
        }
    }

    /// A client sends bytes.
    fn send(
        &mut self,
        number: usize,
        line: Line<'_>,
        out: &mut Vec<u8>,
    ) -> Result<(), RehearsalFault> {
        let bytes = bytes_of(self.alloc, line.first)?;
        let Some(connection) = self.connections.get_mut(number) else {
            return tell(out, "none");
        };
        let Holder::Client = connection.holder(Side::Opener) else {
            return tell(out, "none");
        };
        connection.push(Side::Server, bytes.as_slice())?;
        tell(out, "sent")
    }

    /// A client closes its end.
    fn close(&mut self, number: usize, out: &mut Vec<u8>) -> Result<(), RehearsalFault> {
        let Some(connection) = self.connections.get_mut(number) else {
            return tell(out, "none");
        };
        let Holder::Client = connection.holder(Side::Opener) else {
            return tell(out, "none");
        };
        connection.close(Side::Opener);
        tell(out, "closed")
    }

    /// A connection breaks.
    fn cut(&mut self, number: usize, out: &mut Vec<u8>) -> Result<(), RehearsalFault> {
        let Some(connection) = self.connections.get_mut(number) else {
            return tell(out, "none");
        };
        if !connection.is_there() {
            return tell(out, "none");
        }
        let opener = connection.holder(Side::Opener);
        let other = connection.holder(Side::Server);
        let to = connection.to;
        connection.cut();
        self.break_end(opener);
        self.break_end(other);
        self.forget(to, number);
        tell(out, "cut")
    }

    /// The end of a server is broken.
    fn break_end(&mut self, holder: Holder) {
        let Holder::Server(server, link) = holder else {
            return;
        };
        if let Some(running) = self.running(server) {
            running.wire.finish(link, Rest::Broken);
        }
    }

    /// The server that was asked doesn't accept the connection any more.
    fn forget(&mut self, to: Option<usize>, number: usize) {
        let Some(server) = to else {
            return;
        };
        if let Some(running) = self.running(server) {
            running.wire.forget(number);
        }
    }
}

// What is delivered.
impl System {
    /// Delivers the first of the bytes that are on their way to an end.
    fn deliver(
        &mut self,
        number: usize,
        line: Line<'_>,
        out: &mut Vec<u8>,
    ) -> Result<(), RehearsalFault> {
        let side = side_of(line.first)?;
        let most = place_of(line.second)?;
        let tip = Tip { number, side };
        let Some(connection) = self.connections.get(number) else {
            return tell(out, "none");
        };
        let is_over = connection.is_over(side);
        if connection.on_the_way(side) == 0 && !is_over {
            return tell(out, "none");
        }
        match connection.holder(side) {
            Holder::Client if is_over => self.end_client(tip, out),
            Holder::Client => self.deliver_to_client(tip, most, out),
            Holder::Server(server, link) if is_over => self.end_server(server, link, out),
            Holder::Server(server, link) => self.deliver_to_server(tip, server, link, most, out),
            Holder::Nobody | Holder::Waiting | Holder::Asking => tell(out, "none"),
        }
    }

    /// A client's peer has closed its end, and so does the client.
    fn end_client(&mut self, tip: Tip, out: &mut Vec<u8>) -> Result<(), RehearsalFault> {
        if let Some(connection) = self.connections.get_mut(tip.number) {
            connection.close(tip.side);
        }
        tell(out, "ended")
    }

    /// A server hears that its peer sends no more.
    fn end_server(
        &mut self,
        server: usize,
        link: LinkId,
        out: &mut Vec<u8>,
    ) -> Result<(), RehearsalFault> {
        if let Some(running) = self.running(server) {
            running.wire.finish(link, Rest::Ended);
        }
        tell(out, "ended")
    }

    /// Takes the first of the bytes that are on their way to an end, and lets its peer write as many more.
    fn take(&mut self, tip: Tip, most: usize) -> Result<Vec<u8>, RehearsalFault> {
        let Some(connection) = self.connections.get_mut(tip.number) else {
            return Ok(Vec::new(self.alloc));
        };
        let taken = connection.take(tip.side, most)?;
        let writer = connection.holder(across(tip.side));
        if let Holder::Server(server, link) = writer
            && let Some(running) = self.running(server)
        {
            running.wire.give_room(link, taken.len());
        }
        Ok(taken)
    }

    /// Writes what a client is delivered.
    fn deliver_to_client(
        &mut self,
        tip: Tip,
        most: usize,
        out: &mut Vec<u8>,
    ) -> Result<(), RehearsalFault> {
        let taken = self.take(tip, most)?;
        tell(out, "delivered")?;
        tell_bytes(self.alloc, taken.as_slice(), out)
    }

    /// Delivers to a server, and writes how many bytes.
    fn deliver_to_server(
        &mut self,
        tip: Tip,
        server: usize,
        link: LinkId,
        most: usize,
        out: &mut Vec<u8>,
    ) -> Result<(), RehearsalFault> {
        let taken = self.take(tip, most)?;
        if let Some(running) = self.running(server) {
            running.wire.deliver(link, taken.as_slice())?;
        }
        tell_number(self.alloc, "delivered", taken.len(), out)
    }
}

// What a server did.
impl System {
    /// Carries on what a wire was asked for in a turn, and writes it.
    pub fn carry(
        &mut self,
        server: usize,
        told: Told,
        out: &mut Vec<u8>,
    ) -> Result<(), RehearsalFault> {
        if told.lacks {
            return Err(RehearsalFault::Memory);
        }
        self.note_opened(server, &told)?;
        self.note_written(&told)?;
        self.note_closed(&told);
        tell_told(self.alloc, &told, out)
    }

    /// Each end that it opened is a server's.
    fn note_opened(&mut self, server: usize, told: &Told) -> Result<(), RehearsalFault> {
        for opened in told.opened.as_slice() {
            self.note_end(server, *opened)?;
        }
        Ok(())
    }

    /// An end is a server's. That of a connection which it dialled is the first of a new one.
    fn note_end(&mut self, server: usize, opened: Opened) -> Result<(), RehearsalFault> {
        let holder = Holder::Server(server, opened.link);
        match opened.peer {
            Some(peer) => {
                let connection = Connection::new(self.alloc, holder, server_at(peer));
                self.connections.push(connection)?;
            }
            None => self.hold(opened.tip, holder),
        }
        Ok(())
    }

    /// What it wrote goes on its way.
    fn note_written(&mut self, told: &Told) -> Result<(), RehearsalFault> {
        for written in told.written.as_slice() {
            if let Some(connection) = self.connections.get_mut(written.tip.number) {
                connection.push(across(written.tip.side), written.bytes.as_slice())?;
            }
        }
        Ok(())
    }

    /// Each end that it closed is closed.
    fn note_closed(&mut self, told: &Told) {
        for tip in told.closed.as_slice() {
            if let Some(connection) = self.connections.get_mut(tip.number) {
                connection.close(tip.side);
            }
        }
    }

    /// A server is gone: its ends are closed, and what it was to accept waits once more.
    pub fn part(&mut self, server: usize) {
        for connection in self.connections.iter_mut() {
            part_end(connection, server, Side::Opener);
            part_end(connection, server, Side::Server);
        }
    }
}

/// What becomes of an end of a connection as a server is gone.
fn part_end(connection: &mut Connection, server: usize, side: Side) {
    match connection.holder(side) {
        Holder::Server(holder, _) if holder == server => connection.close(side),
        Holder::Asking if connection.to == Some(server) => {
            connection.set_holder(side, Holder::Waiting)
        }
        _ => {}
    }
}
