ghost use Rattle.std.specs.Prelude.{◌≡◌, ◌≤◌, ◌||◌, false, length, IfOk, IfSome};
ghost use Rattle.mr_wire.specs.Wire.{new_link, asked_link, behind_read, behind_write, count_of, is_over};

use crate::probes::probe_after;
use crate::wire::Moved;
use mio::event::Event;
use mio::net::TcpStream;
use mio::{Interest, Poll, Token};
use std::io;
use std::io::{ErrorKind, Read, Write};
use std::marker::Model;
use std::net::{Net, Shutdown, SocketAddr, SocketAddrV4};
use std::os::fd::AsRawFd;

/// A socket, and what is known of it without asking the system.
#[derive(Drop)]
pub(crate) struct Connection {
    stream: TcpStream,
    /// A read may give bytes: an event said so, and no read has found less than it asked for since.
    readable: bool,
    /// A write may move bytes, likewise.
    writable: bool,
    /// The peer has sent its last byte, so that a read which finds less than it asked for isn't the last one.
    closing: bool,
    /// Another call may move bytes though no event comes: the last was cut short, by its buffer's end or by the system, or a write
    /// moved all its bytes while a read may still give some.
    unfinished: bool,
    ended: bool,
    /// The peer that it was asked for, if this end opened it.
    asked: Option<SocketAddrV4>,
}

impl Model for Connection {
    ghost use Rattle.std.specs.Prelude.{[], false};
    ghost use Rattle.mr_wire.specs.Wire.{LinkState};

    ghost Value = { LinkState };

    ghost view = { λ c. record { given = []; moved = []; ended = c.ended; asked = c.asked; stuck = false } };
}

impl Connection {
    /// A socket that a peer opened.
    pub(crate) fn new(stream: TcpStream) -> Connection
        ensures { result ≡ new_link }
    {
        Connection {
            stream,
            readable: false,
            writable: true,
            closing: false,
            unfinished: false,
            ended: false,
            asked: None,
        }
    }

    /// A socket that begins to connect to a peer. Nothing can be moved until an event says how that went.
    pub(crate) fn asked_of(net: &impl Net, peer: SocketAddrV4) -> io::Result<Connection>
        ensures { IfOk result (λ connection. connection ≡ asked_link peer) }
    {
        let stream = TcpStream::connect(net, SocketAddr::V4(peer))?;
        let mut connection = Connection::new(stream);
        connection.writable = false;
        connection.asked = Some(peer);
        Ok(connection)
    }

    /// Has small writes go out at once. Whether they do.
    pub(crate) fn send_at_once(&self) -> bool {
        self.stream.set_nodelay(true).is_ok()
    }

    /// Has the system probe the peer once it was silent for so many seconds. A link on which that can't be had goes on without.
    pub(crate) fn probe_after(&self, silence: u64) {
        if silence > 0 {
            let _probes = probe_after(self.stream.as_raw_fd(), silence);
        }
    }

    /// Has the system tell what becomes of it. Whether it does.
    pub(crate) fn register(&mut self, poll: &Poll, token: Token) -> bool
        ensures { self.new ≡ self.old }
    {
        let both = Interest::READABLE | Interest::WRITABLE;
        poll.registry()
            .register(&mut self.stream, token, both)
            .is_ok()
    }

    /// Remembers what an event says.
    pub(crate) fn note(&mut self, event: &Event)
        ensures { self.new ≡ self.old }
    {
        let ends = event.is_read_closed() || event.is_error();
        self.closing = self.closing || ends;
        self.readable = self.readable || event.is_readable() || ends;
        self.writable = self.writable || event.is_writable() || ends;
    }

    /// Whether another call may move bytes though no event comes. It is asked once.
    pub(crate) fn take_unfinished(&mut self) -> bool
        ensures { self.new ≡ self.old }
    {
        let unfinished = self.unfinished;
        self.unfinished = false;
        unfinished
    }

    /// Has nothing more come or go. What came before that is still read, and then the end is, or that the link failed.
    pub(crate) fn hang_up(&mut self)
        ensures { self.new ≡ self.old }
    {
        // a socket that can't be shut down has no peer, which its next call finds out as well
        let _ = self.stream.shutdown(Shutdown::Both);
        self.closing = true;
        self.readable = true;
        self.writable = true;
        self.unfinished = true;
    }

    /// Remembers an answer.
    fn tell(&mut self, moved: Moved) -> Moved
        ensures result { result ≡ moved }
        ensures state { self.new ≡ record self.old { ended = self.old.ended || is_over moved } }
    {
        self.ended = self.ended || matches!(moved, Moved::End | Moved::Failed);
        moved
    }

    /// What a read of the system comes to.
    fn heard(&mut self, into: &mut [u8]) -> Moved
        ensures within { count_of result ≤ length into.new }
        ensures same { self.new ≡ self.old }
    {
        self.unfinished = false;
        match self.stream.read(into) {
            Ok(0) => Moved::End,
            Ok(count) => {
                self.readable = self.closing || count == into.len();
                self.unfinished = self.readable;
                Moved::Bytes(count)
            }
            Err(error) => match error.kind() {
                ErrorKind::Interrupted => {
                    self.unfinished = true;
                    Moved::NotReady
                }
                ErrorKind::WouldBlock => {
                    self.readable = false;
                    Moved::NotReady
                }
                _ => Moved::Failed,
            },
        }
    }

    /// What a write of the system comes to.
    fn sent(&mut self, bytes: &[u8]) -> Moved
        ensures within { count_of result ≤ length bytes.now }
        ensures same { self.new ≡ self.old }
    {
        match self.stream.write(bytes) {
            Ok(count) => {
                self.writable = count == bytes.len();
                // who reads nothing while bytes wait to be written may go on
                self.unfinished = self.unfinished || (self.writable && self.readable);
                Moved::Bytes(count)
            }
            Err(error) => match error.kind() {
                ErrorKind::Interrupted => {
                    self.unfinished = true;
                    Moved::NotReady
                }
                ErrorKind::WouldBlock => {
                    self.writable = false;
                    Moved::NotReady
                }
                _ => Moved::Failed,
            },
        }
    }

    /// Reads into the front of a buffer. An empty buffer isn't handed to the system, whose answer would look like the end.
    pub(crate) fn read(&mut self, into: &mut [u8]) -> Moved
        ensures within { count_of result ≤ length into.new }
        ensures state { self.new ≡ behind_read false result into.new self.old }
    {
        if into.is_empty() || !self.readable {
            return Moved::NotReady;
        }
        let moved = self.heard(into);
        self.tell(moved)
    }

    /// Writes a beginning of the bytes.
    pub(crate) fn write(&mut self, bytes: &[u8]) -> Moved
        ensures within { count_of result ≤ length bytes.now }
        ensures state { self.new ≡ behind_write false result bytes.now self.old }
    {
        if bytes.is_empty() || !self.writable {
            return Moved::NotReady;
        }
        let moved = self.sent(bytes);
        self.tell(moved)
    }
}
