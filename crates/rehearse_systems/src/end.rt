//! A server's end of a connection.
ghost use Rattle.std.specs.Prelude.{◌≡◌, ◌≤◌, ◌||◌, false, length};
ghost use Rattle.mr_wire.specs.Wire.{new_link, asked_link, behind_read, behind_write, count_of, is_over};

use crate::connection::Tip;
use mr_wire::Moved;
use std::alloc::{AllocError, Global};
use std::marker::Model;
use std::net::SocketAddrV4;

/// What a read comes to after all that was delivered.
#[derive(Clone, Copy, PartialEq, Eq)]
pub enum Rest {
    /// More may be delivered.
    Open,
    /// The peer sends no more.
    Ended,
    /// The connection is cut: reads and writes fail.
    Broken,
}

/// A server's end of a connection.
#[derive(Drop)]
pub struct End {
    /// Which end of which connection it is.
    pub tip: Tip,
    /// What was delivered, and not read yet.
    unread: Vec<u8>,
    rest: Rest,
    /// So many more bytes can be written.
    room: usize,
    /// A read or a write said that it ended or failed.
    ended: bool,
    /// The peer that it was asked for, if this end opened it.
    asked: Option<SocketAddrV4>,
}

impl Model for End {
    ghost use Rattle.std.specs.Prelude.{[], false};
    ghost use Rattle.mr_wire.specs.Wire.{LinkState};

    ghost Value = { LinkState };

    ghost view = { λ e. record { given = []; moved = []; ended = e.ended; asked = e.asked; stuck = false } };
}

impl End {
    /// That of a connection which a peer opened, on which so many bytes can be written.
    pub fn new(alloc: Global, tip: Tip, room: usize) -> End
        ensures { result ≡ new_link }
    {
        End {
            tip,
            unread: Vec::new(alloc),
            rest: Rest::Open,
            room,
            ended: false,
            asked: None,
        }
    }

    /// .. which this server opened.
    pub fn asked_of(alloc: Global, tip: Tip, room: usize, peer: SocketAddrV4) -> End
        ensures { result ≡ asked_link peer }
    {
        let mut end = End::new(alloc, tip, room);
        end.asked = Some(peer);
        end
    }

    /// So many more bytes can be written than before.
    pub fn give_room(&mut self, count: usize)
        ensures { self.new ≡ self.old }
    {
        self.room = self.room.saturating_add(count);
    }

    /// More bytes are delivered.
    pub fn deliver(&mut self, bytes: &[u8]) -> Result<(), AllocError>
        ensures { self.new ≡ self.old }
    {
        self.unread.extend_from_slice(bytes)
    }

    /// Nothing more will be delivered.
    pub fn finish(&mut self, rest: Rest)
        ensures { self.new ≡ self.old }
    {
        self.rest = rest;
    }

    /// Remembers an answer.
    fn tell(&mut self, moved: Moved) -> Moved
        ensures result { result ≡ moved }
        ensures state { self.new ≡ record self.old { ended = self.old.ended || is_over moved } }
    {
        self.ended = self.ended || matches!(moved, Moved::End | Moved::Failed);
        moved
    }

    /// What was delivered, as far as there is room.
    fn give(&mut self, into: &mut [u8]) -> Moved
        ensures within { count_of result ≤ length into.new }
        ensures same { self.new ≡ self.old }
    {
        let count = self.unread.len().min(into.len());
        into[..count].copy_from_slice(&self.unread[..count]);
        self.unread.copy_within(count.., 0);
        self.unread.truncate(self.unread.len() - count);
        Moved::Bytes(count)
    }

    /// What a read comes to.
    fn heard(&mut self, into: &mut [u8]) -> Moved
        ensures within { count_of result ≤ length into.new }
        ensures same { self.new ≡ self.old }
    {
        if !self.unread.is_empty() {
            return self.give(into);
        }
        match self.rest {
            Rest::Open => Moved::NotReady,
            Rest::Ended => Moved::End,
            Rest::Broken => Moved::Failed,
        }
    }

    /// Reads into the front of a buffer.
    pub fn read(&mut self, into: &mut [u8]) -> Moved
        ensures within { count_of result ≤ length into.new }
        ensures state { self.new ≡ behind_read false result into.new self.old }
    {
        let moved = self.heard(into);
        self.tell(moved)
    }

    /// What a write of so many bytes comes to.
    fn sent(&mut self, length: usize) -> Moved
        ensures within { count_of result ≤ length }
        ensures same { self.new ≡ self.old }
    {
        if self.rest == Rest::Broken {
            return Moved::Failed;
        }
        let count = length.min(self.room);
        self.room -= count;
        if count == 0 {
            return Moved::NotReady;
        }
        Moved::Bytes(count)
    }

    /// Writes a beginning of the bytes.
    pub fn write(&mut self, bytes: &[u8]) -> Moved
        ensures within { count_of result ≤ length bytes.now }
        ensures state { self.new ≡ behind_write false result bytes.now self.old }
    {
        let moved = self.sent(bytes.len());
        self.tell(moved)
    }
}
