ghost use Rattle.std.specs.Prelude.{◌≡◌, ◌≤◌, ◌||◌, true, length, take, IfSome};
ghost use Rattle.mr_wire.specs.Wire.{new_link, asked_link, behind_read, behind_write, count_of, is_over, moves_none, sent_on, written};

use crate::sent_log::SentLog;
use crate::wire::Moved;
use mr_links::LinkId;
use std::alloc::Global;
use std::collections::VecDeque;
use std::marker::Model;
use std::net::SocketAddrV4;

/// What a read is to come to.
#[derive(Drop)]
pub enum Reading {
    /// These bytes come, in as many reads as the buffers make of them.
    Bytes(Vec<u8>),
    /// Nothing can be read.
    NotReady,
    /// The peer sends no more.
    End,
    /// The link fails.
    Failed,
}

/// What a write is to come to.
#[derive(Clone, Copy, Debug, PartialEq, Eq)]
pub enum Writing {
    /// It moves at most so many bytes.
    AtMost(usize),
    /// Nothing can be written.
    NotReady,
    /// The link fails.
    Failed,
}

/// A link in memory. Each read and each write takes the next of its list, and is not ready at its end. It keeps all bytes that were
/// moved.
#[derive(Drop)]
pub struct MemLink {
    reads: VecDeque<Reading>,
    writes: VecDeque<Writing>,
    /// What the reads haven't given yet of the bytes that came last.
    piece: Vec<u8>,
    given: Vec<u8>,
    moved: Vec<u8>,
    ended: bool,
    /// The last write moved nothing.
    stuck: bool,
    /// The peer that it was asked for, if this end opened it.
    asked: Option<SocketAddrV4>,
}

impl Model for MemLink {
    ghost use Rattle.mr_wire.specs.Wire.{LinkState};

    ghost Value = { LinkState };

    ghost view = { λ l. record { given = l.given.items; moved = l.moved.items; ended = l.ended; asked = l.asked; stuck = l.stuck } };
}

impl MemLink {
    /// A link whose reads and writes come to these.
    pub fn new(alloc: Global, reads: VecDeque<Reading>, writes: VecDeque<Writing>) -> MemLink
        ensures { result ≡ new_link }
    {
        MemLink {
            reads,
            writes,
            piece: Vec::new(alloc),
            given: Vec::new(alloc),
            moved: Vec::new(alloc),
            ended: false,
            stuck: false,
            asked: None,
        }
    }

    /// A link that a peer was asked for, whose reads and writes come to these.
    pub(crate) fn asked_of(
        alloc: Global,
        peer: SocketAddrV4,
        reads: VecDeque<Reading>,
        writes: VecDeque<Writing>,
    ) -> MemLink
        ensures { result ≡ asked_link peer }
    {
        let mut link = MemLink::new(alloc, reads, writes);
        link.asked = Some(peer);
        link
    }

    /// The peer that it was asked for, if this end opened it.
    pub(crate) fn asked(&self) -> Option<SocketAddrV4>
        ensures { result ≡ self.now.asked }
    {
        self.asked
    }

    /// All bytes that its writes moved.
    pub fn written(&self) -> &[u8]
        ensures { result.now ≡ self.now.moved }
    {
        self.moved.as_slice()
    }

    /// Remembers an answer that moved nothing.
    fn tell(&mut self, moved: Moved) -> Moved
        requires { count_of moved ≡ 0 }
        ensures result { result ≡ moved }
        ensures state { self.new ≡ record self.old { ended = self.old.ended || is_over moved } }
    {
        self.ended = self.ended || matches!(moved, Moved::End | Moved::Failed);
        moved
    }

    /// Takes the next bytes that come. Where there are none, it says why.
    fn refill(&mut self) -> Option<Moved>
        ensures none_moved { IfSome result (λ moved. count_of moved ≡ 0) }
        ensures same { self.new ≡ self.old }
    {
        if !self.piece.is_empty() {
            return None;
        }
        match self.reads.pop_front() {
            Some(Reading::Bytes(piece)) => {
                self.piece = piece;
                None
            }
            Some(Reading::NotReady) | None => Some(Moved::NotReady),
            Some(Reading::End) => Some(Moved::End),
            Some(Reading::Failed) => Some(Moved::Failed),
        }
    }

    /// Gives what has come, as far as there is room.
    fn give(&mut self, into: &mut [u8]) -> Moved
        ensures within { count_of result ≤ length into.new }
        ensures state { self.new ≡ behind_read true result into.new self.old }
    {
        let count = self.piece.len().min(into.len());
        let front = &self.piece[..count];
        if self.given.extend_from_slice(front).is_err() {
            return self.tell(Moved::Failed);
        }
        into[..count].copy_from_slice(front);
        self.piece.copy_within(count.., 0);
        self.piece.truncate(self.piece.len() - count);
        Moved::Bytes(count)
    }

    /// Reads into the front of a buffer.
    pub(crate) fn read(&mut self, into: &mut [u8]) -> Moved
        ensures within { count_of result ≤ length into.new }
        ensures state { self.new ≡ behind_read true result into.new self.old }
    {
        match self.refill() {
            Some(moved) => self.tell(moved),
            None => self.give(into),
        }
    }

    /// Writes a beginning of the bytes, and notes it under the link's name.
    pub(crate) fn write(&mut self, name: LinkId, bytes: &[u8], sent: &mut SentLog) -> Moved
        ensures within { count_of result ≤ length bytes.now }
        ensures state { self.new ≡ behind_write true result bytes.now self.old }
        ensures noted { sent.new ≡ sent_on name (take (count_of result) bytes.now) sent.old }
    {
        let moved = self.next_write(name, bytes, sent);
        self.stuck = moves_none(moved);
        moved
    }

    /// What the next write of the list comes to.
    fn next_write(&mut self, name: LinkId, bytes: &[u8], sent: &mut SentLog) -> Moved
        ensures within { count_of result ≤ length bytes.now }
        ensures state { self.new ≡ written result bytes.now self.old }
        ensures noted { sent.new ≡ sent_on name (take (count_of result) bytes.now) sent.old }
    {
        match self.writes.pop_front() {
            Some(Writing::AtMost(most)) => {
                self.send(name, &bytes[..most.min(bytes.len())], sent)
            }
            Some(Writing::NotReady) | None => self.tell(Moved::NotReady),
            Some(Writing::Failed) => self.tell(Moved::Failed),
        }
    }

    /// Writes these bytes, all of them or none.
    fn send(&mut self, name: LinkId, bytes: &[u8], sent: &mut SentLog) -> Moved
        ensures within { count_of result ≤ length bytes.now }
        ensures state { self.new ≡ written result bytes.now self.old }
        ensures noted { sent.new ≡ sent_on name (take (count_of result) bytes.now) sent.old }
    {
        if !sent.note(name, bytes) {
            return self.tell(Moved::Failed);
        }
        if self.moved.extend_from_slice(bytes).is_err() {
            sent.forget(name, bytes);
            return self.tell(Moved::Failed);
        }
        Moved::Bytes(bytes.len())
    }
}

/// Whether a call moved nothing.
fn moves_none(moved: Moved) -> bool
    ensures { result ≡ moves_none moved }
{
    match moved {
        Moved::Bytes(count) => count == 0,
        Moved::NotReady | Moved::End | Moved::Failed => true,
    }
}
