ghost use Rattle.std.specs.Prelude.{◌≡◌, ◌≤◌, ◌<◌, ◌↔◌, ◌++◌, ℕ, List, [], None, Some, length, IsTrue, OnErr, OnOk};
ghost use Rattle.mr_connections.specs.State.{begun, left, most_kept, pushed, wrote};
ghost use Rattle.mr_unsent.specs.Limits.{most_unsent};

use mr_links::LinkId;
use mr_unsent::Unsent;
use std::alloc::{AllocError, Global};
use std::marker::Model;
use std::rc::Rc;

/// A read gives no more bytes.
pub const PIECE: usize = 65_536;

/// The first read of a connection in a turn gives no more.
pub const FIRST_PIECE: usize = 1_024;

/// A read of a client whose replies are large gives no more, and none of one for which much waits.
const LEAST_PIECE: usize = 64;

/// Where more bytes wait for a client, little more is read of it at once.
const MUCH_KEPT: usize = 1_048_576;

/// Where more bytes wait for a client, nothing more is read of it. Three requests fit into the least piece, and three values of 16 MiB behind
/// these bytes are no more than may be left unread. Of larger values one alone may be more.
const MOST_KEPT: usize = 15_728_640;

/// A connection: the node's link, and what waits to be sent.
#[derive(Drop)]
pub struct Connection {
    /// None once the node's end is closed: then what waits is still written, and nothing is read.
    link: Option<LinkId>,
    unsent: Unsent,
    /// So many bytes of a client are read at once at most. They get fewer while its replies are large.
    piece: usize,
    /// It is among those that are written to next.
    noted: bool,
}

impl Model for Connection {
    ghost use Rattle.mr_connections.specs.State.{ConnectionState, connection_code};

    ghost Value = { ConnectionState };

    ghost coded = { connection_code };

    ghost view = { λ c. record { link = c.link; waiting = c.unsent } };
}

impl Connection {
    /// One that begins, with this link of the node.
    pub(crate) fn new(alloc: Global, link: LinkId) -> Connection
        ensures { result ≡ begun link }
    {
        Connection {
            link: Some(link),
            unsent: Unsent::new(alloc),
            piece: PIECE,
            noted: false,
        }
    }

    /// The node's link, until its end is closed.
    pub fn link(&self) -> Option<LinkId>
        ensures { result ≡ self.now.link }
    {
        self.link
    }

    /// Whether this is the node's link.
    pub(crate) fn is_of(&self, link: LinkId) -> bool
        ensures { IsTrue result ↔ (self.now.link ≡ Some link) }
    {
        match self.link {
            Some(name) => name == link,
            None => false,
        }
    }

    /// What is to be written to it next: a beginning of what waits, and none of it only where nothing waits.
    pub fn front(&self) -> &[u8]
        ensures begins { (rest : List ℕ) × (self.now.waiting ≡ result.now ++ rest) }
        ensures some { result.now ≡ [] → self.now.waiting ≡ [] }
    {
        self.unsent.front()
    }

    /// Whether more waits than it may leave unread.
    pub fn is_too_much(&self) -> bool
        ensures { IsTrue result ↔ (most_unsent < length self.now.waiting) }
    {
        self.unsent.is_too_much()
    }

    /// Whether so much waits that nothing more is read of a client.
    pub fn is_full(&self) -> bool
        ensures { IsTrue result ↔ (most_kept < length self.now.waiting) }
    {
        self.unsent.is_more_than(MOST_KEPT)
    }

    /// Whether its end is closed and nothing waits any more.
    pub(crate) fn is_done(&self) -> bool
        ensures { IsTrue result ↔ ((self.now.link ≡ None) × (self.now.waiting ≡ [])) }
    {
        self.link.is_none() && self.unsent.is_empty()
    }

    /// So many bytes of a client are read at once at most.
    pub fn piece(&self) -> usize {
        if self.has_much() {
            LEAST_PIECE
        } else {
            self.piece
        }
    }

    /// Whether so much waits that little more is read of it at once.
    fn has_much(&self) -> bool {
        self.unsent.is_more_than(MUCH_KEPT)
    }

    /// Its replies were large: less of it is read at once.
    pub(crate) fn narrow(&mut self)
        ensures { self.new ≡ self.old }
    {
        self.piece = narrowed(self.piece);
    }

    /// So many bytes were read at once. Where that were as many as may be, and its replies were small, more of it is read.
    pub(crate) fn widen(&mut self, count: usize)
        ensures { self.new ≡ self.old }
    {
        if count >= self.piece && !self.has_much() {
            self.piece = self.piece.saturating_mul(4).min(PIECE);
        }
    }

    /// Whether it is written to next, and wasn't before: something waits.
    pub(crate) fn note(&mut self) -> bool
        ensures { self.new ≡ self.old }
    {
        let is_new = !self.noted && !self.unsent.is_empty();
        self.noted = self.noted || is_new;
        is_new
    }

    /// It isn't among those any more that are written to next.
    pub(crate) fn forget_noted(&mut self)
        ensures { self.new ≡ self.old }
    {
        self.noted = false;
    }

    /// Puts bytes behind what waits. Where much does, less of it is read at once.
    pub(crate) fn push(&mut self, bytes: &[u8]) -> Result<(), AllocError>
        ensures ok { OnOk result (self.new ≡ pushed bytes.now self.old) }
        ensures err { OnErr result (self.new ≡ self.old) }
    {
        self.unsent.push(bytes)?;
        self.narrow_for_much();
        Ok(())
    }

    /// The same of bytes that may change places with the room of what waits.
    pub(crate) fn push_whole(&mut self, bytes: &mut Vec<u8>) -> Result<(), AllocError>
        ensures ok { OnOk result (self.new ≡ pushed bytes.old.items self.old) }
        ensures err { OnErr result (self.new ≡ self.old) }
    {
        self.unsent.push_whole(bytes)?;
        self.narrow_for_much();
        Ok(())
    }

    /// The same of a text that is shared with others.
    pub(crate) fn push_shared(&mut self, text: Rc<Vec<u8>>) -> Result<(), AllocError>
        ensures ok { OnOk result (self.new ≡ pushed text.value.items self.old) }
        ensures err { OnErr result (self.new ≡ self.old) }
    {
        self.unsent.push_shared(text)?;
        self.narrow_for_much();
        Ok(())
    }

    /// Where much waits, less of it is read at once.
    fn narrow_for_much(&mut self)
        ensures { self.new ≡ self.old }
    {
        if self.has_much() {
            self.piece = narrowed(self.piece);
        }
    }

    /// A write moved so many of the bytes that wait.
    pub(crate) fn advance(&mut self, count: usize)
        requires { count ≤ length self.old.waiting }
        ensures { self.new ≡ wrote count self.old }
    {
        self.unsent.advance(count);
    }

    /// A while has passed: room for what waits that isn't needed any more is given back.
    pub(crate) fn rest(&mut self)
        ensures { self.new ≡ self.old }
    {
        self.unsent.rest();
    }

    /// The node's end is closed.
    pub(crate) fn leave(&mut self)
        ensures { self.new ≡ left self.old }
    {
        self.link = None;
    }
}

/// So many bytes are read at once behind large replies.
fn narrowed(piece: usize) -> usize {
    (piece.min(FIRST_PIECE) / 4).max(LEAST_PIECE)
}
