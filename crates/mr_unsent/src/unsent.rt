// What waits on a link: bytes of its own, and at most one text that is shared.
ghost use Rattle.std.specs.Prelude.{◌≡◌, ◌++◌, ◌<◌, ◌≤◌, ◌↔◌, [], List, ℕ, length, drop, IsTrue, OnOk, OnErr};
ghost use Rattle.mr_unsent.specs.Limits.{most_unsent};

use crate::queue::Queue;
use std::alloc::{AllocError, Global};
use std::marker::Model;
use std::rc::Rc;

/// A client on whose link more bytes wait is closed in place of its next step: 64 MiB.
const MOST_UNSENT: usize = 67_108_864;

/// The bytes that wait to be sent on a link, in order: bytes of its own, and among them at most one text that is shared with others
/// and isn't copied.
#[derive(Drop)]
pub struct Unsent {
    alloc: Global,
    /// What comes before the text, or all where there is none.
    own: Queue,
    text: Option<Rc<Vec<u8>>>,
    /// How many bytes of the text were moved.
    gone: usize,
    /// What comes after the text. Where there is none this says nothing.
    later: Vec<u8>,
}

impl Model for Unsent {
    ghost use Rattle.std.specs.Prelude.{ℕ, List, ◌++◌, ◌≤◌, length, IfSome};
    ghost use Rattle.std.specs.Option.{option_map};
    ghost use Rattle.mr_unsent.specs.Pieces.{from_text};

    ghost Value = { List ℕ };

    ghost view = { λ u. u.own ++ from_text (option_map (λ t. t.value.items) u.text) u.gone u.later.items };

    ghost invariant = { λ u. IfSome u.text (λ t. u.gone ≤ length t.value.items) };
}

impl Unsent {
    /// Nothing.
    pub fn new(alloc: Global) -> Unsent
        ensures { result ≡ [] }
    {
        Unsent {
            alloc,
            own: Queue::new(alloc),
            text: None,
            gone: 0,
            later: Vec::new(alloc),
        }
    }

    /// What is to be written next: a beginning of what waits, and none of it only where nothing waits.
    pub fn front(&self) -> &[u8]
        ensures begins { (rest : List ℕ) × (self.now ≡ result.now ++ rest) }
        ensures some { result.now ≡ [] → self.now ≡ [] }
    {
        if !self.own.is_empty() {
            return self.own.waiting();
        }
        let Some(text) = &self.text else {
            return &[];
        };
        if self.gone < text.len() {
            return &text[self.gone..];
        }
        self.later.as_slice()
    }

    /// Whether nothing waits.
    pub fn is_empty(&self) -> bool
        ensures { IsTrue result ↔ (self.now ≡ []) }
    {
        is_nothing(self.front())
    }

    /// Whether more bytes wait than this.
    pub fn is_more_than(&self, limit: usize) -> bool
        ensures { IsTrue result ↔ (limit < length self.now) }
    {
        let Some(room) = limit.checked_sub(self.own.waiting().len()) else {
            return true;
        };
        let Some(text) = &self.text else {
            return false;
        };
        let Some(room) = room.checked_sub(text.len() - self.gone) else {
            return true;
        };
        self.later.len() > room
    }

    /// Whether more waits than a client may leave unread.
    pub fn is_too_much(&self) -> bool
        ensures { IsTrue result ↔ (most_unsent < length self.now) }
    {
        self.is_more_than(MOST_UNSENT)
    }

    /// Puts bytes behind what waits.
    pub fn push(&mut self, bytes: &[u8]) -> Result<(), AllocError>
        ensures ok { OnOk result (self.new ≡ self.old ++ bytes.now) }
        ensures err { OnErr result (self.new ≡ self.old) }
    {
        if self.text.is_none() {
            return self.own.push(bytes);
        }
        self.later.extend_from_slice(bytes)?;
        Ok(())
    }

    /// Puts bytes behind what waits. Where nothing does, they aren't copied: they change places with the room that is here, and
    /// what stands in `bytes` then says nothing.
    pub fn push_whole(&mut self, bytes: &mut Vec<u8>) -> Result<(), AllocError>
        ensures ok { OnOk result (self.new ≡ self.old ++ bytes.old.items) }
        ensures err { OnErr result (self.new ≡ self.old) }
    {
        if self.text.is_none() {
            return self.own.push_whole(bytes);
        }
        self.later.extend_from_slice(bytes.as_slice())?;
        Ok(())
    }

    /// Puts a text behind what waits. It isn't copied, unless another that is shared waits already.
    pub fn push_shared(&mut self, text: Rc<Vec<u8>>) -> Result<(), AllocError>
        ensures ok { OnOk result (self.new ≡ self.old ++ text.value.items) }
        ensures err { OnErr result (self.new ≡ self.old) }
    {
        if self.text.is_some() {
            self.later.extend_from_slice(text.as_slice())?;
            return Ok(());
        }
        self.gone = 0;
        self.later.clear();
        self.text = Some(text);
        Ok(())
    }

    /// So many of the bytes that wait were moved.
    #[tactic(auto, using(crate::proofs::Pieces::moved_within, crate::proofs::Pieces::moved_past))]
    pub fn advance(&mut self, count: usize)
        requires { count ≤ length self.old }
        ensures { self.new ≡ drop count self.old }
    {
        let own = self.own.waiting().len();
        if count <= own {
            self.own.advance(count);
            return;
        }
        let Some(text) = &self.text else {
            unreachable!()
        };
        let left = text.len() - self.gone;
        if count - own < left {
            self.own.clear();
            self.gone += count - own;
            return;
        }
        self.text = None;
        self.own.fill(&mut self.later);
        self.later = Vec::new(self.alloc);
        self.own.advance(count - own - left);
    }

    /// Drops what waits.
    pub fn clear(&mut self)
        ensures { self.new ≡ [] }
    {
        self.own.clear();
        self.text = None;
        self.later = Vec::new(self.alloc);
    }

    /// A while has passed. Where nothing waits, and only little of the room was needed for several of them, it is given back.
    pub fn rest(&mut self)
        ensures { self.new ≡ self.old }
    {
        self.own.rest();
    }
}

/// Whether there are no bytes.
fn is_nothing(bytes: &[u8]) -> bool
    ensures { IsTrue result ↔ (bytes.now ≡ []) }
{
    bytes.is_empty()
}
