// One direction of a link.
ghost use Rattle.std.specs.Prelude.{◌≡◌, ◌≢◌, ◌+◌, ◌≤◌, ◌↔◌, [], length, take, drop, IfOk, IsTrue, OnOk, OnErr};
ghost use Rattle.law_refinement.specs.Way.{left_on, no_way, sent_on, taken_on};
ghost use Rattle.mr_world_parts.specs.Lending.{taken_in};
ghost use Rattle.mr_world_parts.specs.Undoing.{unsent};

use crate::entry::front_of;
use std::alloc::{AllocError, Global};
use std::marker::Model;

/// One direction of a link: the bytes that were sent, how many of them were taken, and how many of those were used.
#[derive(Drop)]
pub struct Way {
    sent: Vec<u8>,
    taken: usize,
    used: usize,
}

impl Model for Way {
    ghost use Rattle.law_refinement.specs.Way.{WayState};

    ghost Value = { WayState };

    ghost view = { λ w. record { sent = w.sent.items; taken = w.taken; used = w.used } };
}

impl Way {
    /// A direction in which nothing was sent.
    pub(crate) fn new(alloc: Global) -> Way
        ensures { result ≡ no_way }
    {
        Way {
            sent: Vec::new(alloc),
            taken: 0,
            used: 0,
        }
    }

    /// A direction in which this was sent.
    pub fn begun(alloc: Global, bytes: &[u8]) -> Result<Way, AllocError>
        ensures { IfOk result (λ w. w ≡ sent_on bytes.now no_way) }
    {
        let mut way = Way::new(alloc);
        way.send(bytes)?;
        Ok(way)
    }

    /// More is sent.
    pub(crate) fn send(&mut self, bytes: &[u8]) -> Result<(), AllocError>
        ensures ok { OnOk result (self.new ≡ sent_on bytes.now self.old) }
        ensures err { OnErr result (self.new ≡ self.old) }
        ensures some { OnErr result (bytes.now ≢ []) }
    {
        self.sent.extend_from_slice(bytes)?;
        Ok(())
    }

    /// The last bytes weren't sent, so many.
    pub(crate) fn unsend(&mut self, count: usize)
        ensures { self.new ≡ unsent count self.old }
    {
        let kept = self.sent.len().saturating_sub(count);
        self.sent.truncate(kept);
    }

    /// So many of the bytes that were taken are left unread.
    pub(crate) fn leave(&mut self, left: usize)
        ensures { self.new ≡ left_on left self.old }
    {
        self.used = self.taken.saturating_sub(left);
    }

    /// Whether so many bytes more were sent.
    pub(crate) fn has(&self, count: usize) -> bool
        ensures { IsTrue result ↔ (self.now.taken + count ≤ length self.now.sent) }
    {
        self.taken <= self.sent.len() && count <= self.sent.len() - self.taken
    }

    /// The next bytes that are to be taken.
    pub(crate) fn next(&self, count: usize) -> &[u8]
        requires { self.now.taken + count ≤ length self.now.sent }
        ensures { result.now ≡ take count (drop self.now.taken self.now.sent) }
    {
        next_of(self.sent.as_slice(), self.taken, count)
    }

    /// All bytes that were taken.
    pub(crate) fn taken(&self) -> &[u8]
        ensures { result.now ≡ taken_in self.now }
    {
        front_of(self.sent.as_slice(), self.taken as u64)
    }

    /// They are taken.
    pub(crate) fn take(&mut self, count: usize)
        requires { self.old.taken + count ≤ length self.old.sent }
        ensures { self.new ≡ taken_on count self.old }
    {
        self.taken += count;
    }
}

/// So many bytes, from this place on.
fn next_of(sent: &[u8], taken: usize, count: usize) -> &[u8]
    requires { taken + count ≤ length sent.now }
    ensures { result.now ≡ take count (drop taken sent.now) }
{
    let (_, rest) = sent.split_at(taken);
    let (front, _) = rest.split_at(count);
    front
}
