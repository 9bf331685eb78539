ghost use Rattle.std.specs.Prelude.{◌≡◌, ◌+◌, ◌^◌, ◌<◌, ◌≤◌, length, IfOk};
ghost use Rattle.mr_repl.specs.Backlog.{offset_limit};
ghost use Rattle.mr_repl.specs.Lineage.{begun, grown, renamed, continued, standing_of};

use crate::{Backlog, ReplId, Standing};
use std::alloc::{AllocError, Allocator, Global};
use std::marker::Model;

/// A stream with its names: the id under which it goes on, the id that it had before, and its last bytes. The room is
/// taken at `new`, and no call here takes more memory.
#[derive(Drop)]
pub struct Lineage<A: Allocator = Global> {
    id: ReplId,
    second: Option<(ReplId, u64)>,
    stream: Backlog<A>,
}

impl<A: Allocator> Model for Lineage<A> {
    ghost use Rattle.mr_repl.specs.Lineage.{LineageState, IsLineage};

    ghost Value = { LineageState };

    ghost view = { λ a. record { id = a.id; second = a.second; stream = a.stream } };

    ghost invariant = { λ a. IsLineage (record { id = a.id; second = a.second; stream = a.stream }) };
}

impl<A: Allocator> Lineage<A> {
    ghost use Rattle.mr_repl.specs.Backlog.{IsWindow};
    ghost use Rattle.mr_repl.specs.Lineage.{IsLineage};

    /// A stream under this id whose next byte follows this offset, with a backlog of this capacity in bytes.
    pub fn new(alloc: A, id: ReplId, capacity: usize, offset: u64) -> Result<Self, AllocError>
        requires some_room { 0 < capacity }
        requires limited { capacity ≤ 2 ^ 30 }
        requires countable { offset ≤ offset_limit }
        ensures { IfOk result (λ a. a ≡ begun id capacity offset) }
    {
        let stream = Backlog::new(alloc, capacity, offset)?;
        Ok(Lineage {
            id,
            second: None,
            stream,
        })
    }

    /// The id under which the stream goes on.
    pub fn id(&self) -> ReplId
        ensures { result ≡ self.now.id }
    {
        self.id
    }

    /// The id that the stream had before, and the offset of the first byte that is no longer that one's.
    pub fn second(&self) -> Option<(ReplId, u64)>
        ensures second { result ≡ self.now.second }
        ensures lineage { IsLineage self.now }
    {
        self.second
    }

    /// The last bytes of the stream, and the offset of its last one.
    pub fn stream(&self) -> &Backlog<A>
        ensures { result.now ≡ self.now.stream }
    {
        &self.stream
    }

    /// From where the stream can be continued: what `decide` asks.
    pub fn standing(&self) -> Standing
        ensures { result ≡ standing_of self.now }
    {
        Standing {
            id: self.id,
            offset: self.stream.end(),
            second: self.second,
            first: self.stream.first(),
        }
    }

    /// Adds the next bytes of the stream.
    pub fn grow(&mut self, bytes: &[u8])
        requires { self.old.stream.offset + length bytes.now ≤ offset_limit }
        ensures { self.new ≡ grown self.old bytes.now }
    {
        self.stream.push(bytes);
    }

    /// The stream goes on here alone, under a fresh id. Up to its last byte it is known by its old id too.
    pub fn promote(&mut self, fresh: ReplId)
        ensures { self.new ≡ renamed fresh self.old }
    {
        self.second = Some((self.id, self.stream.end() + 1));
        self.id = fresh;
    }

    /// Another node goes on with the stream, under this id. Where it is the stream's own id, nothing changes.
    pub fn continue_as(&mut self, id: ReplId)
        ensures { self.new ≡ continued id self.old }
    {
        if self.id == id {
            return;
        }
        self.promote(id);
    }

    /// Another stream takes the place of this one: that under this id, from behind this offset on.
    pub fn adopt(&mut self, id: ReplId, offset: u64)
        requires { offset ≤ offset_limit }
        ensures { self.new ≡ begun id self.old.stream.capacity offset }
    {
        self.id = id;
        self.second = None;
        self.stream.restart(offset);
    }
}
