ghost use Rattle.std.specs.Prelude.{◌≡◌, ◌+◌, ◌^◌, ◌<◌, ◌≤◌, ◌↔◌, [], ◌++◌, length, drop, IsTrue, IfOk};
ghost use Rattle.mr_repl.specs.Backlog.{IsWindow, offset_limit, empty_at, after_bytes, first_of, bytes_from};

use circular_buffer::HeapCircularBuffer;
use std::alloc::{AllocError, Allocator, Global};
use std::marker::Model;

/// No offset of a stream is greater.
pub const OFFSET_LIMIT: u64 = 1 << 62;

/// A backlog holds so many bytes where nothing else is said.
pub const USUAL_BACKLOG: usize = 1_048_576;

/// No backlog holds more bytes than these.
pub const MOST_BACKLOG: usize = 1_073_741_824;

/// The last bytes of a replication stream, and the offset of its last byte. An offset counts the stream's bytes
/// from 1. The room is taken at `new`, and only `tail` takes more memory.
#[derive(Drop)]
pub struct Backlog<A: Allocator = Global> {
    ring: HeapCircularBuffer<u8, A>,
    offset: u64,
}

impl<A: Allocator> Model for Backlog<A> {
    ghost use Rattle.mr_repl.specs.Backlog.{Window, IsWindow};

    ghost Value = { Window };

    ghost view = { λ b. record { held = b.ring.items; capacity = b.ring.capacity; offset = b.offset } };

    ghost invariant = { λ b. IsWindow (record { held = b.ring.items; capacity = b.ring.capacity; offset = b.offset }) };
}

impl<A: Allocator> Backlog<A> {
    /// An empty backlog of this capacity in bytes, for a stream whose next byte follows this offset.
    pub fn new(alloc: A, capacity: usize, offset: u64) -> Result<Self, AllocError>
        requires some_room { 0 < capacity }
        requires limited { capacity ≤ 2 ^ 30 }
        requires countable { offset ≤ offset_limit }
        ensures { IfOk result (λ b. b ≡ empty_at capacity offset) }
    {
        let ring = HeapCircularBuffer::with_capacity(alloc, capacity)?;
        Ok(Backlog { ring, offset })
    }

    /// Adds the next bytes of the stream. The oldest bytes give way where there isn't room for all.
    pub fn push(&mut self, bytes: &[u8])
        requires { self.old.offset + length bytes.now ≤ offset_limit }
        ensures { self.new ≡ after_bytes self.old bytes.now }
    {
        self.ring.extend_from_slice(bytes);
        self.offset += bytes.len() as u64;
    }

    /// Drops all bytes, and goes on after this offset.
    pub fn restart(&mut self, offset: u64)
        requires { offset ≤ offset_limit }
        ensures { self.new ≡ empty_at self.old.capacity offset }
    {
        self.ring.clear();
        self.offset = offset;
    }

    /// The most bytes that are held.
    pub fn capacity(&self) -> usize
        ensures capacity { result ≡ self.now.capacity }
        ensures window { IsWindow self.now }
    {
        self.ring.capacity()
    }

    /// How many bytes are held.
    pub fn len(&self) -> usize
        ensures len { result ≡ length self.now.held }
        ensures window { IsWindow self.now }
    {
        self.ring.len()
    }

    /// Whether no byte is held.
    pub fn is_empty(&self) -> bool
        ensures { IsTrue result ↔ (self.now.held ≡ []) }
    {
        self.ring.is_empty()
    }

    /// The offset of the first byte that is held, or of the next byte where none is held.
    pub fn first(&self) -> u64
        ensures first { result ≡ first_of self.now }
        ensures window { IsWindow self.now }
    {
        self.offset + 1 - self.ring.len() as u64
    }

    /// The offset of the last byte.
    pub fn end(&self) -> u64
        ensures end { result ≡ self.now.offset }
        ensures window { IsWindow self.now }
    {
        self.offset
    }

    /// The bytes from this offset on: none where it is that of the next byte.
    pub fn tail<B: Allocator>(&self, alloc: B, from: u64) -> Result<Vec<u8, B>, AllocError>
        requires held { first_of self.now ≤ from }
        requires within { from ≤ self.now.offset + 1 }
        ensures { IfOk result (λ bytes. bytes.items ≡ bytes_from self.now from) }
    {
        let skipped = (from - self.first()) as usize;
        let (front, back) = self.ring.as_slices();
        joined_from(alloc, front, back, skipped)
    }
}

/// Copies both slices, one behind the other, without the first `skipped` bytes.
fn joined_from<A: Allocator>(
    alloc: A,
    front: &[u8],
    back: &[u8],
    skipped: usize,
) -> Result<Vec<u8, A>, AllocError>
    requires room { length front.now + length back.now < 2 ^ 63 }
    requires within { skipped ≤ length front.now + length back.now }
    ensures { IfOk result (λ bytes. bytes.items ≡ drop skipped (front.now ++ back.now)) }
{
    let in_front = skipped.min(front.len());
    let in_back = skipped - in_front;
    let mut bytes = Vec::with_capacity(alloc, front.len() + back.len() - skipped)?;
    bytes.extend_from_slice(&front[in_front..])?;
    bytes.extend_from_slice(&back[in_back..])?;
    Ok(bytes)
}
