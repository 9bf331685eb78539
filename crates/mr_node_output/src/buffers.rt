// The buffers of what steps give out.
use mr_links::LinkId;
use std::alloc::Global;

/// More room isn't kept for the next step: as many bytes as a turn of the event loop reads of one connection.
const MOST_ROOM: usize = 4_194_304;

/// Buffers for what a step gives out, which are used again and again. What stands in them says nothing.
#[derive(Drop)]
pub struct Buffers {
    pub(crate) alloc: Global,
    pub(crate) texts: Vec<u8>,
    pub(crate) fed: Vec<LinkId>,
    pub(crate) reply: Vec<u8>,
}

impl Buffers {
    /// Buffers that have no memory yet.
    pub fn new(alloc: Global) -> Buffers {
        Buffers {
            alloc,
            texts: Vec::new(alloc),
            fed: Vec::new(alloc),
            reply: Vec::new(alloc),
        }
    }
}

/// A buffer of a step for the next one. One with much room is given back.
pub(crate) fn spare(alloc: Global, buffer: Vec<u8>) -> Vec<u8> {
    if buffer.capacity() > MOST_ROOM {
        Vec::new(alloc)
    } else {
        buffer
    }
}
