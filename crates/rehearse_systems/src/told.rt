//! What a wire was asked for in a turn.
use crate::connection::Tip;
use mr_links::LinkId;
use mr_wire::Moved;
use std::alloc::Global;
use std::mem;
use std::net::SocketAddrV4;

/// An end that was opened, and its name. One that wasn't accepted was dialled, to this peer.
#[derive(Clone, Copy)]
pub struct Opened {
    pub tip: Tip,
    pub link: LinkId,
    pub peer: Option<SocketAddrV4>,
}

/// What was written at an end.
#[derive(Drop)]
pub struct Written {
    pub tip: Tip,
    pub bytes: Vec<u8>,
}

/// What a wire was asked for since this was taken last, in the order of the calls.
#[derive(Drop)]
pub struct Told {
    alloc: Global,
    pub opened: Vec<Opened>,
    pub written: Vec<Written>,
    pub closed: Vec<Tip>,
    /// Memory ran out for what was to be kept.
    pub lacks: bool,
}

impl Told {
    /// Nothing was asked.
    pub fn new(alloc: Global) -> Told {
        Told {
            alloc,
            opened: Vec::new(alloc),
            written: Vec::new(alloc),
            closed: Vec::new(alloc),
            lacks: false,
        }
    }

    /// What was told so far, which is forgotten here.
    pub fn take(&mut self) -> Told {
        let fresh = Told::new(self.alloc);
        mem::replace(self, fresh)
    }

    /// An end was opened.
    pub fn open(&mut self, opened: Opened) {
        if self.opened.push(opened).is_err() {
            self.lacks = true;
        }
    }

    /// What a write of these bytes came to.
    pub fn write(&mut self, tip: Tip, bytes: &[u8], moved: Moved) {
        let Moved::Bytes(count) = moved else {
            return;
        };
        let Ok(bytes) = Vec::from_slice(self.alloc, &bytes[..count.min(bytes.len())]) else {
            self.lacks = true;
            return;
        };
        if self.written.push(Written { tip, bytes }).is_err() {
            self.lacks = true;
        }
    }

    /// An end was closed.
    pub fn close(&mut self, tip: Tip) {
        if self.closed.push(tip).is_err() {
            self.lacks = true;
        }
    }
}
