//! What a wire sees of its node's link to a master.
use mr_links::LinkId;
use mr_notices::{MOST_SHOWN, shown_byte};
use mr_wire::{Failed, Moved};
use std::alloc::Global;
use std::mem;

/// So many bytes are kept of what the master said first.
const KEPT: usize = 1024;

/// The link that the node dialled last, and how often such links came and went.
#[derive(Drop)]
pub struct MasterLink {
    alloc: Global,
    link: Option<LinkId>,
    dialled: u64,
    undialled: u64,
    lost: u64,
    /// So many of the lost were hung up.
    silent: u64,
    /// So many seconds a master may be silent.
    timeout: u64,
    /// The link was hung up, and its end wasn't found yet.
    hung_up: bool,
    /// What the master said first, also once the link is closed.
    heard: Vec<u8>,
    /// The same of the link before.
    earlier: Vec<u8>,
}

impl MasterLink {
    /// None was dialled yet. A master may be silent for so many seconds.
    pub fn new(alloc: Global, timeout: u64) -> MasterLink {
        MasterLink {
            alloc,
            link: None,
            dialled: 0,
            undialled: 0,
            lost: 0,
            silent: 0,
            timeout,
            hung_up: false,
            heard: Vec::new(alloc),
            earlier: Vec::new(alloc),
        }
    }

    /// How many links were dialled.
    pub fn dialled(&self) -> u64 {
        self.dialled
    }

    /// How often none could be dialled.
    pub fn undialled(&self) -> u64 {
        self.undialled
    }

    /// How many of them the master ended, or failed, before they were closed here.
    pub fn lost(&self) -> u64 {
        self.lost
    }

    /// How many of those that were lost were hung up, as the master was silent.
    pub fn silent(&self) -> u64 {
        self.silent
    }

    /// For how many seconds a master may be silent.
    pub fn timeout(&self) -> u64 {
        self.timeout
    }

    /// The front of the line behind so many that the master said on the link that was dialled last, or on the one before. What can't be
    /// shown is left out, and it is empty where the line wasn't kept.
    pub fn line(&self, is_last: bool, before: u64) -> &[u8] {
        let mut rest = self.heard_on(is_last);
        for _ in 0..before {
            rest = behind_line(rest);
        }
        line_in(rest)
    }

    /// What the master said first on the link that was dialled last, or on the one before.
    fn heard_on(&self, is_last: bool) -> &[u8] {
        if is_last {
            return self.heard.as_slice();
        }
        self.earlier.as_slice()
    }

    /// A link was dialled, or couldn't be.
    pub fn connected(&mut self, connected: Result<LinkId, Failed>) {
        match connected {
            Ok(link) => {
                self.link = Some(link);
                self.hung_up = false;
                self.dialled = self.dialled.saturating_add(1);
                self.earlier = mem::replace(&mut self.heard, Vec::new(self.alloc));
            }
            Err(_failed) => self.undialled = self.undialled.saturating_add(1),
        }
    }

    /// What a read on a link came to, into this buffer.
    pub fn read(&mut self, link: LinkId, moved: Moved, into: &[u8]) {
        if !self.is(link) {
            return;
        }
        match moved {
            Moved::Bytes(count) => self.keep(&into[..count.min(into.len())]),
            Moved::NotReady => {}
            Moved::End | Moved::Failed => self.lose(),
        }
    }

    /// What a write on a link came to. Of a master that takes no more, reads tell.
    pub fn written(&mut self, link: LinkId, moved: Moved) {
        if self.is(link) && moved == Moved::Failed {
            self.lose();
        }
    }

    /// A link is hung up, since the master is silent.
    pub fn hang_up(&mut self, link: LinkId) {
        self.hung_up = self.hung_up || self.is(link);
    }

    /// A link is closed here.
    pub fn closed(&mut self, link: LinkId) {
        if self.is(link) {
            self.link = None;
        }
    }

    /// Whether the link that was dialled last has this name, and neither ended nor was closed.
    pub fn is(&self, link: LinkId) -> bool {
        match self.link {
            Some(name) => name == link,
            None => false,
        }
    }

    /// It ended, or failed. That is counted once.
    fn lose(&mut self) {
        self.link = None;
        self.lost = self.lost.saturating_add(1);
        if self.hung_up {
            self.silent = self.silent.saturating_add(1);
        }
    }

    /// Keeps these bytes, as many as are kept. Where memory is lacking, fewer.
    fn keep(&mut self, bytes: &[u8]) {
        for byte in bytes {
            if self.heard.len() >= KEPT || self.heard.push(shown(*byte)).is_err() {
                return;
            }
        }
    }
}

/// The byte as it is kept: the end of a line, or what can be shown.
fn shown(byte: u8) -> u8 {
    if is_end(byte) { byte } else { shown_byte(byte) }
}

/// Whether this is of a line's end.
fn is_end(byte: u8) -> bool {
    byte == b'\r' || byte == b'\n'
}

/// What stands behind the first line, if that is whole.
fn behind_line(bytes: &[u8]) -> &[u8] {
    for at in 0..bytes.len() {
        if bytes[at] == b'\n' {
            return &bytes[at + 1..];
        }
    }
    &[]
}

/// The front of the first line.
fn line_in(bytes: &[u8]) -> &[u8] {
    for at in 0..bytes.len() {
        if at == MOST_SHOWN || is_end(bytes[at]) {
            return &bytes[..at];
        }
    }
    bytes
}
