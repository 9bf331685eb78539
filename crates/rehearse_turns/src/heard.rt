//! What is kept of the links of a wire.
use mr_links::LinkId;
use mr_wire::{Failed, Moved};
use std::alloc::Global;
use std::net::SocketAddrV4;

/// A link that was asked of a wire, and what went over it.
#[derive(Drop)]
pub struct HeardLink {
    /// None where the wire failed in place of it.
    link: Option<LinkId>,
    is_dialled: bool,
    /// Whom it was dialled to.
    peer: Option<SocketAddrV4>,
    /// So many bytes were read.
    read: usize,
    /// What was written, once it is closed.
    written: Option<Vec<u8>>,
}

impl HeardLink {
    /// Its name, none where the wire failed in place of it.
    pub fn link(&self) -> Option<LinkId> {
        self.link
    }

    /// Whether it has this name.
    fn is(&self, link: LinkId) -> bool {
        match self.link {
            Some(name) => name == link,
            None => false,
        }
    }

    /// Whether this end opened it.
    pub fn is_dialled(&self) -> bool {
        self.is_dialled
    }

    /// Whom it was dialled to.
    pub fn peer(&self) -> Option<SocketAddrV4> {
        self.peer
    }

    /// How many bytes were read.
    pub fn read(&self) -> usize {
        self.read
    }

    /// What was written, none while it is open.
    pub fn written(&self) -> Option<&[u8]> {
        match &self.written {
            Some(bytes) => Some(bytes.as_slice()),
            None => None,
        }
    }
}

/// The links that were asked of a wire, in order.
#[derive(Drop)]
pub struct HeardLinks {
    alloc: Global,
    links: Vec<HeardLink>,
    /// Memory ran out for what was to be kept.
    lacks: bool,
}

impl HeardLinks {
    /// None.
    pub fn new(alloc: Global) -> HeardLinks {
        HeardLinks {
            alloc,
            links: Vec::new(alloc),
            lacks: false,
        }
    }

    /// The links, in the order in which they were asked for.
    pub fn links(&self) -> &[HeardLink] {
        self.links.as_slice()
    }

    /// Whether memory ran out for what was to be kept.
    pub fn lacks_memory(&self) -> bool {
        self.lacks
    }

    /// What an accept came to.
    pub fn accepted(&mut self, accepted: Result<Option<LinkId>, Failed>) {
        match accepted {
            Ok(Some(link)) => self.push(Some(link), false, None),
            Ok(None) => {}
            Err(_failed) => self.push(None, false, None),
        }
    }

    /// What a connect came to, and whom it was to.
    pub fn dialled(&mut self, connected: Result<LinkId, Failed>, peer: Option<SocketAddrV4>) {
        self.push(connected.ok(), true, peer);
    }

    /// Keeps a link, none where the wire failed in place of it, and whom it was dialled to.
    fn push(&mut self, link: Option<LinkId>, is_dialled: bool, peer: Option<SocketAddrV4>) {
        let pushed = self.links.push(HeardLink {
            link,
            is_dialled,
            peer,
            read: 0,
            written: None,
        });
        if pushed.is_err() {
            self.lacks = true;
        }
    }

    /// The place of the link of this name, if it was asked for.
    fn place_of(&self, link: LinkId) -> Option<usize> {
        self.links.iter().position(|heard| heard.is(link))
    }

    /// The link of this name, if it was asked for, to be changed in place.
    fn find(&mut self, link: LinkId) -> Option<&mut HeardLink> {
        let place = self.place_of(link)?;
        self.links.get_mut(place)
    }

    /// What a read came to.
    pub fn read(&mut self, link: LinkId, moved: Moved) {
        let Moved::Bytes(count) = moved else {
            return;
        };
        if let Some(heard) = self.find(link) {
            heard.read = heard.read.saturating_add(count);
        }
    }

    /// A link is closed. Of an open one this was written.
    pub fn closed(&mut self, link: LinkId, written: Option<&[u8]>) {
        let Some(bytes) = written else {
            return;
        };
        let Ok(kept) = Vec::from_slice(self.alloc, bytes) else {
            self.lacks = true;
            return;
        };
        if let Some(heard) = self.find(link) {
            heard.written = Some(kept);
        }
    }
}
