//! Connections: who holds their ends, and what is on its way.
use mr_links::{LinkId, Side};
use std::alloc::{AllocError, Global};

/// The other side.
pub fn across(side: Side) -> Side {
    match side {
        Side::Opener => Side::Server,
        Side::Server => Side::Opener,
    }
}

/// Which end of which connection.
#[derive(Clone, Copy)]
pub struct Tip {
    /// The connection's number.
    pub number: usize,
    pub side: Side,
}

impl Tip {
    /// Ends stand in this order: by their connections, and the opener's first.
    pub fn rank(self) -> usize {
        let first = self.number.saturating_mul(2);
        match self.side {
            Side::Opener => first,
            Side::Server => first.saturating_add(1),
        }
    }
}

/// Who holds an end of a connection.
#[derive(Clone, Copy)]
pub enum Holder {
    /// Nobody any more.
    Nobody,
    /// A client.
    Client,
    /// Nobody yet.
    Waiting,
    /// Nobody yet, and the server that was asked accepts it in its next turn.
    Asking,
    /// The server with this number, under this name.
    Server(usize, LinkId),
}

/// What is on its way to an end.
#[derive(Drop)]
struct Way {
    bytes: Vec<u8>,
    /// Nothing more will be written.
    is_over: bool,
}

impl Way {
    /// Nothing was written.
    fn new(alloc: Global) -> Way {
        Way {
            bytes: Vec::new(alloc),
            is_over: false,
        }
    }
}

/// A connection.
#[derive(Drop)]
pub struct Connection {
    alloc: Global,
    /// The server that was asked, none where that address is nobody's.
    pub to: Option<usize>,
    opener: Holder,
    other: Holder,
    to_opener: Way,
    to_other: Way,
}

impl Connection {
    /// One that waits for this server to accept it, whose opener is this.
    pub fn new(alloc: Global, opener: Holder, to: Option<usize>) -> Connection {
        Connection {
            alloc,
            to,
            opener,
            other: Holder::Waiting,
            to_opener: Way::new(alloc),
            to_other: Way::new(alloc),
        }
    }

    /// Who holds an end.
    pub fn holder(&self, side: Side) -> Holder {
        match side {
            Side::Opener => self.opener,
            Side::Server => self.other,
        }
    }

    /// An end has another holder.
    pub fn set_holder(&mut self, side: Side, holder: Holder) {
        match side {
            Side::Opener => self.opener = holder,
            Side::Server => self.other = holder,
        }
    }

    /// What is on its way to an end.
    fn way(&self, side: Side) -> &Way {
        match side {
            Side::Opener => &self.to_opener,
            Side::Server => &self.to_other,
        }
    }

    /// .. to be changed.
    fn way_mut(&mut self, side: Side) -> &mut Way {
        match side {
            Side::Opener => &mut self.to_opener,
            Side::Server => &mut self.to_other,
        }
    }

    /// Bytes go on their way to an end, unless nobody holds it any more.
    pub fn push(&mut self, side: Side, bytes: &[u8]) -> Result<(), AllocError> {
        if matches!(self.holder(side), Holder::Nobody) {
            return Ok(());
        }
        self.way_mut(side).bytes.extend_from_slice(bytes)
    }

    /// How many bytes are on their way to an end.
    pub fn on_the_way(&self, side: Side) -> usize {
        self.way(side).bytes.len()
    }

    /// Whether nothing more comes to an end.
    pub fn is_over(&self, side: Side) -> bool {
        let way = self.way(side);
        way.is_over && way.bytes.is_empty()
    }

    /// Takes the first of the bytes that are on their way to an end, at most so many.
    pub fn take(&mut self, side: Side, most: usize) -> Result<Vec<u8>, AllocError> {
        let alloc = self.alloc;
        let bytes = &mut self.way_mut(side).bytes;
        let count = bytes.len().min(most);
        let taken = Vec::from_slice(alloc, &bytes[..count])?;
        bytes.copy_within(count.., 0);
        bytes.truncate(bytes.len() - count);
        Ok(taken)
    }

    /// An end is closed: nothing comes to it any more, and after what was written there the other one hears the end.
    pub fn close(&mut self, side: Side) {
        self.set_holder(side, Holder::Nobody);
        self.way_mut(side).bytes.clear();
        self.way_mut(across(side)).is_over = true;
    }

    /// Whether somebody holds an end, or may yet.
    pub fn is_there(&self) -> bool {
        !matches!(self.opener, Holder::Nobody) || !matches!(self.other, Holder::Nobody)
    }

    /// It breaks: what is on its way is lost.
    pub fn cut(&mut self) {
        self.close(Side::Opener);
        self.close(Side::Server);
    }
}
