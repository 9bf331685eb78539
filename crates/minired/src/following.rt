//! Lines that say how a replica comes into its master's stream, and what keeps it out.
use crate::master_link::MasterLink;
use crate::roles::{ShownAddress, offset_of};
use mr_loop::Followed;
use mr_node::{Node, Role};
use mr_node_output::Address;
use mr_notices::{Notices, Seldom, Shown};
use std::fmt;
use std::time::{Duration, Instant};

/// So many lines of the handshake are answered before the master is asked how it goes on.
const GREETINGS: u64 = 3;

/// How far a replica has come on its link to its master.
#[derive(Clone, Copy)]
enum Way {
    /// The master hasn't said yet how it goes on.
    Before,
    /// Within a whole copy.
    Copying,
    /// In the stream.
    Streaming,
}

/// What keeps a replica out of its master's stream.
#[derive(Clone, Copy, PartialEq, Eq)]
enum Trouble {
    /// The master can't be dialled.
    Undialled,
    /// The link ended before the master was asked how it goes on.
    Unreached,
    /// It ended after that, and before the master said so.
    ClosedBefore,
    /// It ended within a whole copy.
    LostCopying,
    /// It ended in the stream.
    LostStreaming,
    /// It was hung up, as the master was silent.
    Silent,
    /// The master refused.
    Refused,
    /// It said what it may not.
    BadLine,
    /// Within a whole copy it sent what is none.
    BadCopy,
    /// In the stream it sent no group that can be applied.
    BadStream,
}

/// A trouble that was told, and of whom.
#[derive(Drop)]
struct Told {
    trouble: Trouble,
    of: Address,
}

/// What was told last of a replica on its way into its master's stream.
#[derive(Drop)]
pub struct FollowNotice {
    way: Way,
    /// When the whole copy was announced that comes.
    began: Option<Instant>,
    /// How many lines the master has said on its link that were taken.
    lines: u64,
    /// The offset from which the stream may go on.
    offset: u64,
    dialled: u64,
    undialled: u64,
    lost: u64,
    silent: u64,
    /// That a copy begins.
    copies: Seldom,
    /// What keeps the replica out, and how it was told last since it was in the stream or a copy began.
    troubles: Seldom,
    told: Option<Told>,
}

impl FollowNotice {
    /// Of a node that has followed nobody yet.
    pub fn new() -> FollowNotice {
        FollowNotice {
            way: Way::Before,
            began: None,
            lines: 0,
            offset: 0,
            dialled: 0,
            undialled: 0,
            lost: 0,
            silent: 0,
            copies: Seldom::new(),
            troubles: Seldom::new(),
            told: None,
        }
    }

    /// Tells what came of following a master in the turn that was made last: that a whole copy begins, or is there, that the stream
    /// goes on, that the link was lost, or that the master was left for what it sent.
    pub fn look(
        &mut self,
        notices: &mut Notices,
        node: &Node,
        followed: Followed,
        master: &MasterLink,
    ) {
        let goes_on = master.dialled() == self.dialled;
        let lines = followed.greeted.saturating_add(followed.announced);
        self.lines = self.lines.saturating_add(lines);
        if let Some(address) = node.upstream() {
            self.tell_way(notices, address, node, followed);
            let line = self.refused_line(followed, master);
            if let Some(trouble) = self.trouble(followed, master, line) {
                let text = TroubleLine {
                    of: address,
                    trouble,
                    line,
                    offset: offset_of(node),
                    timeout: master.timeout(),
                };
                self.tell_trouble(notices, &text);
            }
        }
        self.dialled = master.dialled();
        self.undialled = master.undialled();
        self.lost = master.lost();
        self.silent = master.silent();
        self.note(node, goes_on);
    }

    /// Tells of a whole copy that begins or is there, and that the stream goes on.
    fn tell_way(&mut self, notices: &mut Notices, of: &Address, node: &Node, followed: Followed) {
        if followed.announced > 0 {
            self.way = Way::Copying;
            self.began = notices.now();
            let text = format_args!("replica of {}, whole copy begins", ShownAddress(of));
            if self.copies.tell(notices, true, &text) {
                self.told = None;
            }
        }
        if followed.copied > 0 {
            self.way = Way::Streaming;
            self.told = None;
            let bytes = followed.bytes;
            let took = Seconds(self.since(notices));
            // a node that stopped since tells of no keys
            if let Some(keys) = node.key_count() {
                notices.tell(&format_args!(
                    "replica of {}, whole copy of {keys} keys, {bytes} bytes, in {took} s",
                    ShownAddress(of)
                ));
            }
        }
        if followed.continued > 0 {
            self.way = Way::Streaming;
            self.told = None;
            let offset = self.offset;
            notices.tell(&format_args!(
                "replica of {}, goes on from offset {offset}",
                ShownAddress(of)
            ));
        }
    }

    /// How long it is since the whole copy was announced. Where the clock fails no time has passed.
    fn since(&self, notices: &Notices) -> Duration {
        match (self.began, notices.now()) {
            (Some(began), Some(now)) => now.duration_since(began),
            (_, _) => Duration::ZERO,
        }
    }

    /// The line that wasn't taken where the master was left before its stream, and else none. A turn dials behind its reads: what it
    /// heard came on the link that was there before it.
    fn refused_line<'a>(&self, followed: Followed, master: &'a MasterLink) -> &'a [u8] {
        if followed.refused == 0 {
            return &[];
        }
        master.line(master.dialled() == self.dialled, self.lines)
    }

    /// What has kept the replica out of the stream in the last turn, if something has.
    fn trouble(&self, followed: Followed, master: &MasterLink, line: &[u8]) -> Option<Trouble> {
        if followed.spoiled > 0 {
            return Some(Trouble::BadStream);
        }
        if followed.refused > 0 {
            return Some(self.refusal(line));
        }
        if master.silent() != self.silent {
            return Some(Trouble::Silent);
        }
        if master.lost() != self.lost {
            return Some(self.loss());
        }
        if master.undialled() != self.undialled {
            return Some(Trouble::Undialled);
        }
        None
    }

    /// Why the master was left before its stream, by the front of the line that wasn't taken: an error, the length of a copy that is
    /// none, or what may not stand there.
    fn refusal(&self, line: &[u8]) -> Trouble {
        let mark = line.first().copied();
        if mark == Some(b'-') {
            return Trouble::Refused;
        }
        match self.way {
            Way::Copying if mark == Some(b'$') => Trouble::BadCopy,
            Way::Before | Way::Copying | Way::Streaming => Trouble::BadLine,
        }
    }

    /// Where the link was lost.
    fn loss(&self) -> Trouble {
        match self.way {
            Way::Before if self.lines < GREETINGS => Trouble::Unreached,
            Way::Before => Trouble::ClosedBefore,
            Way::Copying => Trouble::LostCopying,
            Way::Streaming => Trouble::LostStreaming,
        }
    }

    /// Tells of a trouble, unless it was told last of this master, and once a second at most.
    fn tell_trouble(&mut self, notices: &mut Notices, text: &TroubleLine<'_>) {
        let (trouble, address) = (text.trouble, text.of);
        let due = !self.was_told(trouble, address);
        if self.troubles.tell(notices, due, text) {
            self.told = match Address::copied(notices.alloc(), address.host(), address.port()) {
                Ok(of) => Some(Told { trouble, of }),
                Err(_refused) => None,
            };
        }
    }

    /// Whether this was told last, of this master.
    fn was_told(&self, trouble: Trouble, address: &Address) -> bool {
        match &self.told {
            Some(told) => told.trouble == trouble && told.of.is(address.host(), address.port()),
            None => false,
        }
    }

    /// Nothing was heard on its link yet.
    fn begin(&mut self) {
        self.way = Way::Before;
        self.lines = 0;
    }

    /// Notes where the node stands behind a turn. On another link it begins anew.
    fn note(&mut self, node: &Node, goes_on: bool) {
        match node.role() {
            Role::Connected => {}
            Role::Sync => {
                self.offset = offset_of(node);
                if !goes_on {
                    self.begin();
                }
            }
            Role::Connect | Role::Master => {
                self.offset = offset_of(node);
                self.begin();
            }
        }
    }
}

/// The line that tells of a trouble, with the line that the master said and that wasn't taken, with the node's offset, and with the
/// seconds for which a master may be silent.
#[derive(Drop)]
struct TroubleLine<'a> {
    of: &'a Address,
    trouble: Trouble,
    line: &'a [u8],
    offset: u64,
    timeout: u64,
}

impl fmt::Display for TroubleLine<'_> {
    fn fmt<W: fmt::Write>(&self, f: &mut fmt::Formatter<W>) -> fmt::Result {
        let of = ShownAddress(self.of);
        let (offset, timeout) = (self.offset, self.timeout);
        let line = Shown(self.line);
        match self.trouble {
            Trouble::Undialled => write!(
                f,
                "replica of {of}, not dialled: its host is no IPv4 address, or no socket is left"
            ),
            Trouble::Unreached => {
                write!(
                    f,
                    "replica of {of}, not reached, or link lost in the handshake"
                )
            }
            Trouble::ClosedBefore => write!(f, "replica of {of}, closed by it before the copy"),
            Trouble::LostCopying => write!(f, "replica of {of}, link lost within a whole copy"),
            Trouble::LostStreaming => write!(f, "replica of {of}, link lost in its stream"),
            Trouble::Silent => {
                write!(f, "replica of {of}, link hung up: silent for {timeout} s")
            }
            Trouble::Refused => write!(f, "replica of {of}, refused by it: {line}"),
            Trouble::BadLine => write!(f, "replica of {of}, left for a bad line: {line}"),
            Trouble::BadCopy => write!(f, "replica of {of}, left for bad bytes in a whole copy"),
            Trouble::BadStream => write!(
                f,
                "replica of {of}, left for bad bytes in its stream behind offset {offset}"
            ),
        }
    }
}

/// A length of time, in seconds and tenths.
#[derive(Drop)]
struct Seconds(Duration);

impl fmt::Display for Seconds {
    fn fmt<W: fmt::Write>(&self, f: &mut fmt::Formatter<W>) -> fmt::Result {
        let seconds = self.0.as_secs();
        let tenths = self.0.subsec_millis() / 100;
        write!(f, "{seconds}.{tenths}")
    }
}
