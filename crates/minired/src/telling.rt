//! What is said after each turn of what came in it.
use crate::following::FollowNotice;
use crate::kept_file::{FileNotice, SeesChange};
use crate::roles::RoleNotice;
use crate::told_wire::{Seen, SeesPeers};
use mr_loop::{Asked, Lacked, Turn};
use mr_node::Node;
use mr_notices::{Notices, Seldom};
use std::fmt;

/// What is told where no descriptor is left.
const LACK: &str = "no more descriptors: links wait to be accepted";

/// How many clients were closed since they left too much unread and aren't told of yet.
#[derive(Drop)]
struct DeafClients {
    untold: u64,
    notice: Seldom,
}

impl DeafClients {
    /// So many more were closed. A notice tells of them, once a second at most.
    fn close(&mut self, notices: &mut Notices, count: u64) {
        self.untold = self.untold.saturating_add(count);
        if self.untold == 0 {
            return;
        }
        if self.notice.tell(notices, true, &deaf_text(self.untold)) {
            self.untold = 0;
        }
    }

    /// The notice about those that aren't told of yet, if there are any.
    fn end(&self, notices: &mut Notices) {
        if self.untold > 0 {
            notices.tell(&deaf_text(self.untold));
        }
    }
}

/// That so many clients were closed since they left too much unread.
fn deaf_text(count: u64) -> CountText {
    CountText {
        front: "clients closed that left more than 64 MiB unread: ",
        count,
    }
}

/// A text with a count behind it.
#[derive(Drop)]
struct CountText {
    front: &'static str,
    count: u64,
}

impl fmt::Display for CountText {
    fn fmt<W: fmt::Write>(&self, f: &mut fmt::Formatter<W>) -> fmt::Result {
        let (front, count) = (self.front, self.count);
        write!(f, "{front}{count}")
    }
}

/// Links that were closed for want of memory, or didn't come about, and aren't told of yet.
#[derive(Drop)]
struct LackNotice {
    untold: u64,
    last: Option<Asked>,
    notice: Seldom,
}

impl LackNotice {
    /// Memory lacked so often in a turn. A notice tells of the links that it cost, and of the last what was asked for, once a second at
    /// most.
    fn look(&mut self, notices: &mut Notices, lacked: Lacked) {
        self.untold = self.untold.saturating_add(lacked.links);
        self.last = lacked.last.or(self.last);
        let Some(asked) = self.last else {
            return;
        };
        let text = LackText {
            count: self.untold,
            asked,
        };
        if self.notice.tell(notices, self.untold > 0, &text) {
            self.untold = 0;
        }
    }
}

/// That so many links were closed for want of memory, and what was asked for as the last was.
#[derive(Drop)]
struct LackText {
    count: u64,
    asked: Asked,
}

impl fmt::Display for LackText {
    fn fmt<W: fmt::Write>(&self, f: &mut fmt::Formatter<W>) -> fmt::Result {
        let count = self.count;
        write!(f, "links closed for want of memory: {count}, the last for ")?;
        match self.asked {
            Asked::Accept => write!(f, "a link that a peer opened"),
            Asked::Dial => write!(f, "the link to the master"),
            Asked::Bytes(size) => write!(f, "{size} bytes that came and weren't read to the end"),
            Asked::Request(size) => write!(f, "a request, of {size} bytes that came"),
            Asked::Copy(size) => write!(f, "the master's copy, of {size} bytes that came"),
            Asked::Stream(size) => write!(f, "the master's stream, of {size} bytes that came"),
        }
    }
}

/// Says what a server's turns came to, on standard error.
#[derive(Drop)]
pub struct Telling {
    notices: Notices,
    seen: Seen,
    lack: Seldom,
    deaf: DeafClients,
    memory: LackNotice,
    following: FollowNotice,
    roles: RoleNotice,
    file: FileNotice,
    idle_timeout: u64,
}

impl Telling {
    /// Nothing was told yet. A client may be idle for so many seconds, or for ever where that is 0.
    pub fn new(notices: Notices, idle_timeout: u64) -> Telling {
        Telling {
            notices,
            seen: Seen::nothing(),
            lack: Seldom::new(),
            deaf: DeafClients {
                untold: 0,
                notice: Seldom::new(),
            },
            memory: LackNotice {
                untold: 0,
                last: None,
                notice: Seldom::new(),
            },
            following: FollowNotice::new(),
            roles: RoleNotice::new(),
            file: FileNotice::new(),
            idle_timeout,
        }
    }

    /// Says a text on a line of its own.
    pub fn tell<D: fmt::Display>(&mut self, text: &D) {
        self.notices.tell(text);
    }

    /// Says what came in the turn that was made last, and how many lines were dropped before, if lines go out again.
    pub fn look<W: SeesPeers, F: SeesChange>(
        &mut self,
        node: &Node,
        wire: &W,
        file: &F,
        told: Turn,
    ) {
        self.notices.catch_up();
        self.look_at_links(wire.seen(), wire.master().timeout());
        self.deaf.close(&mut self.notices, told.deaf);
        self.memory.look(&mut self.notices, told.lacked);
        self.following
            .look(&mut self.notices, node, told.followed, wire.master());
        self.roles.look(&mut self.notices, node);
        self.file.look(&mut self.notices, file);
    }

    /// Says whom the wire hung up on since the last look, and where no descriptor was left. A peer of replication may be silent for so
    /// many seconds.
    fn look_at_links(&mut self, seen: Seen, timeout: u64) {
        let last = self.seen;
        self.seen = seen;
        let lacks = seen.lacking != last.lacking;
        let _ = self.lack.tell(&mut self.notices, lacks, &LACK);
        let replicas = seen.replicas.saturating_sub(last.replicas);
        if replicas > 0 {
            self.tell(&format_args!(
                "replicas hung up that were silent or read nothing for {timeout} s: {replicas}"
            ));
        }
        let idle = seen.idle.saturating_sub(last.idle);
        if idle > 0 {
            let seconds = self.idle_timeout;
            self.tell(&format_args!("clients hung up that were idle for {seconds} s: {idle}"));
        }
        let parting = seen.parting.saturating_sub(last.parting);
        if parting > 0 {
            self.tell(&format_args!(
                "ended links hung up that read nothing of the rest for {timeout} s: {parting}"
            ));
        }
    }

    /// Says what isn't told yet, after the last turn.
    pub fn end(&mut self) {
        self.deaf.end(&mut self.notices);
    }
}
