ghost use Rattle.std.specs.Prelude.{◌≡◌, ◌≤◌, ◌<◌, ◌+◌, ◌^◌, IfSome, IsSome, [], length, true, false, None, option_map, OnOk, OnErr};
ghost use Rattle.mr_repl.specs.Backlog.{offset_limit};
ghost use Rattle.mr_follower.specs.State.{IsFollower};
ghost use Rattle.mr_replication.specs.State.{CourseState, IsCourse, CountsUnread, name_of, phase_of, dialled, left, spoiled, promoted, obeys, grows, fed};
ghost use Rattle.mr_replication.specs.Rows.{Listens};

use crate::parts::Parts;
use crate::upstream::{UpstreamFault, UpstreamStep};
use mr_data::Dataset;
use mr_follower::Phase;
use mr_links::LinkId;
use mr_repl::{Lineage, ReplId};
use std::alloc::{AllocError, Global};
use std::hash::RandomState;
use std::marker::Model;

/// Whether a node is a master, whether it has something to continue, its stream, and its reader of what its master sends.
#[derive(Drop)]
pub struct Course {
    parts: Parts,
}

impl Model for Course {
    ghost use Rattle.mr_replication.specs.State.{CourseState, IsCourse};

    ghost Value = { CourseState };

    ghost use Rattle.mr_replication.specs.Codes.{course_code};

    ghost coded = { course_code };

    ghost view = { λ c. c.parts };

    ghost invariant = { λ c. IsCourse c.parts };
}

impl Course {
    /// A course that follows nobody.
    pub fn new(lineage: Lineage, master: bool, offers: bool) -> Course
        ensures { result ≡
            record { master = master; offers = offers; lineage = lineage; follow = None } }
    {
        Course {
            parts: Parts::new(lineage, master, offers),
        }
    }

    /// Whether the node is a master.
    pub fn master(&self) -> bool
        ensures value { result ≡ self.now.master }
        ensures course { IsCourse self.now }
    {
        self.parts.master()
    }

    /// Whether it has something to continue.
    pub fn offers(&self) -> bool
        ensures { result ≡ self.now.offers }
    {
        self.parts.offers()
    }

    /// Its stream.
    pub fn lineage(&self) -> &Lineage
        ensures { result.now ≡ self.now.lineage }
    {
        self.parts.lineage()
    }

    /// The link to the master, where it follows one.
    pub fn name(&self) -> Option<LinkId>
        ensures value { result ≡ name_of self.now.follow }
        ensures course { IsCourse self.now }
    {
        self.parts.name()
    }

    /// What is waited for at the link to the master.
    pub fn phase(&self) -> Option<Phase>
        ensures { result ≡ phase_of self.now.follow }
    {
        self.parts.phase()
    }

    /// The port that is named at the link to the master, where it follows one.
    pub fn port(&self) -> Option<u16>
        ensures port { result ≡ option_map (λ f. f.1.port) self.now.follow }
        ensures follower { IfSome self.now.follow (λ f. IsFollower f.1) }
        ensures bound { IfSome self.now.follow (λ f. f.1.port < 2 ^ 16) }
    {
        self.parts.port()
    }

    /// How many bytes of the master were fed and not used; 0 where none is followed.
    pub fn unread_len(&self) -> u64
        ensures { CountsUnread self.now.follow result }
    {
        self.parts.unread_len()
    }

    /// A replica has a link to a master. It offers to go on from where its stream stands, if it has something to continue, and
    /// names this port. The datasets of snapshots have this seed, which changes no answer.
    pub fn dial(&mut self, alloc: Global, seed: RandomState, name: LinkId, port: u16)
        requires { self.old.master ≡ false }
        ensures { self.new ≡ dialled name port self.old }
    {
        self.parts.dial(alloc, seed, name, port);
    }

    /// The link to the master is gone: it broke, or the replica turns to another.
    pub fn leave(&mut self)
        ensures { self.new ≡ left self.old }
    {
        self.parts.leave();
    }

    /// The link to the master is gone, and nothing is left to continue.
    pub fn spoil(&mut self)
        ensures { self.new ≡ spoiled self.old }
    {
        self.parts.spoil();
    }

    /// The node is a master from now on, and goes on alone under a fresh id.
    pub fn promote(&mut self, fresh: ReplId)
        ensures { self.new ≡ promoted fresh self.old }
    {
        self.parts.promote(fresh);
    }

    /// A master becomes a replica. It has its stream to continue, and follows nobody yet.
    pub fn obey(&mut self)
        requires { self.old.master ≡ true }
        ensures { self.new ≡ obeys self.old }
    {
        self.parts.obey();
    }

    /// A master's stream grows by these bytes.
    pub fn grow(&mut self, bytes: &[u8])
        requires master { self.old.master ≡ true }
        requires within { self.old.lineage.stream.offset + length bytes.now ≤ offset_limit }
        ensures { self.new ≡ grows bytes.now self.old }
    {
        self.parts.grow(bytes);
    }

    /// Takes bytes that the master sent. Where none is followed, nothing changes.
    pub fn feed(&mut self, bytes: &[u8]) -> Result<(), AllocError>
        ensures ok { OnOk result (self.new ≡ fed bytes.now self.old) }
        ensures err { OnErr result (self.new ≡ self.old) }
    {
        self.parts.feed(bytes)
    }

    /// Makes a step at the link to the master, and does with the stream and the dataset what it came to. What is to be sent, what
    /// was applied, or what rebuilds a snapshot is put into `out`.
    pub fn listen(
        &mut self,
        alloc: Global,
        held: &mut Dataset,
        out: &mut Vec<u8>,
    ) -> Result<UpstreamStep, UpstreamFault>
        requires follows { IsSome self.old.follow }
        requires empty { out.old.items ≡ [] }
        ensures { Listens self.old held.old result self.new held.new out.new.items }
    {
        self.parts.listen(alloc, held, out)
    }
}
