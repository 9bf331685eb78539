ghost use Rattle.std.specs.Prelude.{◌≡◌, ◌≤◌, ◌<◌, ◌+◌, ◌^◌, IfSome, IsSome, [], length, None, option_map, OnOk, OnErr};
ghost use Rattle.mr_repl.specs.Backlog.{offset_limit};
ghost use Rattle.mr_follower.specs.State.{IsFollower, IsOffer};
ghost use Rattle.mr_replication.specs.State.{CourseState, CountsUnread, offer_of, name_of, phase_of, dialled, left, spoiled, promoted, obeys, grows, fed};
ghost use Rattle.mr_replication.specs.Rows.{Listens};
ghost use Rattle.mr_replication.specs.Heard.{place_of as placed, IsCounted, IsReady, IsSound, HeardAs, GivesUp};

use crate::upstream::{UpstreamFault, UpstreamStep};
use mr_data::Dataset;
use mr_follower::{FollowFault, Follower, Heard, Phase};
use mr_links::LinkId;
use mr_repl::{Lineage, ReplId};
use std::alloc::{AllocError, Global};
use std::hash::RandomState;
use std::marker::Model;

/// A course without its invariant: between what the follower heard and what is made of it, that doesn't hold.
#[derive(Drop)]
pub(crate) struct Parts {
    master: bool,
    offers: bool,
    lineage: Lineage,
    follow: Option<(LinkId, Follower)>,
}

impl Model for Parts {
    ghost use Rattle.mr_replication.specs.State.{CourseState};

    ghost Value = { CourseState };

    ghost use Rattle.mr_replication.specs.Codes.{course_code};

    ghost coded = { course_code };

    ghost view = { λ c. record { master = c.master; offers = c.offers; lineage = c.lineage; follow = c.follow } };
}

/// The place in its stream that a snapshot is waited for at.
fn place_of(follower: &Follower) -> Option<(ReplId, u64)>
    ensures value { result ≡ placed follower.now.phase }
    ensures counted { IsCounted result }
{
    match follower.phase() {
        Phase::Snapshot(id, offset) => Some((id, offset)),
        _ => None,
    }
}

impl Parts {
    /// A course that follows nobody.
    pub(crate) fn new(lineage: Lineage, master: bool, offers: bool) -> Parts
        ensures { result ≡
            record { master = master; offers = offers; lineage = lineage; follow = None } }
    {
        Parts {
            master,
            offers,
            lineage,
            follow: None,
        }
    }

    /// Whether the node is a master.
    pub(crate) fn master(&self) -> bool
        ensures { result ≡ self.now.master }
    {
        self.master
    }

    /// Whether it has something to continue.
    pub(crate) fn offers(&self) -> bool
        ensures { result ≡ self.now.offers }
    {
        self.offers
    }

    /// Its stream.
    pub(crate) fn lineage(&self) -> &Lineage
        ensures { result.now ≡ self.now.lineage }
    {
        &self.lineage
    }

    /// The link to the master.
    pub(crate) fn name(&self) -> Option<LinkId>
        ensures { result ≡ name_of self.now.follow }
    {
        match &self.follow {
            Some((name, _)) => Some(*name),
            None => None,
        }
    }

    /// What is waited for there.
    pub(crate) fn phase(&self) -> Option<Phase>
        ensures { result ≡ phase_of self.now.follow }
    {
        match &self.follow {
            Some((_, follower)) => Some(follower.phase()),
            None => None,
        }
    }

    /// The port that is named there.
    pub(crate) fn port(&self) -> Option<u16>
        ensures port { result ≡ option_map (λ f. f.1.port) self.now.follow }
        ensures follower { IfSome self.now.follow (λ f. IsFollower f.1) }
        ensures bound { IfSome self.now.follow (λ f. f.1.port < 2 ^ 16) }
    {
        match &self.follow {
            Some((_, follower)) => Some(follower.port()),
            None => None,
        }
    }

    /// How many bytes were fed there and not used.
    pub(crate) fn unread_len(&self) -> u64
        ensures { CountsUnread self.now.follow result }
    {
        match &self.follow {
            Some((_, follower)) => follower.unread_len(),
            None => 0,
        }
    }

    /// What may be gone on from: the last byte of the stream.
    fn offer(&self) -> Option<(ReplId, u64)>
        ensures value { result ≡ offer_of self.now.offers self.now.lineage }
        ensures counted { IsOffer result }
    {
        if self.offers {
            Some((self.lineage.id(), self.lineage.stream().end()))
        } else {
            None
        }
    }

    /// A link to a master is there.
    pub(crate) fn dial(&mut self, alloc: Global, seed: RandomState, name: LinkId, port: u16)
        ensures { self.new ≡ dialled name port self.old }
    {
        let offer = self.offer();
        self.follow = Some((name, Follower::new(alloc, seed, offer, port)));
    }

    /// It is gone.
    pub(crate) fn leave(&mut self)
        ensures { self.new ≡ left self.old }
    {
        self.follow = None;
    }

    /// It is gone, and nothing is left to continue.
    pub(crate) fn spoil(&mut self)
        ensures { self.new ≡ spoiled self.old }
    {
        self.follow = None;
        self.offers = false;
    }

    /// The node is a master, and goes on alone under a fresh id.
    pub(crate) fn promote(&mut self, fresh: ReplId)
        ensures { self.new ≡ promoted fresh self.old }
    {
        self.follow = None;
        self.master = true;
        self.offers = true;
        self.lineage.promote(fresh);
    }

    /// A master becomes a replica.
    pub(crate) fn obey(&mut self)
        ensures { self.new ≡ obeys self.old }
    {
        self.master = false;
        self.offers = true;
    }

    /// The stream grows by these bytes.
    pub(crate) fn grow(&mut self, bytes: &[u8])
        requires { self.old.lineage.stream.offset + length bytes.now ≤ offset_limit }
        ensures { self.new ≡ grows bytes.now self.old }
    {
        self.lineage.grow(bytes);
    }

    /// Takes bytes that the master sent.
    pub(crate) fn feed(&mut self, bytes: &[u8]) -> Result<(), AllocError>
        ensures ok { OnOk result (self.new ≡ fed bytes.now self.old) }
        ensures err { OnErr result (self.new ≡ self.old) }
    {
        let Some((_, follower)) = &mut self.follow else {
            return Ok(());
        };
        follower.feed(bytes)
    }

    /// Makes a step at the link to the master.
    pub(crate) fn listen(
        &mut self,
        alloc: Global,
        held: &mut Dataset,
        out: &mut Vec<u8>,
    ) -> Result<UpstreamStep, UpstreamFault>
        requires follows { IsSome self.old.follow }
        requires sound { IsSound self.old.follow }
        requires empty { out.old.items ≡ [] }
        ensures { Listens self.old held.old result self.new held.new out.new.items }
    {
        let Some((_, follower)) = &mut self.follow else {
            unreachable!()
        };
        let place = place_of(follower);
        let offset = self.lineage.stream().end();
        match follower.step(alloc, held, offset, out) {
            Ok(heard) => Ok(self.hear(heard, place, held, out.as_slice())),
            Err(fault) => self.give_up(fault),
        }
    }

    /// Does what the follower heard.
    fn hear(
        &mut self,
        heard: Heard,
        place: Option<(ReplId, u64)>,
        held: &mut Dataset,
        out: &[u8],
    ) -> UpstreamStep
        requires { IsReady heard place out.now self.old }
        ensures { HeardAs heard place out.now self.old held.old result self.new held.new }
    {
        match heard {
            Heard::Idle => UpstreamStep::Idle,
            Heard::Say => UpstreamStep::Said,
            Heard::Full(_, _) => UpstreamStep::Announced,
            Heard::Continue(id) => {
                self.lineage.continue_as(id);
                UpstreamStep::Continued
            }
            Heard::Snapshot(loaded) => {
                let Some((id, offset)) = place else {
                    unreachable!()
                };
                *held = loaded;
                self.lineage.adopt(id, offset);
                self.offers = true;
                UpstreamStep::Loaded
            }
            Heard::Applied => {
                self.lineage.grow(out);
                UpstreamStep::Applied
            }
        }
    }

    /// Leaves the master for a fault, or stops.
    fn give_up(&mut self, fault: FollowFault) -> Result<UpstreamStep, UpstreamFault>
        ensures { GivesUp fault self.old result self.new }
    {
        match fault {
            FollowFault::BadLine | FollowFault::Refused => {
                self.leave();
                Ok(UpstreamStep::Left)
            }
            FollowFault::Undecodable => {
                self.spoil();
                Ok(UpstreamStep::Spoiled)
            }
            FollowFault::Memory => Err(UpstreamFault::Memory),
            FollowFault::Spent | FollowFault::Torn => Err(UpstreamFault::Stopped),
        }
    }
}
