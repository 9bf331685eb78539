// The peers on all links of a wire.
ghost use Rattle.std.specs.Prelude.{◌≡◌, ◌<◌, ◌+◌, ◌-◌, ◌^◌, ℕ, if◌then◌else◌, min, nat_le, None, OnErr, OnOk, length, slice_index_or};
ghost use Rattle.mr_silence.specs.Places.{BeginsWatch, ChangesWatch, ForgetsWatch, SamePlaces, link_in, silent_in, with_watch, without_watch};
ghost use Rattle.mr_silence.specs.Watching.{came, led, opened, went};

use crate::peer::{Cause, Limits, Peer};
use crate::watch::Watch;
use mr_links::LinkId;
use std::alloc::{AllocError, Global};

/// What passes from one wait to the next counts as so many milliseconds at most, as long as a turn waits: in a longer turn nothing
/// was read for a while, which says nothing of a peer.
const LONGEST_STEP: u64 = 100;

/// The peers are looked at once in so many milliseconds.
const LOOKED_AFTER: u64 = 1_000;

/// A link that is watched.
#[derive(Clone, Copy)]
pub(crate) struct Place {
    link: LinkId,
    watch: Watch,
}

/// The peers on a wire's links, each in its link's place, and a clock that goes on from wait to wait. What the system's time is,
/// and that it is changed, means nothing to it.
#[derive(Drop)]
pub struct Silence {
    places: Vec<Option<Place>>,
    limits: Limits,
    /// How many milliseconds have passed.
    clock: u64,
    /// When the peers were looked at last.
    looked: u64,
}

impl Silence {
    /// No peers.
    pub fn new(alloc: Global, limits: Limits) -> Silence
        ensures none { (k : ℕ) → slice_index_or result.places.items k None ≡ None }
        ensures limits { result.limits ≡ limits }
        ensures clock { result.clock ≡ 0 }
    {
        Silence {
            places: Vec::new(alloc),
            limits,
            clock: 0,
            looked: 0,
        }
    }

    /// A wait begins, so many milliseconds after the last one began.
    pub fn pass(&mut self, millis: u64)
        ensures clock { self.new.clock ≡ min (self.old.clock + min millis 100) (2 ^ 64 - 1) }
        ensures same { self.new.places ≡ self.old.places }
    {
        self.clock = self.clock.saturating_add(millis.min(LONGEST_STEP));
    }

    /// Whether the peers are to be looked at now, as once a second.
    pub fn is_due(&mut self) -> bool
        ensures due { result ≡ nat_le 1000 (self.old.clock - self.old.looked) }
        ensures looked { self.new.looked ≡ (if result then self.old.clock else self.old.looked) }
        ensures same { self.new.places ≡ self.old.places }
        ensures clock { self.new.clock ≡ self.old.clock }
    {
        if self.clock.saturating_sub(self.looked) < LOOKED_AFTER {
            return false;
        }
        self.looked = self.clock;
        true
    }

    /// How many places there are.
    pub fn len(&self) -> usize
        ensures { result ≡ length self.now.places.items }
    {
        self.places.len()
    }

    /// The link that is watched in a place, if one is.
    pub fn link_at(&self, index: usize) -> Option<LinkId>
        ensures { result ≡ link_in (slice_index_or self.now.places.items index None) }
    {
        match self.places.get(index) {
            Some(Some(place)) => Some(place.link),
            Some(None) | None => None,
        }
    }

    /// The link in a place, and why its peer has been silent for too long, if it has.
    pub fn silent_at(&self, index: usize) -> Option<(LinkId, Cause)>
        ensures { result ≡
            silent_in self.now.limits self.now.clock
            (slice_index_or self.now.places.items index None) }
    {
        match self.places.get(index) {
            Some(Some(place)) => match place.watch.silent(self.limits, self.clock) {
                Some(cause) => Some((place.link, cause)),
                None => None,
            },
            Some(None) | None => None,
        }
    }

    /// A link to this peer is opened: it is watched from now on. Where memory is lacking it isn't.
    pub fn open(&mut self, link: LinkId, peer: Peer) -> Result<(), AllocError>
        ensures ok { OnOk result
            (BeginsWatch link (opened peer self.old.clock) self.old.places.items
            self.new.places.items) }
        ensures err { OnErr result (SamePlaces self.old.places.items self.new.places.items) }
        ensures clock { self.new.clock ≡ self.old.clock }
    {
        let watch = Watch::opened(peer, self.clock);
        fill_to(&mut self.places, link.index)?;
        self.places[link.index] = Some(Place { link, watch });
        Ok(())
    }

    /// So many bytes came on a link.
    pub fn came(&mut self, link: LinkId, count: usize)
        ensures watches { ChangesWatch link (came count self.old.clock) self.old.places.items
            self.new.places.items }
        ensures clock { self.new.clock ≡ self.old.clock }
    {
        let now = self.clock;
        if let Some(place) = self.places.get_mut(link.index) {
            *place = came_in(*place, link, count, now);
        }
    }

    /// A write of all that waits on a link, which is so many bytes, moved so many of them.
    pub fn went(&mut self, link: LinkId, waiting: usize, count: usize)
        ensures watches { ChangesWatch link (went waiting count self.old.clock)
            self.old.places.items self.new.places.items }
        ensures clock { self.new.clock ≡ self.old.clock }
    {
        let now = self.clock;
        if let Some(place) = self.places.get_mut(link.index) {
            *place = went_in(*place, link, waiting, count, now);
        }
    }

    /// The node says whom a link leads to.
    pub fn lead(&mut self, link: LinkId, peer: Peer)
        ensures watches { ChangesWatch link (led peer self.old.clock) self.old.places.items
            self.new.places.items }
        ensures clock { self.new.clock ≡ self.old.clock }
    {
        let now = self.clock;
        if let Some(place) = self.places.get_mut(link.index) {
            *place = led_in(*place, link, peer, now);
        }
    }

    /// A link is closed, or hung up: it isn't watched any more.
    pub fn forget(&mut self, link: LinkId)
        ensures watches { ForgetsWatch link self.old.places.items self.new.places.items }
        ensures clock { self.new.clock ≡ self.old.clock }
    {
        if let Some(place) = self.places.get_mut(link.index) {
            *place = forgotten_in(*place, link);
        }
    }
}

/// A place in which bytes came, if they came on its link.
fn came_in(place: Option<Place>, link: LinkId, count: usize, now: u64) -> Option<Place>
    ensures { result ≡ with_watch link (came count now) place }
{
    match place {
        Some(Place { link: name, watch }) if name == link => Some(Place {
            link: name,
            watch: watch.came(count, now),
        }),
        Some(_) | None => place,
    }
}

/// A place after a write, if it was on its link.
fn went_in(
    place: Option<Place>,
    link: LinkId,
    waiting: usize,
    count: usize,
    now: u64,
) -> Option<Place>
    ensures { result ≡ with_watch link (went waiting count now) place }
{
    match place {
        Some(Place { link: name, watch }) if name == link => Some(Place {
            link: name,
            watch: watch.went(waiting, count, now),
        }),
        Some(_) | None => place,
    }
}

/// A place of whose link the node says whom it leads to, if it is this link.
fn led_in(place: Option<Place>, link: LinkId, peer: Peer, now: u64) -> Option<Place>
    ensures { result ≡ with_watch link (led peer now) place }
{
    match place {
        Some(Place { link: name, watch }) if name == link => Some(Place {
            link: name,
            watch: watch.led(peer, now),
        }),
        Some(_) | None => place,
    }
}

/// A place without this link.
fn forgotten_in(place: Option<Place>, link: LinkId) -> Option<Place>
    ensures { result ≡ without_watch link place }
{
    match place {
        Some(known) if known.link == link => None,
        Some(_) | None => place,
    }
}

/// Makes as many places as it takes for this one.
fn fill_to(places: &mut Vec<Option<Place>>, place: usize) -> Result<(), AllocError>
    ensures room { OnOk result (place < length places.new.items) }
    ensures same { SamePlaces places.old.items places.new.items }
{
    while places.len() <= place {
        places.push(None)?;
    }
    Ok(())
}
