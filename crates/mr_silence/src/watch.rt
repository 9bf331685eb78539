// What is known of the peer on one link.
ghost use Rattle.std.specs.Prelude.{◌≡◌};
ghost use Rattle.mr_silence.specs.Watching.{came, has_come, idle_cause, led, led_since, opened, silent, untaken_after, went};

use crate::peer::{Cause, Limits, Peer};

/// Whom a link leads to, and when bytes came and went there. Moments are in milliseconds of a clock that never goes back.
#[derive(Clone, Copy, Debug, PartialEq, Eq)]
pub struct Watch {
    peer: Peer,
    /// When bytes came or went last, or when the link was opened.
    moved: u64,
    /// When bytes came last since the peer is who it is. A master counts as heard when it is dialled.
    heard: Option<u64>,
    /// Since when nothing is taken of what waits, where something waits.
    untaken: Option<u64>,
}

impl Watch {
    /// A link to this peer is opened now.
    pub(crate) fn opened(peer: Peer, now: u64) -> Watch
        ensures { result ≡ opened peer now }
    {
        let heard = match peer {
            Peer::Master => Some(now),
            Peer::Client | Peer::Replica | Peer::Parting => None,
        };
        Watch {
            peer,
            moved: now,
            heard,
            untaken: None,
        }
    }

    /// So many bytes came.
    pub(crate) fn came(self, count: usize, now: u64) -> Watch
        ensures { result ≡ came count now self }
    {
        if count == 0 {
            return self;
        }
        Watch {
            peer: self.peer,
            moved: now,
            heard: Some(now),
            untaken: self.untaken,
        }
    }

    /// A write of all that waits, which is so many bytes, moved so many of them.
    pub(crate) fn went(self, waiting: usize, count: usize, now: u64) -> Watch
        ensures { result ≡ went waiting count now self }
    {
        let moved = if count == 0 { self.moved } else { now };
        Watch {
            peer: self.peer,
            moved,
            heard: self.heard,
            untaken: untaken_after(self.untaken, waiting, count, now),
        }
    }

    /// The node says whom the link leads to. Where that is another than before, its silence begins now.
    pub(crate) fn led(self, peer: Peer, now: u64) -> Watch
        ensures { result ≡ led peer now self }
    {
        if peer == self.peer {
            return self;
        }
        let untaken = match self.untaken {
            Some(_) => Some(now),
            None => None,
        };
        Watch {
            peer,
            moved: self.moved,
            heard: None,
            untaken,
        }
    }

    /// Why its peer has been silent for too long, if it has.
    pub(crate) fn silent(self, limits: Limits, now: u64) -> Option<Cause>
        ensures { result ≡ silent limits now self }
    {
        let longest = limits.replication;
        match self.peer {
            Peer::Master if has_come(self.heard, longest, now) => Some(Cause::Master),
            Peer::Replica if has_come(self.heard, longest, now) => Some(Cause::Replica),
            Peer::Replica if has_come(self.untaken, longest, now) => Some(Cause::Replica),
            Peer::Parting if has_come(self.untaken, longest, now) => Some(Cause::Parting),
            Peer::Client | Peer::Parting => idle_cause(limits.clients, self.moved, now),
            Peer::Master | Peer::Replica => None,
        }
    }
}

/// Since when nothing is taken, after a write of all that waits.
fn untaken_after(before: Option<u64>, waiting: usize, count: usize, now: u64) -> Option<u64>
    ensures { result ≡ untaken_after before waiting count now }
{
    if waiting <= count {
        return None;
    }
    if count > 0 {
        return Some(now);
    }
    match before {
        Some(since) => Some(since),
        None => Some(now),
    }
}

/// Whether so much time has passed since a moment, where there was one.
fn has_come(since: Option<u64>, longest: u64, now: u64) -> bool
    ensures { result ≡ has_come since longest now }
{
    match since {
        Some(moment) => longest <= now.saturating_sub(moment),
        None => false,
    }
}

/// Whether a client is idle for too long, where there is a limit.
fn idle_cause(longest: Option<u64>, moved: u64, now: u64) -> Option<Cause>
    ensures { result ≡ idle_cause longest moved now }
{
    match longest {
        Some(longest) if longest <= now.saturating_sub(moved) => Some(Cause::Idle),
        Some(_) | None => None,
    }
}
