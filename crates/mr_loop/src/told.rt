// What a turn tells of itself.
ghost use Rattle.std.specs.Prelude.{◌≡◌, ◌+◌};
ghost use Rattle.mr_loop.specs.Counting.{counted, heard_if, most_ticks, nothing_counted};

use crate::followed::{Followed, News};
use crate::lacking::Lacked;

/// So many ticks may be made in each turn.
const TICKS: u64 = 16;

/// So many keys a tick deletes at most.
const DELETED: u64 = 64;

/// What a turn that ended well tells of itself. Each count stays at 2^64 - 1.
#[derive(Clone, Copy, Debug, PartialEq, Eq)]
pub struct Turn {
    /// How often the node was asked for a step.
    pub steps: u64,
    /// How many of these steps used something of what a peer sent.
    pub done: u64,
    /// How many fresh ids the node took.
    pub used: u64,
    /// How many clients were given up since they left too much unread.
    pub deaf: u64,
    /// A client said SHUTDOWN.
    pub halted: bool,
    /// What came of following a master.
    pub followed: Followed,
    /// How often memory ran out.
    pub lacked: Lacked,
}

impl Turn {
    /// A turn begins: nothing is counted yet.
    pub(crate) fn begun() -> Turn
        ensures { result ≡ nothing_counted }
    {
        Turn {
            steps: 0,
            done: 0,
            used: 0,
            deaf: 0,
            halted: false,
            followed: Followed::none(),
            lacked: Lacked::none(),
        }
    }

    /// Counts a step that the node is asked for.
    pub(crate) fn count_step(&mut self)
        ensures { self.new ≡ record self.old { steps = counted (self.old.steps + 1) } }
    {
        self.steps = self.steps.saturating_add(1);
    }

    /// Counts that such a step used something.
    pub(crate) fn count_use(&mut self)
        ensures { self.new ≡ record self.old { done = counted (self.old.done + 1) } }
    {
        self.done = self.done.saturating_add(1);
    }

    /// Counts a fresh id that the node took.
    pub(crate) fn count_id(&mut self)
        ensures { self.new ≡ record self.old { used = counted (self.old.used + 1) } }
    {
        self.used = self.used.saturating_add(1);
    }

    /// Counts a client that is given up since it left too much unread.
    pub(crate) fn count_deaf(&mut self)
        ensures { self.new ≡ record self.old { deaf = counted (self.old.deaf + 1) } }
    {
        self.deaf = self.deaf.saturating_add(1);
    }

    /// Counts what a step came to between a replica and its master, if there is something.
    pub(crate) fn hear(&mut self, news: Option<News>)
        ensures { self.new ≡ record self.old { followed = heard_if news self.old.followed } }
    {
        if let Some(news) = news {
            self.followed.hear(news);
        }
    }

    /// So many ticks are made at most in a turn with as many steps.
    pub(crate) fn most_ticks(self) -> u64
        ensures { result ≡ most_ticks self.done }
    {
        TICKS + self.done / DELETED
    }

    /// The same, with whether a client said SHUTDOWN, and how often memory ran out.
    pub(crate) fn ended(self, halted: bool, lacked: Lacked) -> Turn
        ensures { result ≡ record self { halted = halted; lacked = lacked } }
    {
        Turn {
            steps: self.steps,
            done: self.done,
            used: self.used,
            deaf: self.deaf,
            halted,
            followed: self.followed,
            lacked,
        }
    }
}
