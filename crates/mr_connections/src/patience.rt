// How long a replica leaves its master alone before it dials again.
ghost use Rattle.std.specs.Prelude.{◌≡◌};
ghost use Rattle.mr_connections.specs.Patience.{dialled_at, has_passed, impatient, may_dial, trusting};

use std::marker::Model;

/// So many milliseconds pass behind the first dial before the next.
const LEAST_WAIT: u64 = 100;

/// .. and so many at most, behind later ones.
const MOST_WAIT: u64 = 5_000;

/// When the master was dialled last, and for how long it is left alone then: longer behind each dial that led to no stream.
#[derive(Drop)]
pub struct Patience {
    /// When it was dialled last, in milliseconds. None where it wasn't.
    last: Option<i64>,
    /// For so many milliseconds behind that it isn't dialled again.
    wait: u64,
    /// .. and for so many behind the next dial.
    next: u64,
}

impl Model for Patience {
    ghost use Rattle.mr_connections.specs.Patience.{PatienceState, patience_code};

    ghost Value = { PatienceState };

    ghost coded = { patience_code };

    ghost view = { λ p. record { last = p.last; wait = p.wait; next = p.next } };
}

impl Patience {
    /// A master that was never dialled.
    pub fn new() -> Patience
        ensures { result ≡ impatient }
    {
        Patience {
            last: None,
            wait: LEAST_WAIT,
            next: LEAST_WAIT,
        }
    }

    /// Whether the master may be dialled at this moment: not so soon again, unless the clock stands still or went back.
    pub fn may_dial(&self, now: i64) -> bool
        ensures { result ≡ may_dial self.now now }
    {
        match self.last {
            None => true,
            Some(last) => now <= last || self.wait <= now.abs_diff(last),
        }
    }

    /// The master is dialled at this moment. Where time has passed since the last dial, the wait behind the next one doubles.
    pub fn note(&mut self, now: i64)
        ensures { self.new ≡ dialled_at now self.old }
    {
        let has_passed = self.has_passed(now);
        self.last = Some(now);
        if has_passed {
            self.wait = self.next;
            self.next = self.next.saturating_mul(2).min(MOST_WAIT);
        }
    }

    /// Whether time has passed since the last dial, or there was none.
    fn has_passed(&self, now: i64) -> bool
        ensures { result ≡ has_passed self.now.last now }
    {
        match self.last {
            None => true,
            Some(last) => last < now,
        }
    }

    /// The node is in its master's stream: waits are short again.
    pub fn trust(&mut self)
        ensures { self.new ≡ trusting self.old }
    {
        self.wait = LEAST_WAIT;
        self.next = LEAST_WAIT;
    }
}
