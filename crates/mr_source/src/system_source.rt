ghost use Rattle.std.specs.Prelude.{◌≡◌, ◌≢◌, ◌≤ℤ◌, ◌-◌, ◌/◌, IfSome};
ghost use Rattle.std.specs.Time.{instant_nanos};
ghost use Rattle.mr_repl.specs.ReplId.{zero_id};
ghost use Rattle.mr_data.specs.Given.{IsMoment};
ghost use Rattle.mr_source.specs.Clocks.{at_half_pace};
ghost use Rattle.mr_source.specs.Drawn.{drawn_at};

use crate::source::Source;
use mr_data::LAST_MOMENT;
use mr_repl::ReplId;
use rand_core::{Rng, SeedableRng};
use rand_xoshiro::Xoshiro256PlusPlus;
use std::io;
use std::io::ErrorKind;
use std::random::RandomSource;
use std::time::{Instant, SystemTime, UNIX_EPOCH};

/// That the system's clock was found below what was told.
#[derive(Clone, Copy)]
struct SetBack {
    /// What had been told then.
    told: i64,
    found: Instant,
    ghost in_range: { IsMoment told },
}

/// The system's clock, and chance from a generator that the system seeded once. None of it is a secret.
///
/// What it tells never goes back. While the system's clock stands below it, since that was set back, it goes on at half the pace, so
/// that deadlines pass.
#[derive(Drop)]
pub struct SystemSource {
    rt: HostRuntime,
    chance: Xoshiro256PlusPlus,
    /// What was told last.
    told: i64,
    /// None while the system's clock isn't below it.
    set_back: Option<SetBack>,
    ghost in_range: { IsMoment told },
}

impl SystemSource {
    /// Fails where the system gives no seed.
    pub fn new(rt: HostRuntime) -> io::Result<SystemSource> {
        let mut seed = [0; 32];
        rt.fill_bytes(&mut seed)?;
        Ok(SystemSource {
            rt,
            chance: Xoshiro256PlusPlus::from_seed(seed),
            told: 0,
            set_back: None,
        })
    }

    /// The system's clock stands below what was told.
    fn go_slowly(&mut self)
        ensures forward { self.old.told ≤ℤ self.new.told }
    {
        let Ok(now) = Instant::now(&self.rt) else {
            return;
        };
        match self.set_back {
            Some(since) => {
                let slow = at_half_pace(since.told, since.found, now);
                if self.told < slow {
                    self.told = slow;
                }
            }
            None => {
                self.set_back = Some(SetBack {
                    told: self.told,
                    found: now,
                });
            }
        }
    }
}

/// So many milliseconds as a moment, the last one where they are more.
fn moment(millis: u128) -> i64
    ensures { IsMoment result }
{
    if millis < LAST_MOMENT as u128 {
        millis as i64
    } else {
        LAST_MOMENT
    }
}

/// The moment that is told after this one at half the pace, from then until now. The last one where it would be later.
fn at_half_pace(from: i64, then: Instant, now: Instant) -> i64
    requires { IsMoment from }
    ensures moment { IsMoment result }
    ensures pace { result ≡
        at_half_pace from ((instant_nanos now - instant_nanos then) / 1_000_000) }
{
    let half = now.duration_since(then).as_millis() / 2;
    let left = LAST_MOMENT - from;
    if half < left as u128 {
        from + half as i64
    } else {
        LAST_MOMENT
    }
}

/// What the system's clock says: 0 before 1970. None where it fails.
fn system_clock(rt: &HostRuntime) -> Option<i64>
    ensures { IfSome result IsMoment }
{
    match SystemTime::now(rt) {
        Ok(time) => match time.duration_since(UNIX_EPOCH) {
            Ok(since) => Some(moment(since.as_millis())),
            Err(_earlier) => Some(0),
        },
        // the kit's error for a clock before 1970
        Err(error) if error.kind() == ErrorKind::InvalidData => Some(0),
        Err(_error) => None,
    }
}

impl Source for SystemSource {
    ghost drawn = { λ s. drawn_at s.told };

    /// A clock that fails says what it said last.
    fn now(&mut self) -> i64 {
        if let Some(clock) = system_clock(&self.rt) {
            if self.told <= clock {
                self.told = clock;
                self.set_back = None;
            } else {
                self.go_slowly();
            }
        }
        self.told
    }

    fn word(&mut self) -> u64 {
        self.chance.next_u64()
    }

    fn id(&mut self) -> ReplId {
        let mut bytes = [0; 20];
        self.chance.fill_bytes(&mut bytes);
        let id = ReplId::new(bytes);
        if id.is_zeros() {
            return ReplId::new([1; 20]);
        }
        id
    }
}
