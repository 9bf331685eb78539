// When keys expire.
ghost use Rattle.std.specs.Prelude.{◌≡◌, ◌≤ℤ◌, ◌^◌, pos, IsTrue};
ghost use Rattle.mr_arguments.specs.Amounts.{is_amount, milliseconds_of, of_seconds, seconds_of};
ghost use Rattle.mr_arguments.specs.Expiry.{deadline_at, expiry_of, milliseconds, within_limit};

use crate::{AskFault, ExpiringCommand};
use std::marker::Model;

/// The most milliseconds that a request may name. The least is its negative.
const MOST: i64 = 1 << 61;

/// When a key expires, as a request says it.
#[derive(Clone, Copy)]
pub enum Expiry {
    /// So many seconds from now on.
    Seconds(Seconds),
    /// So many milliseconds from now on.
    Milliseconds(Milliseconds),
    /// At this second.
    AtSecond(Seconds),
    /// At this millisecond.
    AtMillisecond(Milliseconds),
}

impl Expiry {
    /// In milliseconds.
    pub fn milliseconds(self) -> i64
        ensures value { result ≡ milliseconds self }
        ensures within { IsTrue (is_amount (milliseconds self)) }
    {
        match self {
            Expiry::Seconds(seconds) | Expiry::AtSecond(seconds) => seconds.milliseconds(),
            Expiry::Milliseconds(milliseconds) | Expiry::AtMillisecond(milliseconds) => {
                milliseconds.number()
            }
        }
    }

    /// The moment from which on the key is expired, where it is said at the moment `now`. No moment is later than
    /// `last_moment` of `mr_data`, a crate that isn't seen here.
    pub fn deadline(self, now: i64) -> i64
        requires { (pos 0 ≤ℤ now) × (now ≤ℤ pos (2 ^ 61)) }
        ensures value { result ≡ deadline_at now self }
        ensures within { IsTrue (is_amount (milliseconds self)) }
    {
        match self {
            Expiry::Seconds(_) | Expiry::Milliseconds(_) => now + self.milliseconds(),
            Expiry::AtSecond(_) | Expiry::AtMillisecond(_) => self.milliseconds(),
        }
    }
}

/// What a number of a request says of a deadline.
#[derive(Clone, Copy)]
pub enum ExpiryUnit {
    /// So many seconds from now on.
    Seconds,
    /// So many milliseconds from now on.
    Milliseconds,
    /// The second.
    AtSecond,
    /// The millisecond.
    AtMillisecond,
}

impl ExpiryUnit {
    /// So many of this unit, if they are within the limit.
    pub fn expiry(self, number: i64) -> Option<Expiry>
        ensures { result ≡ expiry_of self number }
    {
        match self {
            ExpiryUnit::Seconds => Some(Expiry::Seconds(Seconds::new(number)?)),
            ExpiryUnit::Milliseconds => Some(Expiry::Milliseconds(Milliseconds::new(number)?)),
            ExpiryUnit::AtSecond => Some(Expiry::AtSecond(Seconds::new(number)?)),
            ExpiryUnit::AtMillisecond => Some(Expiry::AtMillisecond(Milliseconds::new(number)?)),
        }
    }
}

/// So many of a unit, which are within the limit, or else the fault of this command.
pub fn within_limit(
    command: ExpiringCommand,
    unit: ExpiryUnit,
    number: i64,
) -> Result<Expiry, AskFault>
    ensures { result ≡ within_limit command unit number }
{
    unit.expiry(number).ok_or(AskFault::ExpireTime(command))
}

/// Seconds that a request names, seen as their number. In milliseconds they are from -2^61 to 2^61.
#[derive(Clone, Copy)]
pub struct Seconds {
    number: i64,
}

impl Model for Seconds {
    ghost use Rattle.std.specs.Prelude.{ℤ, IsTrue};
    ghost use Rattle.mr_arguments.specs.Amounts.{is_amount, of_seconds};

    ghost Value = { ℤ };

    ghost view = { λ a. a.number };

    ghost invariant = { λ a. IsTrue (is_amount (of_seconds a.number)) };

    ghost inverse = { λ n. record { number = n } };
}

impl Seconds {
    /// So many seconds, if they are within the limit.
    pub fn new(number: i64) -> Option<Seconds>
        ensures { result ≡ seconds_of number }
    {
        if are_seconds(number) {
            Some(Seconds { number })
        } else {
            None
        }
    }

    /// So many seconds in milliseconds.
    fn milliseconds(self) -> i64
        ensures value { result ≡ of_seconds self }
        ensures within { IsTrue (is_amount (of_seconds self)) }
    {
        self.number * 1000
    }
}

/// Milliseconds that a request names, seen as their number. They are from -2^61 to 2^61.
#[derive(Clone, Copy)]
pub struct Milliseconds {
    number: i64,
}

impl Model for Milliseconds {
    ghost use Rattle.std.specs.Prelude.{ℤ, IsTrue};
    ghost use Rattle.mr_arguments.specs.Amounts.{is_amount};

    ghost Value = { ℤ };

    ghost view = { λ a. a.number };

    ghost invariant = { λ a. IsTrue (is_amount a.number) };

    ghost inverse = { λ n. record { number = n } };
}

impl Milliseconds {
    /// So many milliseconds, if they are within the limit.
    pub fn new(number: i64) -> Option<Milliseconds>
        ensures { result ≡ milliseconds_of number }
    {
        if is_amount(number) {
            Some(Milliseconds { number })
        } else {
            None
        }
    }

    /// How many there are.
    fn number(self) -> i64
        ensures value { result ≡ self }
        ensures within { IsTrue (is_amount self) }
    {
        self.number
    }
}

/// Whether so many milliseconds are within the limit.
fn is_amount(number: i64) -> bool
    ensures { result ≡ is_amount number }
{
    (-MOST..=MOST).contains(&number)
}

/// Whether so many seconds are within the limit.
fn are_seconds(number: i64) -> bool
    ensures { result ≡ is_amount (of_seconds number) }
{
    match number.checked_mul(1000) {
        Some(milliseconds) => is_amount(milliseconds),
        None => false,
    }
}
