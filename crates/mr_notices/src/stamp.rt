// The time that stands in front of a line.
use jiff_core::civil::Date;
use std::fmt;
use std::time::{Duration, SystemTime, UNIX_EPOCH};

const DAY_SECONDS: u64 = 86_400;

const HOUR_SECONDS: u64 = 3_600;

const MINUTE_SECONDS: u64 = 60;

/// The day on which the system's time begins.
const FIRST_DAY: Date = Date {
    year: 1970,
    month: 1,
    day: 1,
};

/// A moment in universal time, as `2026-11-27T03:51:24.123Z`.
#[derive(Drop)]
pub(crate) struct Stamp {
    date: Date,
    second_of_day: u64,
    millis: u32,
}

impl Stamp {
    /// The moment so long behind the beginning of 1970. A day behind the year 9999 counts as the first one.
    fn of(since: Duration) -> Stamp {
        let seconds = since.as_secs();
        let day = (seconds / DAY_SECONDS) as i64;
        Stamp {
            date: Date::from_unix_epoch_day(day).unwrap_or(FIRST_DAY),
            second_of_day: seconds % DAY_SECONDS,
            millis: since.subsec_millis(),
        }
    }

    /// What the system's clock says. One that fails says the beginning of 1970.
    pub(crate) fn now(rt: &HostRuntime) -> Stamp {
        let Ok(time) = SystemTime::now(rt) else {
            return Stamp::of(Duration::ZERO);
        };
        Stamp::of(time.duration_since(UNIX_EPOCH).unwrap_or(Duration::ZERO))
    }
}

impl fmt::Display for Stamp {
    fn fmt<W: fmt::Write>(&self, f: &mut fmt::Formatter<W>) -> fmt::Result {
        let Date { year, month, day } = self.date;
        let hour = self.second_of_day / HOUR_SECONDS;
        let minute = self.second_of_day % HOUR_SECONDS / MINUTE_SECONDS;
        let second = self.second_of_day % MINUTE_SECONDS;
        let millis = self.millis;
        write!(
            f,
            "{year:04}-{month:02}-{day:02}T{hour:02}:{minute:02}:{second:02}.{millis:03}Z"
        )
    }
}
