// What the program says while it runs, and as it ends.
use crate::lines::{Lines, MOST_LINE};
use crate::stamp::Stamp;
use crate::standard_error::{StandardError, takes_within};
use std::alloc::{AllocError, Global};
use std::fmt;
use std::io::Write;
use std::time::Instant;

/// Notices of one kind that may come often are so many seconds apart at least.
const SECONDS_APART: u64 = 1;

/// The last text waits so many milliseconds for its reader, for each of its pieces.
const LAST_WAIT: i32 = 1_000;

/// Lines on standard error, each with the time in front. One that nobody reads in time is dropped, and how many were is told as soon
/// as lines go out again.
#[derive(Drop)]
pub struct Notices {
    rt: HostRuntime,
    alloc: Global,
    out: StandardError,
    lines: Lines,
}

impl Notices {
    /// Nothing was said yet.
    pub fn new(rt: &HostRuntime) -> Result<Notices, AllocError> {
        let alloc = rt.alloc();
        let of_notices = rt.clone()?;
        let out = StandardError::open(rt.clone()?);
        Ok(Notices {
            rt: of_notices,
            alloc,
            out,
            lines: Lines::new(alloc),
        })
    }

    /// Says a text on a line of its own, or drops it.
    pub fn tell<D: fmt::Display>(&mut self, text: &D) {
        let Ok(stamp) = self.stamp() else {
            self.lines.miss();
            return;
        };
        let Ok(text) = format!(in self.alloc; "{text}") else {
            self.lines.miss();
            return;
        };
        let _goes = self.lines.say(self.alloc, &mut self.out, stamp.as_bytes(), text.as_bytes());
    }

    /// Says how many lines were dropped, where some were and lines go out again.
    pub fn catch_up(&mut self) {
        if !self.lines.is_behind() {
            return;
        }
        let Ok(stamp) = self.stamp() else {
            return;
        };
        let _ready = self
            .lines
            .catch_up(self.alloc, &mut self.out, stamp.as_bytes());
    }

    /// Where it takes memory.
    pub fn alloc(&self) -> Global {
        self.alloc
    }

    /// The moment now, where the clock doesn't fail.
    pub fn now(&self) -> Option<Instant> {
        Instant::now(&self.rt).ok()
    }

    /// What stands in front of a line.
    fn stamp(&self) -> Result<String, AllocError> {
        let now = Stamp::now(&self.rt);
        format!(in self.alloc; "{now} minired: ")
    }
}

/// A notice that may be due often, and is told once a second at most.
#[derive(Drop)]
pub struct Seldom {
    last: Option<Instant>,
}

impl Seldom {
    /// One that wasn't told yet.
    pub fn new() -> Seldom {
        Seldom { last: None }
    }

    /// Tells it where it is due, unless it was told within the last second. It answers whether it did.
    pub fn tell<D: fmt::Display>(&mut self, notices: &mut Notices, due: bool, text: &D) -> bool {
        if !due {
            return false;
        }
        let Some(now) = notices.now() else {
            return false;
        };
        if let Some(last) = self.last
            && now.duration_since(last).as_secs() < SECONDS_APART
        {
            return false;
        }
        self.last = Some(now);
        notices.tell(text);
        true
    }
}

/// Says a last text on standard error, of one line or of several, before the program ends. Who doesn't read it for a second gets no
/// more of it.
pub fn tell_last<D: fmt::Display>(rt: &HostRuntime, text: &D) {
    let Ok(lines) = format!(in rt.alloc(); "{text}\n") else {
        // without memory it goes out as it is spelled
        if takes_within(rt, LAST_WAIT) {
            let _ = eprintln!(rt; "{text}");
        }
        return;
    };
    for piece in lines.as_bytes().chunks(MOST_LINE) {
        if !takes_within(rt, LAST_WAIT) || rt.stderr().write_all(piece).is_err() {
            return;
        }
    }
}
