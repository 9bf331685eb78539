// Standard error, at which nobody waits.
ghost use Rattle.std.specs.Prelude.{◌≤◌};

use crate::outlet::Outlet;
use libc::net::{POLLERR, POLLHUP, POLLNVAL, POLLOUT, poll};
use libc::types::pollfd;
use std::fs::{File, OpenOptions};
use std::io;
use std::io::{IsTerminal, Write};
use std::os::fd::AsRawFd;

/// Where the system has what standard error is open on, to be opened once more.
const SAME_AGAIN: &str = "/proc/self/fd/2";

/// Standard error. A terminal is opened once more where that can be had, so that a write there fails in place of a wait and the
/// shell's own opening stays as it is; of anything else the system is asked before each write whether it takes bytes.
#[derive(Drop)]
pub(crate) struct StandardError {
    rt: HostRuntime,
    terminal: Option<File>,
}

impl StandardError {
    /// Standard error as it is open now.
    pub(crate) fn open(rt: HostRuntime) -> StandardError {
        let terminal = if rt.stderr().is_terminal() {
            opened_again(&rt)
        } else {
            None
        };
        StandardError { rt, terminal }
    }
}

impl Outlet for StandardError {
    ghost use Rattle.std.specs.Prelude.{[], false};

    ghost tells = { false };

    ghost taken = { λ _. [] };

    fn take(&mut self, bytes: &[u8]) -> usize {
        if bytes.is_empty() {
            return 0;
        }
        match &mut self.terminal {
            Some(file) => count_of(file.write(bytes), bytes.len()),
            None => {
                if !takes_within(&self.rt, 0) {
                    return 0;
                }
                count_of(self.rt.stderr().write(bytes), bytes.len())
            }
        }
    }
}

/// The terminal behind standard error, opened once more. No write there waits.
fn opened_again(rt: &HostRuntime) -> Option<File> {
    let file = OpenOptions::new().append(true).open(rt, SAME_AGAIN).ok()?;
    if os::set_nonblocking(file.as_raw_fd(), true) == 0 {
        Some(file)
    } else {
        None
    }
}

/// Whether standard error takes bytes within so many milliseconds: a pipe then takes as many as a line has. One that has failed, as
/// where nobody reads it any more, takes none.
pub(crate) fn takes_within(rt: &HostRuntime, millis: i32) -> bool {
    let mut asked = [pollfd {
        fd: rt.stderr().as_raw_fd(),
        events: POLLOUT,
        revents: 0,
    }];
    if poll(&mut asked, millis) <= 0 {
        return false;
    }
    let [answered] = asked;
    answered.revents & POLLOUT != 0 && answered.revents & (POLLERR | POLLHUP | POLLNVAL) == 0
}

/// How many of so many bytes a write moved: none where it failed.
fn count_of(wrote: io::Result<usize>, most: usize) -> usize
    ensures { result ≤ most }
{
    match wrote {
        Ok(count) => count.min(most),
        Err(_error) => 0,
    }
}
