//! Rehearses servers that are joined, for tests: three servers make turns of the event loop, each over a wire, a file and a source in
//! memory, and a network lies between them. The lines of standard input say what happens, one event each: which server makes a turn, which
//! connection is accepted, what is delivered, what is cut, who is killed; and a line is written on each before the next is read.
//!
//! Servers have the numbers 0, 1 and 2, and the ports 7000, 7001 and 7002 at 127.0.0.1. Connections have numbers from 0 on, in the order
//! in which they are opened, by a client or by a server. SIDE is `opener` or `other`. Bytes are written in hexadecimal digits, or as `-`
//! where there are none. What waits for nothing any more, as an event at a connection that isn't there, is answered `none`, and at a
//! server that doesn't run `down`.
//!
//! | Line | Answer |
//! |---|---|
//! | `start SERVER ROLE FIRST BACKLOG SYNC MOST`, with `master` or `replica`, and `always` or `no` | `started`: with what its file keeps, a clock at 0, and ids that are the numbers from FIRST on; at each end it writes at most so many bytes until they are delivered; or `refused` where it runs, or outside the backlog's limits |
//! | `turn SERVER` | `turned STEPS DONE USED`, what the turn counted: steps, those that used something, fresh ids that were taken; or `halted ..` where a client said SHUTDOWN, or `fault: ` and why, or `over` after that. And a `;` before each: `accepted NUMBER`, `dialled NUMBER ADDRESS:PORT`, `wrote NUMBER SIDE BYTES`, `closed NUMBER SIDE` |
//! | `time SERVER MILLIS` | `set`: its clock stands there until it is set again |
//! | `show SERVER` | `ROLE ID OFFSET BYTES LENGTH SYNCED`: with `master`, `connect`, `sync` or `connected`, the commands that make what its node holds, how long its file is, and how much of that was synced; or `stopped` |
//! | `kill SERVER COUNT` | `killed LENGTH`: its file keeps what was synced, and at most so many bytes after that; its ends are closed |
//! | `client SERVER` | `connection NUMBER`, which a client opens to that server |
//! | `accept NUMBER` | `accepted`, in the next turn of the server that was asked |
//! | `send NUMBER BYTES` | `sent`, by the client that opened it |
//! | `close NUMBER` | `closed`, likewise: what it sent before is still delivered |
//! | `deliver NUMBER SIDE COUNT` | `delivered COUNT` to a server's end, `delivered BYTES` to a client's: of the bytes on the way to it the first, at most so many; or `ended` where its peer has closed its end, and all before was delivered |
//! | `cut NUMBER` | `cut`: what wasn't delivered is lost, and at both ends reads and writes fail |
#![tactic(auto)]

mod connection;
mod end;
mod joined_wire;
mod joining;
mod line;
mod server;
mod source;
mod system;
mod telling;
mod told;

use rehearse_shared::{Line, RehearsalFault};
use std::hash::RandomState;
use std::io::{BufRead, BufReader, Write};
use std::process::ExitCode;
use system::System;

/// Has the event of each line happen, and writes what came of it.
fn run(rt: &HostRuntime) -> Result<(), RehearsalFault> {
    let mut system = System::new(rt.alloc(), RandomState::new(rt)?)?;
    let mut out = Vec::new(rt.alloc());
    for line in BufReader::new(rt.alloc(), rt.reader())?.lines(rt.alloc()) {
        let line = line?;
        system.make(Line::read(line.as_str()), &mut out)?;
        out.push(b'\n')?;
        rt.stdout().write_all(out.as_slice())?;
        out.clear();
    }
    Ok(())
}

/// Runs the rehearsal. What it fails with is told on standard error.
fn main(rt: HostRuntime) -> ExitCode {
    match run(&rt) {
        Ok(()) => ExitCode::SUCCESS,
        Err(fault) => {
            let _ = eprintln!(rt; "rehearse_systems: {fault}");
            ExitCode::FAILURE
        }
    }
}
