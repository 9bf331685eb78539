//! Rehearses turns of the event loop, for tests: lists what the calls on a wire, a file and a source are to come to, starts a node with
//! them, makes its turns, and writes a line on each line of standard input before it reads the next. So a test has any call fail,
//! and sees what went over each link.
//!
//! Bytes are written in hexadecimal digits, or as `-` where there are none. Lines that list have any number of words, and each
//! is answered `listed`. Each call takes the next of its list. Behind the end of one a wait succeeds, nothing is accepted, a connect fails,
//! nothing can be read or written, the clock stands still, words are 0, and an id is that of the number of ids that were drawn.
//!
//! | Line | Lists |
//! |---|---|
//! | `waits`, with `done` and `failed` | what waits come to |
//! | `reads`, with BYTES, `not-ready`, `end` and `failed` | what reads of the next link come to |
//! | `writes`, with COUNT (at most so many bytes are moved), `all`, `not-ready` and `failed` | what its writes come to |
//! | `accepts`, with `link`, `not-ready` and `failed`; `connects`, with `link` and `failed` | what accepts and connects come to |
//! | `moments MILLIS ..`, `words NUMBER ..`, `ids ID ..` | what the clock says as a `turn`, or a `serve`, begins, the random words, and fresh ids, of which each turn draws one, and another once one was used |
//! | `passes MILLIS ..` | how much time passes before the clock is asked again, as it is for each step and each tick |
//! | `held BYTES`, `sync` with `always` or `no` | what the file has as the node starts, and whether its appends are synced: they are where nothing is said |
//! | `fails COUNT` | which call on the file fails, counted from 1. The first are those by which it is read as the node starts: one where it is empty, and two of few bytes |
//! | `short COUNT` | how many bytes a write to it appends at most |
//!
//! | Line | Answer |
//! |---|---|
//! | `start ROLE ID PORT BACKLOG`, with `master` or `replica` | `started`; or `refused` outside the backlog's limits, or `fault: file failed` |
//! | `turn` | `turned STEPS DONE USED DEAF`, the seven counts of what came of following a master, and `LACKED LINKS ASKED`, what the turn counted: how often memory ran out, how many links were closed for it, and what was asked for as the last was, as `accept`, `dial`, `bytes:COUNT`, `request:COUNT`, `copy:COUNT` or `stream:COUNT`, or `-`; or `halted ..` where a client said SHUTDOWN, or `fault: ` and why; or `over` behind that |
//! | `serve TURNS` | `served`, `fault: ` and why, or `over` |
//! | `shows` | `shows ID OFFSET`, or `nothing` |
//! | `role` | `master`, `connect`, `sync` or `connected` |
//! | `file` | `file BYTES SYNCED`, with how many bytes the last sync covered |
//! | `loads` | `loads USED BYTES`: how many bytes of the file are read, and the commands that make what they hold |
//! | `links` | `links`, and behind a `;` each link that was accepted or dialled, in order: `accepted` or `dialled`, and `open READ BYTES` or `closed READ BYTES`, with how many bytes were read and what was written, or `failed`; and of one that was dialled ADDRESS:PORT |
#![tactic(auto)]

mod heard;
mod heard_wire;
mod host;
mod line;
mod listed_file;
mod listed_source;
mod listed_wire;
mod stage;
mod telling;

use line::Line;
use rehearse_shared::RehearsalFault;
use stage::Stage;
use std::hash::RandomState;
use std::io::{BufRead, BufReader, Write};
use std::process::ExitCode;

/// Makes the call of each line, and writes what came of it.
fn run(rt: &HostRuntime) -> Result<(), RehearsalFault> {
    let mut stage = Stage::new(rt.alloc(), RandomState::new(rt)?);
    let mut out = Vec::new(rt.alloc());
    for line in BufReader::new(rt.alloc(), rt.reader())?.lines(rt.alloc()) {
        let line = line?;
        stage.make(Line::read(line.as_str()), &mut out)?;
        out.push(b'\n')?;
        rt.stdout().write_all(out.as_slice())?;
        out.clear();
    }
    Ok(())
}

/// Runs the rehearsal. What it fails with is told on standard error.
fn main(rt: HostRuntime) -> ExitCode {
    match run(&rt) {
        Ok(()) => ExitCode::SUCCESS,
        Err(fault) => {
            let _ = eprintln!(rt; "rehearse_turns: {fault}");
            ExitCode::FAILURE
        }
    }
}
