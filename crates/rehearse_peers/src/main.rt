//! Rehearses nodes that follow and are followed, for tests: makes the calls that the lines of standard input name, and writes a line on
//! each before it reads the next. So a test carries bytes from node to node, and sees each out of each call.
//!
//! Nodes are named by numbers from 0, and links by their places among those opened on their node, from 0. Bytes are written in
//! hexadecimal digits, or as `-` where there are none. OUTS are those of the call in their order, a `;` before each: `grow BYTES`, `append
//! BYTES`, `replace BYTES`, `send LINK BYTES`, `close LINK`, `used ID`, `follow HOST PORT` with the host's bytes, and `halt`.
//!
//! | Line | Answer |
//! |---|---|
//! | `start NODE ID ROLE PORT BACKLOG FILE`, with `master` or `replica` | `started`: a node anew under that number, which stands for another node or is the next one, with what the file's bytes make, or without keys where none stand there; or `refused` outside the backlog's limits |
//! | `open NODE` | `opened LINK` |
//! | `dial NODE` | `dialled LINKOUTS`; or `no dial` where the node doesn't wait |
//! | `feed NODE LINK BYTES` | `fed` |
//! | `step NODE LINK NOW WORD ID`, with the moment, the random word and the fresh id | `idle`, `closed`, or `doneOUTS` |
//! | `tick NODE NOW` | `doneOUTS` |
//! | `close NODE LINK` | `closed` |
//! | `file_failed NODE` | `stopped` |
//! | `shows NODE` | `shows ID OFFSET`, or `nothing` |
//! | `info NODE` | `text BYTES` |
//! | `role NODE` | `master`, `connect`, `sync` or `connected` |
//! | `waits NODE` | `waits`, or `doesn't wait` |
//! | `room NODE LINK` | `room COUNT`, or `gone` |
//! | `unread NODE LINK` | `unread COUNT`, or `gone` |
//!
//! A call that the node refuses is answered `refused: ` and why.
#![tactic(auto)]

mod host;
mod stage;
mod telling;

use rehearse_shared::{Line, RehearsalFault};
use stage::Stage;
use std::hash::RandomState;
use std::io::{BufRead, BufReader, Write};
use std::process::ExitCode;

/// Makes the call of each line, and writes what came of it.
fn run(rt: &HostRuntime) -> Result<(), RehearsalFault> {
    let mut stage = Stage::new(rt.alloc(), RandomState::new(rt)?);
    let mut out = Vec::new(rt.alloc());
    for line in BufReader::new(rt.alloc(), rt.reader())?.lines(rt.alloc()) {
        let line = line?;
        stage.make(Line::read(line.as_str()), &mut out)?;
        out.push(b'\n')?;
        rt.stdout().write_all(out.as_slice())?;
        out.clear();
    }
    Ok(())
}

/// Runs the rehearsal. What it fails with is told on standard error.
fn main(rt: HostRuntime) -> ExitCode {
    match run(&rt) {
        Ok(()) => ExitCode::SUCCESS,
        Err(fault) => {
            let _ = eprintln!(rt; "rehearse_peers: {fault}");
            ExitCode::FAILURE
        }
    }
}
