//! Rehearses a node for tests: makes the calls that the lines of standard input name, and writes a line on each. So a test sees
//! what no client is told: effects, offsets, and what stands on other links.
//!
//! Bytes are written in hexadecimal digits, or as `-` where there are none. A link is named by its place among those opened, from 0.
//!
//! | Line | Answer |
//! |---|---|
//! | `start BACKLOG`, the first one | `started`, or `refused` outside the backlog's limits |
//! | `master`, `replica` | `started`: a node anew in that role, with the dataset that stands beside it, which is empty from here on |
//! | `given NOW WORD` | `given`: the moment and the random word of the calls from here on |
//! | `open` | `opened` |
//! | `feed LINK BYTES` | `fed` |
//! | `step LINK` | `idle`, `closed`, or `done OUTS REPLY EFFECTS`, and behind that the file where it is replaced: of the outs `g` for growth, `a` for what the file grows by, `r` for its replacement, `s` for what is sent, `c` for the link's closing, `u` for a fresh id that is taken, `f` for whom it follows and `h` for the program's end |
//! | `room LINK` | `room COUNT`, or `gone` |
//! | `close LINK` | `closed` |
//! | `tick` | as of a step: `done OUTS - EFFECTS` |
//! | `file_failed` | `stopped` |
//! | `shows` | `shows ID OFFSET`, or `nothing` |
//! | `spell BYTES` | `spelled TEXT`, of the effect that the command text spells, or `no effect` |
//! | `lend BYTES`, `give BYTES` | `applied`, or `no effect`: applied by reference, or moved in, to a dataset beside the node |
//! | `ask BYTES` | `replied REPLY`, to the request on that dataset; or `quit`, or `rewrite` |
//! | `due` | `due KEY`, the first key of that dataset that is past, or `nothing due` |
//! | `rebuild` | `rebuilt TEXTS`, of the effects that make that dataset again |
//!
//! A call that the node or the dataset refuses is answered `refused: ` and why.
#![tactic(auto)]

mod call;
mod dataset;
mod host;
mod stage;
mod telling;

use call::Call;
use rehearse_shared::RehearsalFault;
use stage::Stage;
use std::alloc::Global;
use std::hash::RandomState;
use std::io::{Read, Write};
use std::process::ExitCode;

/// Makes the call of each line behind the first.
fn play(
    alloc: Global,
    stage: &mut Stage,
    lines: &str,
    out: &mut Vec<u8>,
) -> Result<(), RehearsalFault> {
    for line in lines.lines() {
        let call = Call::read(alloc, line)?;
        stage.make(alloc, call, out)?;
        out.push(b'\n')?;
    }
    Ok(())
}

/// A node started as the first line says, and the lines behind it.
fn rehearse(rt: &HostRuntime, script: &str, out: &mut Vec<u8>) -> Result<(), RehearsalFault> {
    let Some((first, rest)) = script.split_once('\n') else {
        return Err(RehearsalFault::Line);
    };
    let seed = RandomState::new(rt)?;
    let Some(mut stage) = Stage::start(rt.alloc(), seed, call::backlog_of(first)?)? else {
        out.extend_from_slice(b"refused\n")?;
        return Ok(());
    };
    out.extend_from_slice(b"started\n")?;
    play(rt.alloc(), &mut stage, rest, out)
}

/// Plays the script on standard input, and writes what came of it to standard output. Where it fails nothing is
/// written.
fn run(rt: &HostRuntime) -> Result<(), RehearsalFault> {
    let mut script = String::new(rt.alloc());
    rt.stdin().read_to_string(&mut script)?;
    let mut out = Vec::new(rt.alloc());
    rehearse(rt, script.as_str(), &mut out)?;
    rt.stdout().write_all(out.as_slice())?;
    Ok(())
}

/// Runs the rehearsal. What it fails with is told on standard error.
fn main(rt: HostRuntime) -> ExitCode {
    match run(&rt) {
        Ok(()) => ExitCode::SUCCESS,
        Err(fault) => {
            let _ = eprintln!(rt; "rehearse: {fault}");
            ExitCode::FAILURE
        }
    }
}
