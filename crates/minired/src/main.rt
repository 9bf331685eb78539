//! The program: reads its words, runs what they name, and tells how it ended.
#![tactic(auto)]

ghost use Rattle.mr_data.specs.Given.{IsMoment};
ghost use Rattle.mr_world_player.specs.Asking.{IsBacklog};

mod failure;
mod following;
mod help;
mod kept;
mod kept_file;
mod leading;
mod master_link;
mod obeying;
mod roles;
mod served;
mod telling;
mod told_wire;
mod watching;

use failure::Failure;
use help::answer;
use kept::run_kept;
use mr_data::Given;
use mr_notices::tell_last;
use mr_options::{Options, PipeOptions, UsageFault, asked, options};
use mr_pipe::{PipeConfig, PipeFault, pipe};
use mr_trio::trio;
use mr_world_player::world;
use served::run_server;
use std::env;
use std::hash::RandomState;
use std::io::{BufReader, BufWriter, ErrorKind, IsTerminal};
use std::process::ExitCode;

/// How many bytes of replies are kept until they are written together.
const REPLIES: usize = 65_536;

/// The program's words, its name left out. One that isn't text is a bad value.
fn words(rt: &HostRuntime) -> Result<Vec<String>, UsageFault> {
    let all = match env::args(rt) {
        Ok(all) => all,
        Err(error) => {
            if error.kind() == ErrorKind::OutOfMemory {
                return Err(UsageFault::Memory);
            }
            return Err(UsageFault::BadValue);
        }
    };
    let words = all.skip(1).collect(rt.alloc())?;
    Ok(words)
}

/// What the keys' hashes are taken with.
fn seed_of(rt: &HostRuntime) -> Result<RandomState, Failure> {
    match RandomState::new(rt) {
        Ok(seed) => Ok(seed),
        Err(error) => Err(Failure::Random(error)),
    }
}

/// Who started the program at a terminal is told that it waits. A line that can't be written is left out.
fn tell_waiting(rt: &HostRuntime) {
    if rt.stdin().is_terminal() {
        let _ = eprintln!(rt;
            "minired: waits for requests on this terminal, until Ctrl-D; minired --help says what else there is"
        );
    }
}

/// One node, asked by one client on standard input and answered on standard output.
fn run_pipe(rt: &HostRuntime, options: &PipeOptions<'_>) -> Result<(), Failure>
    requires { IsMoment options.now.now }
{
    let Some(given) = Given::new(options.now, options.word) else {
        unreachable!()
    };
    let config = PipeConfig {
        id: options.id,
        given,
    };
    let seed = seed_of(rt)?;
    tell_waiting(rt);
    let Ok(mut output) = BufWriter::with_capacity(rt.alloc(), REPLIES, rt.stdout()) else {
        return Err(Failure::Memory);
    };
    if let Some(path) = options.aof {
        return run_kept(rt, path, &config, seed, &mut output);
    }
    pipe(rt.alloc(), &config, seed, &mut rt.stdin(), &mut output)?;
    Ok(())
}

/// Three nodes and a client, asked by the script on standard input. What it is answered goes to standard output.
fn run_trio(rt: &HostRuntime) -> Result<(), Failure> {
    let seed = seed_of(rt)?;
    let Ok(mut input) = BufReader::new(rt.alloc(), rt.stdin()) else {
        return Err(Failure::Memory);
    };
    trio(rt, rt.alloc(), seed, &mut input, &mut rt.stdout())?;
    Ok(())
}

/// Nodes and the links between them, asked by the script on standard input. What it is answered goes to standard output.
fn run_world(rt: &HostRuntime, backlog: usize) -> Result<(), Failure>
    requires { IsBacklog backlog }
{
    let seed = seed_of(rt)?;
    let Ok(mut output) = BufWriter::with_capacity(rt.alloc(), REPLIES, rt.stdout()) else {
        return Err(Failure::Memory);
    };
    world(rt.alloc(), seed, backlog, &mut rt.stdin(), &mut output)?;
    Ok(())
}

/// Does what the program's words name: tells of the program, or runs a mode to its end. It fails as that does, and
/// where the words name none.
fn run(rt: &HostRuntime) -> Result<(), Failure> {
    let words = words(rt)?;
    if let Some(question) = asked(words.as_slice()) {
        return if answer(rt, question) {
            Ok(())
        } else {
            Err(Failure::Pipe(PipeFault::Write))
        };
    }
    match options(rt.alloc(), words.as_slice())? {
        Options::Pipe(options) => run_pipe(rt, &options),
        Options::Serve(options) => run_server(rt, &options, seed_of(rt)?),
        Options::Trio => run_trio(rt),
        Options::World(options) => run_world(rt, options.backlog),
    }
}

/// Runs the program. What it fails with is told on standard error, unless that takes nothing for a second, and makes its exit status.
fn main(rt: HostRuntime) -> ExitCode {
    match run(&rt) {
        Ok(()) => ExitCode::SUCCESS,
        Err(failure) => {
            if failure.is_told() {
                tell_last(&rt, &format_args!("minired: {failure}"));
            }
            ExitCode::from(failure.status())
        }
    }
}
