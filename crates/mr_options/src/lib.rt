//! The program's command line.
#![tactic(auto)]

ghost use Rattle.std.specs.Prelude.{◌≡◌, IfOk, IfErr, List, map, string_bytes, []};
ghost use Rattle.clap.specs.Words.{Text, found_of, rows_of};
ghost use Rattle.mr_options.specs.Outcomes.{AreOptionsOf, ExplainsFault, IsLineOf, SaysOptions};
ghost use Rattle.mr_options.specs.Values.{IsInRange, usual_pipe};

use crate::command::whole_command;
use crate::explain::fault_from;
use crate::pipe_values::pipe_of;
use crate::serve_values::serve_of;
use crate::world_values::world_of;
use clap::ArgMatches;
use std::alloc::Global;

mod asking;
mod command;
mod explain;
mod fault;
mod line;
mod named_master;
mod pipe_values;
mod serve_values;
mod values;
mod world_values;

pub use asking::{Question, asked};
pub use fault::UsageFault;
pub use line::{Master, Options, PipeOptions, ServeOptions, WorldOptions};

/// The options of the subcommand `name`, or the fault where a value is none.
fn options_of<'a>(name: &str, matches: &ArgMatches<'a>) -> Result<Options<'a>, UsageFault>
    requires { (words : List Text) × IsLineOf name.now words (rows_of (found_of matches.now)) }
    ensures ok { (words : List Text) →
        IsLineOf name.now words (rows_of (found_of matches.now)) →
        IfOk result (SaysOptions words) }
    ensures range { IfOk result IsInRange }
    ensures err { (words : List Text) →
        IsLineOf name.now words (rows_of (found_of matches.now)) →
        IfErr result (ExplainsFault words) }
{
    match name {
        "pipe" => match pipe_of(matches) {
            Some(options) => Ok(Options::Pipe(options)),
            None => Err(UsageFault::BadValue),
        },
        "serve" => match serve_of(matches) {
            Ok(options) => Ok(Options::Serve(options)),
            Err(fault) => Err(fault),
        },
        "trio" => Ok(Options::Trio),
        "world" => Ok(Options::World(world_of(matches))),
        _ => unreachable!(),
    }
}

/// Reads the program's words, its name left out.
pub fn options<'a>(alloc: Global, words: &'a [String]) -> Result<Options<'a>, UsageFault>
    ensures usual { words.now ≡ [] → result ≡ Ok (Options.Pipe usual_pipe) }
    ensures ok { IfOk result (AreOptionsOf (map string_bytes words.now)) }
    ensures range { IfOk result IsInRange }
    ensures err { IfErr result (ExplainsFault (map string_bytes words.now)) }
{
    if words.is_empty() {
        return Ok(Options::Pipe(PipeOptions::usual()));
    }
    let command = whole_command(alloc)?;
    let matches = match command.try_get_matches_from(words) {
        Ok(matches) => matches,
        Err(error) => return Err(fault_from(alloc, &error)),
    };
    let Some((name, inner)) = matches.subcommand() else {
        unreachable!()
    };
    options_of(name, inner)
}
