//! The values of the options of `pipe`.
ghost use Rattle.std.specs.Prelude.{IfSome, IfNone};
ghost use Rattle.clap.specs.Words.{found_of, rows_of};
ghost use Rattle.mr_options.specs.Values.{ArePipeOf, HasId, IsInRange, NamesNoId, PipeNumbersPass};
ghost use Rattle.mr_options.specs.declared.line.Options.TheVariants.{Pipe};

use crate::line::PipeOptions;
use crate::values::{number_of, path_of};
use clap::ArgMatches;
use mr_repl::ReplId;

/// The replication id, or None where the line names an id that is none.
fn id_of(matches: &ArgMatches<'_>) -> Option<ReplId>
    ensures some { IfSome result (HasId (rows_of (found_of matches.now))) }
    ensures none { IfNone result (NamesNoId (rows_of (found_of matches.now))) }
{
    match matches.get_str("id") {
        None => Some(PipeOptions::usual().id),
        Some(text) => {
            let id = ReplId::read(text.as_bytes())?;
            Some(id)
        }
    }
}

/// The values of `pipe`, or None where the line names an id that is none.
pub(crate) fn pipe_of<'a>(matches: &ArgMatches<'a>) -> Option<PipeOptions<'a>>
    requires { PipeNumbersPass (rows_of (found_of matches.now)) }
    ensures some { IfSome result (ArePipeOf (rows_of (found_of matches.now))) }
    ensures range { IfSome result (λ options. IsInRange (Pipe options)) }
    ensures none { IfNone result (NamesNoId (rows_of (found_of matches.now))) }
{
    let id = id_of(matches)?;
    let now = number_of(matches, "now", 0);
    let word = number_of(matches, "word", 0);
    let aof = path_of(matches);
    Some(PipeOptions {
        id,
        now: now as i64,
        word,
        aof,
    })
}
