//! The values of the options of `world`.
ghost use Rattle.clap.specs.Words.{found_of, rows_of};
ghost use Rattle.mr_options.specs.Values.{AreWorldOf, IsInRange, WorldNumbersPass};
ghost use Rattle.mr_options.specs.declared.line.Options.TheVariants.{World};

use crate::line::WorldOptions;
use crate::values::number_of;
use clap::ArgMatches;
use mr_repl::USUAL_BACKLOG;

/// The values of `world`.
pub(crate) fn world_of(matches: &ArgMatches<'_>) -> WorldOptions
    requires { WorldNumbersPass (rows_of (found_of matches.now)) }
    ensures values { AreWorldOf (rows_of (found_of matches.now)) result }
    ensures range { IsInRange (World result) }
{
    let backlog = number_of(matches, "backlog", USUAL_BACKLOG as u64);
    WorldOptions {
        backlog: backlog as usize,
    }
}
