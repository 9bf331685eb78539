//! The values of options that more than one subcommand has.
ghost use Rattle.std.specs.Prelude.{ℕ, option_map};
ghost use Rattle.clap.specs.Words.{found_of, rows_of};
ghost use Rattle.mr_options.specs.Values.{HasNumber, HasPath, NamesNumber};

use clap::ArgMatches;

/// The value of a number's option, or the usual one.
pub(crate) fn number_of(matches: &ArgMatches<'_>, name: &str, usual: u64) -> u64
    requires { (n : ℕ) × HasNumber (rows_of (found_of matches.now)) name.now usual n }
    ensures { HasNumber (rows_of (found_of matches.now)) name.now usual result }
{
    matches.get_one::<u64>(name).unwrap_or(usual)
}

/// The value of a number's option that every line names.
pub(crate) fn needed_number_of(matches: &ArgMatches<'_>, name: &str) -> u64
    requires { (n : ℕ) × NamesNumber (rows_of (found_of matches.now)) name.now n }
    ensures { NamesNumber (rows_of (found_of matches.now)) name.now result }
{
    let Some(number) = matches.get_one::<u64>(name) else {
        unreachable!()
    };
    number
}

/// The path of the append-only file, where the line names one.
pub(crate) fn path_of<'a>(matches: &ArgMatches<'a>) -> Option<&'a str>
    ensures { HasPath (rows_of (found_of matches.now)) (option_map (λ s. s.now) result) }
{
    matches.get_str("aof")
}
