//! The command line as a command of clap.
ghost use Rattle.std.specs.Prelude.{◌≡◌, IfOk, false};
ghost use Rattle.clap.specs.declared.builder.command.Command.TheViews.{out-Command};
ghost use Rattle.clap.specs.Words.{app_of, rule_of, with_rule, with_subcommand};
ghost use Rattle.mr_options.specs.Lines.{bare, line, needed, node_line, number_rule, pipe_line, serve_line, text_rule, trio_line, world_line};

use crate::line::MOST_CLIENTS;
use clap::builder::ValueParser;
use clap::{Arg, Command};
use mr_repl::MOST_BACKLOG;
use std::alloc::{AllocError, Global};

/// The greatest time, in milliseconds: `LAST_MOMENT` of `mr_data`, a crate that isn't seen here.
const MOST_NOW: u64 = 1 << 61;

/// The greatest port.
const MOST_PORT: u64 = 65_535;

/// The shortest time that a peer of replication may be silent, in seconds: a master says something every 10 seconds.
const LEAST_TIMEOUT: u64 = 11;

/// The longest time that a peer of replication may be silent, in seconds: a day.
const MOST_TIMEOUT: u64 = 86_400;

/// The longest time that a client may ask nothing, in seconds.
const MOST_IDLE: u64 = 2_147_483_647;

/// The longest time that the system waits before it asks for a silent peer, in seconds.
const MOST_KEEPALIVE: u64 = 32_767;

/// A number from `least` to `most`.
fn number_option<'a>(alloc: Global, name: &'a str, least: u64, most: u64) -> Arg<'a>
    ensures rule { rule_of result ≡ number_rule name.entry.now least most }
    ensures local { result.global ≡ false }
{
    Arg::new(alloc, name)
        .long(name)
        .value_parser(ValueParser::unsigned(least, most))
}

/// The command with one more option, a text.
fn with_text<'a>(
    command: Command<'a>,
    alloc: Global,
    name: &'a str,
) -> Result<Command<'a>, AllocError>
    requires { (out-Command command).has_globals ≡ false }
    ensures shape { IfOk result (λ c.
        app_of c ≡ with_rule (app_of command.entry) (text_rule name.entry.now)) }
    ensures local { IfOk result (λ c. (out-Command c).has_globals ≡ false) }
{
    command.arg(Arg::new(alloc, name).long(name))
}

/// The command with one more option, a number from `least` to `most`.
fn with_number<'a>(
    command: Command<'a>,
    alloc: Global,
    name: &'a str,
    least: u64,
    most: u64,
) -> Result<Command<'a>, AllocError>
    requires { (out-Command command).has_globals ≡ false }
    ensures shape { IfOk result (λ c.
        app_of c ≡ with_rule (app_of command.entry) (number_rule name.entry.now least most)) }
    ensures local { IfOk result (λ c. (out-Command c).has_globals ≡ false) }
{
    command.arg(number_option(alloc, name, least, most))
}

/// The command with one more option, a number from `least` to `most` that every line names.
fn with_needed_number<'a>(
    command: Command<'a>,
    alloc: Global,
    name: &'a str,
    least: u64,
    most: u64,
) -> Result<Command<'a>, AllocError>
    requires { (out-Command command).has_globals ≡ false }
    ensures shape { IfOk result (λ c.
        app_of c ≡
        with_rule (app_of command.entry) (needed (number_rule name.entry.now least most))) }
    ensures local { IfOk result (λ c. (out-Command c).has_globals ≡ false) }
{
    command.arg(number_option(alloc, name, least, most).required(true))
}

/// The subcommand `pipe` with its options.
fn pipe_command<'a>(alloc: Global) -> Result<Command<'a>, AllocError>
    ensures shape { IfOk result (λ c. app_of c ≡ pipe_line) }
    ensures local { IfOk result (λ c. (out-Command c).has_globals ≡ false) }
{
    let named = with_text(Command::new(alloc, "pipe"), alloc, "id")?;
    let timed = with_number(named, alloc, "now", 0, MOST_NOW)?;
    let drawn = with_number(timed, alloc, "word", 0, u64::MAX)?;
    with_text(drawn, alloc, "aof")
}

/// The subcommand `serve` with the options of its node, its file and its end.
fn node_command<'a>(alloc: Global) -> Result<Command<'a>, AllocError>
    ensures shape { IfOk result (λ c. app_of c ≡ node_line) }
    ensures local { IfOk result (λ c. (out-Command c).has_globals ≡ false) }
{
    let met = with_needed_number(Command::new(alloc, "serve"), alloc, "port", 1, MOST_PORT)?;
    let kept = with_text(met, alloc, "aof")?;
    let synced = with_text(kept, alloc, "sync")?;
    let ended = with_number(synced, alloc, "turns", 0, u64::MAX)?;
    with_number(ended, alloc, "backlog", 1, MOST_BACKLOG as u64)
}

/// The subcommand `serve` with all its options.
fn serve_command<'a>(alloc: Global) -> Result<Command<'a>, AllocError>
    ensures shape { IfOk result (λ c. app_of c ≡ serve_line) }
    ensures local { IfOk result (λ c. (out-Command c).has_globals ≡ false) }
{
    let led = with_text(node_command(alloc)?, alloc, "replicaof")?;
    let bound = with_text(led, alloc, "bind")?;
    let heard = with_number(bound, alloc, "repl-timeout", LEAST_TIMEOUT, MOST_TIMEOUT)?;
    let asked = with_number(heard, alloc, "timeout", 0, MOST_IDLE)?;
    let probed = with_number(asked, alloc, "tcp-keepalive", 0, MOST_KEEPALIVE)?;
    with_number(probed, alloc, "maxclients", 1, MOST_CLIENTS as u64)
}

/// The subcommand `world` with its option.
fn world_command<'a>(alloc: Global) -> Result<Command<'a>, AllocError>
    ensures shape { IfOk result (λ c. app_of c ≡ world_line) }
    ensures local { IfOk result (λ c. (out-Command c).has_globals ≡ false) }
{
    with_number(
        Command::new(alloc, "world"),
        alloc,
        "backlog",
        1,
        MOST_BACKLOG as u64,
    )
}

/// The program with its subcommand `pipe` alone.
fn with_pipe<'a>(alloc: Global) -> Result<Command<'a>, AllocError>
    ensures shape { IfOk result (λ c. app_of c ≡ with_subcommand bare pipe_line.top) }
{
    let pipe = pipe_command(alloc)?;
    Command::new(alloc, "minired")
        .no_binary_name(true)
        .disable_help_flag(true)
        .disable_help_subcommand(true)
        .subcommand_required(true)
        .subcommand(pipe)
}

/// .. and with `serve`.
fn with_serve<'a>(alloc: Global) -> Result<Command<'a>, AllocError>
    ensures shape { IfOk result (λ c.
        app_of c ≡ with_subcommand (with_subcommand bare pipe_line.top) serve_line.top) }
{
    let serve = serve_command(alloc)?;
    with_pipe(alloc)?.subcommand(serve)
}

/// .. and with `trio`.
fn with_trio<'a>(alloc: Global) -> Result<Command<'a>, AllocError>
    ensures shape { IfOk result (λ c.
        app_of c ≡
        with_subcommand (with_subcommand (with_subcommand bare pipe_line.top) serve_line.top)
        trio_line.top) }
{
    with_serve(alloc)?.subcommand(Command::new(alloc, "trio"))
}

/// The program with all of its subcommands.
pub(crate) fn whole_command<'a>(alloc: Global) -> Result<Command<'a>, AllocError>
    ensures { IfOk result (λ c. app_of c ≡ line) }
{
    let world = world_command(alloc)?;
    with_trio(alloc)?.subcommand(world)
}
