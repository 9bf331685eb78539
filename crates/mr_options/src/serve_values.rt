//! The values of the options of `serve`.
ghost use Rattle.std.specs.Prelude.{IfOk, IfErr};
ghost use Rattle.clap.specs.Words.{found_of, rows_of};
ghost use Rattle.mr_options.specs.Outcomes.{ExplainsServe};
ghost use Rattle.mr_options.specs.Values.{AreServeOf, HasAddress, HasMaster, HasMode, IsInRange, ServeNumbersPass};
ghost use Rattle.mr_options.specs.declared.line.Options.TheVariants.{Serve};

use crate::fault::UsageFault;
use crate::line::{MOST_CLIENTS, Master, ServeOptions};
use crate::named_master::master_named;
use crate::values::{needed_number_of, number_of, path_of};
use clap::ArgMatches;
use mr_file::SyncMode;
use mr_repl::USUAL_BACKLOG;
use std::net::Ipv4Addr;

/// After so many turns `serve` ends, where the line doesn't say.
const USUAL_TURNS: u64 = 1_000_000_000_000;

/// So many seconds a peer of replication may be silent, where the line doesn't say.
const USUAL_TIMEOUT: u64 = 60;

/// So many seconds a client may ask nothing, where the line doesn't say: 0 stands for ever.
const USUAL_IDLE: u64 = 0;

/// After so many seconds the system asks for a silent peer, where the line doesn't say.
const USUAL_KEEPALIVE: u64 = 300;

/// Whether each append is synced.
fn mode_of(matches: &ArgMatches<'_>) -> Result<SyncMode, UsageFault>
    ensures ok { IfOk result (HasMode (rows_of (found_of matches.now))) }
    ensures err { IfErr result (ExplainsServe (rows_of (found_of matches.now))) }
{
    match matches.get_str("sync") {
        None => Ok(SyncMode::Always),
        Some("always") => Ok(SyncMode::Always),
        Some("no") => Ok(SyncMode::No),
        Some(_other) => Err(UsageFault::BadMode),
    }
}

/// The node that this one begins as a replica of, where the line names one.
fn master_of<'a>(matches: &ArgMatches<'a>) -> Result<Option<Master<'a>>, UsageFault>
    ensures ok { IfOk result (HasMaster (rows_of (found_of matches.now))) }
    ensures err { IfErr result (ExplainsServe (rows_of (found_of matches.now))) }
{
    match matches.get_str("replicaof") {
        None => Ok(None),
        Some(text) => match master_named(text) {
            Some(master) => Ok(Some(master)),
            None => Err(UsageFault::BadMaster),
        },
    }
}

/// The address at which clients are met.
fn address_of(matches: &ArgMatches<'_>) -> Result<Ipv4Addr, UsageFault>
    ensures ok { IfOk result (HasAddress (rows_of (found_of matches.now))) }
    ensures err { IfErr result (ExplainsServe (rows_of (found_of matches.now))) }
{
    match matches.get_str("bind") {
        None => Ok(Ipv4Addr::LOCALHOST),
        Some(text) => match text.parse::<Ipv4Addr>() {
            Ok(address) => Ok(address),
            Err(_other) => Err(UsageFault::BadAddress),
        },
    }
}

/// The values of `serve`.
pub(crate) fn serve_of<'a>(matches: &ArgMatches<'a>) -> Result<ServeOptions<'a>, UsageFault>
    requires { ServeNumbersPass (rows_of (found_of matches.now)) }
    ensures ok { IfOk result (AreServeOf (rows_of (found_of matches.now))) }
    ensures range { IfOk result (λ options. IsInRange (Serve options)) }
    ensures err { IfErr result (ExplainsServe (rows_of (found_of matches.now))) }
{
    let sync = mode_of(matches)?;
    let master = master_of(matches)?;
    let bind = address_of(matches)?;
    let port = needed_number_of(matches, "port");
    let aof = path_of(matches);
    let turns = number_of(matches, "turns", USUAL_TURNS);
    let backlog = number_of(matches, "backlog", USUAL_BACKLOG as u64);
    let timeout = number_of(matches, "repl-timeout", USUAL_TIMEOUT);
    let idle_timeout = number_of(matches, "timeout", USUAL_IDLE);
    let keepalive = number_of(matches, "tcp-keepalive", USUAL_KEEPALIVE);
    let most_clients = number_of(matches, "maxclients", MOST_CLIENTS as u64);
    Ok(ServeOptions {
        port: port as u16,
        aof,
        sync,
        turns,
        backlog: backlog as usize,
        master,
        bind,
        timeout,
        idle_timeout,
        keepalive,
        most_clients: most_clients as usize,
    })
}
