//! A server: a node asked over TCP, which may follow another, and be followed.
ghost use Rattle.std.specs.Prelude.{◌≤◌, ◌^◌};

use crate::failure::Failure;
use crate::kept::{FileMode, notices_of, opened, write_failure};
use crate::kept_file::SeesChange;
use crate::obeying::follow;
use crate::telling::Telling;
use crate::told_wire::ToldWire;
use crate::watching::Watching;
use mr_aof::Log;
use mr_data::Dataset;
use mr_file::LogFile;
use mr_loop::{Links, LoopFault, serve};
use mr_node::{Config, Node, Role};
use mr_notices::Notices;
use mr_options::ServeOptions;
use mr_silence::Limits;
use mr_source::{Source, SystemSource};
use mr_wire::{SocketWire, descriptor_limit, most_links};
use std::hash::RandomState;
use std::net::SocketAddr;

/// A server, whose dataset is kept in a file where the options name one. That is opened before anything is listened on.
pub fn run_server(
    rt: &HostRuntime,
    options: &ServeOptions<'_>,
    seed: RandomState,
) -> Result<(), Failure>
    requires { (1 ≤ options.now.backlog) × (options.now.backlog ≤ 2 ^ 30) }
{
    let mut notices = notices_of(rt)?;
    match options.aof {
        Some(path) => {
            let mode = FileMode {
                serves: true,
                sync: options.sync,
            };
            let (mut log, dataset) = opened(rt, &mut notices, path, mode, seed)?;
            let begin = Beginning { dataset, seed };
            match serve_node(rt, notices, options, begin, &mut log) {
                Err(Failure::Loop(LoopFault::File)) => Err(write_failure(rt, path, &log)),
                ended => ended,
            }
        }
        None => {
            let dataset = Dataset::new(rt.alloc(), seed);
            let begin = Beginning { dataset, seed };
            serve_node(rt, notices, options, begin, &mut Log::none())
        }
    }
}

/// What a server begins with.
#[derive(Drop)]
struct Beginning {
    dataset: Dataset,
    /// For the datasets of copies.
    seed: RandomState,
}

/// Serves the peers of a node that begins with this dataset.
fn serve_node<F: LogFile + SeesChange>(
    rt: &HostRuntime,
    notices: Notices,
    options: &ServeOptions<'_>,
    begin: Beginning,
    log: &mut Log<F>,
) -> Result<(), Failure>
    requires { (1 ≤ options.now.backlog) × (options.now.backlog ≤ 2 ^ 30) }
{
    let Beginning { dataset, seed } = begin;
    let mut telling = Telling::new(notices, options.idle_timeout);
    let mut source = source_of(rt)?;
    let mut wire = listening(rt, &mut telling, options)?;
    let Ok(mut links) = Links::new(rt.alloc(), seed) else {
        return Err(Failure::Memory);
    };
    let keys = dataset.len();
    let mut node = node_of(rt, options, dataset, &mut source)?;
    if node.shows().is_none() {
        return Err(Failure::Loop(LoopFault::Stopped));
    }
    tell_ready(rt, &mut telling, options, keys);
    let turns = options.turns;
    let mut watching = Watching { telling, turns };
    let ended = serve(
        &mut node,
        &mut links,
        &mut wire,
        log,
        &mut source,
        &mut watching,
    );
    let Watching { mut telling, .. } = watching;
    match ended {
        Ok(()) => {
            telling.end();
            tell_end(&mut telling, links.halted());
            Ok(())
        }
        Err(fault) => {
            let failure = failure_of(&node, fault);
            telling.tell(&format_args!("ends: {failure}"));
            Err(failure)
        }
    }
}

/// Why the server fails. A node that stops in its master's stream may have lacked memory within a group, or a later effect of it
/// doesn't apply: both leave it alike.
fn failure_of(node: &Node, fault: LoopFault) -> Failure {
    match fault {
        LoopFault::Stopped => match node.role() {
            Role::Connected => Failure::Stream,
            Role::Master | Role::Connect | Role::Sync => Failure::Loop(fault),
        },
        LoopFault::Listener | LoopFault::File => Failure::Loop(fault),
    }
}

/// A node with this dataset, which follows the master that the options name, if they name one.
fn node_of<S: Source>(
    rt: &HostRuntime,
    options: &ServeOptions<'_>,
    dataset: Dataset,
    source: &mut S,
) -> Result<Node, Failure>
    requires { (1 ≤ options.now.backlog) × (options.now.backlog ≤ 2 ^ 30) }
{
    let Some(config) = Config::new(false, options.port, options.backlog) else {
        unreachable!()
    };
    let Ok(mut node) = Node::start(rt.alloc(), source.id(), dataset, config) else {
        return Err(Failure::Memory);
    };
    if let Some(master) = &options.master {
        follow(rt, &mut node, master, source)?;
    }
    Ok(node)
}

/// Tells why the server ends where nothing failed.
fn tell_end(telling: &mut Telling, halted: bool) {
    if halted {
        telling.tell(&"ends: a client said SHUTDOWN");
    } else {
        telling.tell(&"ends: it made all its turns");
    }
}

/// Another handle of the system.
fn another(rt: &HostRuntime) -> Result<HostRuntime, Failure> {
    let Ok(other) = rt.clone() else {
        return Err(Failure::Memory);
    };
    Ok(other)
}

/// The system's clock and chance.
fn source_of(rt: &HostRuntime) -> Result<SystemSource, Failure> {
    match SystemSource::new(another(rt)?) {
        Ok(source) => Ok(source),
        Err(error) => Err(Failure::Random(error)),
    }
}

/// A wire that listens where the options say.
fn listening(
    rt: &HostRuntime,
    telling: &mut Telling,
    options: &ServeOptions<'_>,
) -> Result<ToldWire, Failure> {
    let (of_sockets, of_wire) = (another(rt)?, another(rt)?);
    let address = SocketAddr::from((options.bind, options.port));
    match SocketWire::listen(of_sockets, rt.alloc(), address) {
        Ok(mut wire) => {
            wire.probe_after(options.keepalive);
            wire.take_at_most(room_of(telling, options.most_clients));
            Ok(ToldWire::new(of_wire, wire, limits_of(options), options.timeout))
        }
        Err(error) => Err(Failure::Listen(options.port, error)),
    }
}

/// For how long peers may be silent.
fn limits_of(options: &ServeOptions<'_>) -> Limits {
    Limits {
        replication: millis_of(options.timeout),
        clients: if options.idle_timeout > 0 {
            Some(millis_of(options.idle_timeout))
        } else {
            None
        },
    }
}

/// So many seconds, in milliseconds.
fn millis_of(seconds: u64) -> u64 {
    seconds.saturating_mul(1_000)
}

/// How many clients may have a link at once where so many are to. A notice says so.
fn room_of(telling: &mut Telling, wanted: usize) -> usize {
    let most = most_links(wanted, descriptor_limit());
    if most < wanted {
        telling.tell(&format_args!(
            "takes at most {most} clients at once: `ulimit -n` allows no more"
        ));
    } else {
        telling.tell(&format_args!("takes at most {most} clients at once"));
    }
    most
}

/// The lines that say that clients may come: one on standard output, and a notice. Where others than this machine's reach the server,
/// a notice says that they are asked for no password. Lines that can't be written are left out.
fn tell_ready(rt: &HostRuntime, telling: &mut Telling, options: &ServeOptions<'_>, keys: usize) {
    let (address, port) = (options.bind, options.port);
    if !address.is_loopback() {
        telling.tell(&"whoever reaches it is asked for no password");
    }
    match options.aof {
        Some(path) => {
            let text = format_args!("ready on {address}:{port}, {keys} keys from {path}");
            telling.tell(&text);
            let _ = println!(rt; "minired: {text}");
        }
        None => {
            let text = format_args!("ready on {address}:{port}, {keys} keys");
            telling.tell(&text);
            let _ = println!(rt; "minired: {text}");
        }
    }
}
