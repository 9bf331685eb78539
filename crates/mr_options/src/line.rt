//! What a command line says.
use mr_file::SyncMode;
use mr_repl::ReplId;
use std::net::Ipv4Addr;

/// So many peers may have a link to a server at once, where its line doesn't say: the most that it may name.
pub(crate) const MOST_CLIENTS: usize = 1_000_000;

/// The options of `pipe`: one node, asked by one client on standard input.
#[derive(Clone, Copy, Debug, PartialEq, Eq)]
pub struct PipeOptions<'a> {
    /// The node's replication id.
    pub id: ReplId,
    /// The time that every command sees, in milliseconds from 0 to 2^61.
    pub now: i64,
    /// The random word that every command sees.
    pub word: u64,
    /// The append-only file, where there is one.
    pub aof: Option<&'a str>,
}

impl<'a> PipeOptions<'a> {
    ghost use Rattle.std.specs.Prelude.{◌≡◌};
    ghost use Rattle.mr_options.specs.Values.{usual_pipe};

    /// The usual values: the id of forty digits `a`, time 0 and word 0, and no file.
    pub fn usual() -> PipeOptions<'a>
        ensures { result ≡ usual_pipe }
    {
        PipeOptions {
            id: ReplId::new([0xaa; 20]),
            now: 0,
            word: 0,
            aof: None,
        }
    }
}

/// The node that a replica follows.
#[derive(Clone, Copy, Debug, PartialEq, Eq)]
pub struct Master<'a> {
    /// Its host as the line has it: whether it is one is seen when it is dialled.
    pub host: &'a str,
    /// Its port, from 1 to 65535.
    pub port: u16,
}

/// The options of `serve`: one node, asked by many clients over the network.
#[derive(Clone, Copy, Debug, PartialEq, Eq)]
pub struct ServeOptions<'a> {
    /// The port at which clients are met, from 1 to 65535.
    pub port: u16,
    /// The append-only file, where there is one.
    pub aof: Option<&'a str>,
    /// Whether each append to that file is synced.
    pub sync: SyncMode,
    /// After so many turns of the event loop `serve` ends.
    pub turns: u64,
    /// So many bytes of its stream the node keeps for its replicas, from 1 to 2^30.
    pub backlog: usize,
    /// The node that this one begins as a replica of, where there is one.
    pub master: Option<Master<'a>>,
    /// The address at which clients are met.
    pub bind: Ipv4Addr,
    /// A peer of replication that is silent for so many seconds is given up, from 11 to 86,400.
    pub timeout: u64,
    /// A client that asks nothing for so many seconds is closed, up to 2^31 - 1. At 0 none is.
    pub idle_timeout: u64,
    /// The system asks for a peer that was silent for so many seconds, up to 32,767. At 0 it asks for none.
    pub keepalive: u64,
    /// So many peers may have a link at once, from 1 to 1,000,000, where there are descriptors for them.
    pub most_clients: usize,
}

/// The options of `world`: nodes and the links between them, asked by a script on standard input.
#[derive(Clone, Copy, Debug, PartialEq, Eq)]
pub struct WorldOptions {
    /// So many bytes of its stream each node keeps for its replicas, from 1 to 2^30.
    pub backlog: usize,
}

/// A subcommand with the values of its options.
#[derive(Clone, Copy, Debug, PartialEq, Eq)]
pub enum Options<'a> {
    Pipe(PipeOptions<'a>),
    Serve(ServeOptions<'a>),
    /// Three nodes and a client in one process, asked by a script on standard input.
    Trio,
    World(WorldOptions),
}
