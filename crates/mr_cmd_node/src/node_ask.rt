// Commands to the node, with their arguments.
ghost use Rattle.std.specs.Prelude.{◌≡◌};
ghost use Rattle.std.specs.Str.{bytes_eq};
ghost use Rattle.mr_arguments.specs.Names.{lowered};
ghost use Rattle.mr_cmd_node.specs.Options.{option_of, option_text};

use crate::told::Told;
use mr_arguments::Argument;

/// A command to the node, with its arguments.
#[derive(Drop)]
pub enum NodeAsk<'a, 't> {
    /// `PSYNC id offset`: a replica wants the stream of this id, from this byte on.
    Psync { id: Argument<'a>, wanted: i64 },
    /// `REPLCONF option value ..`: what a replica says of itself.
    ReplConf { told: Told<'a, 't> },
    /// `REPLCONF ACK offset`: how far a replica holds the stream.
    Ack { offset: i64 },
    /// `REPLICAOF host port`, `SLAVEOF host port`: the node is to follow the one there.
    ReplicaOf { host: Argument<'a>, port: u16 },
    /// `REPLICAOF NO ONE`, `SLAVEOF NO ONE`: the node is to be a master.
    NoOne,
    /// `MULTI`: the client's requests are to wait from now on, until they are done as one.
    Multi,
    /// `EXEC`: the requests that wait are to be done, as one.
    Exec,
    /// `DISCARD`: the requests that wait are to be dropped.
    Discard,
}

/// What a replica may say of itself.
#[derive(Clone, Copy, Debug, PartialEq, Eq)]
pub enum ReplicaOption {
    /// `listening-port`: the port that it serves.
    ListeningPort,
    /// `ip-address`: the address that it is reached at.
    IpAddress,
    /// `capa`: what it understands.
    Capability,
}

impl ReplicaOption {
    /// The option that a word names, in any case.
    pub fn of(word: &[u8]) -> Option<ReplicaOption>
        ensures { result ≡ option_of word.now }
    {
        if ReplicaOption::ListeningPort.is(word) {
            Some(ReplicaOption::ListeningPort)
        } else if ReplicaOption::IpAddress.is(word) {
            Some(ReplicaOption::IpAddress)
        } else if ReplicaOption::Capability.is(word) {
            Some(ReplicaOption::Capability)
        } else {
            None
        }
    }

    /// Whether a word is this option's name, in any case.
    fn is(self, word: &[u8]) -> bool
        ensures { result ≡ bytes_eq (lowered word.now) (option_text self) }
    {
        match self {
            ReplicaOption::ListeningPort => word.eq_ignore_ascii_case(b"listening-port"),
            ReplicaOption::IpAddress => word.eq_ignore_ascii_case(b"ip-address"),
            ReplicaOption::Capability => word.eq_ignore_ascii_case(b"capa"),
        }
    }
}
