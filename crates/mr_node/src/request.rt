// What a request asks of the node itself.
ghost use Rattle.std.specs.Prelude.{◌≡◌, IfOk};
ghost use Rattle.mr_node.specs.Reading.{IsWish};

use mr_cmd_node::{NodeAsk, ReplicaOption, Told};
use mr_node_links::Introduction;
use mr_node_output::Address;
use std::alloc::{AllocError, Global};

/// What a request asks of the node itself, with its words copied.
#[derive(Drop)]
pub(crate) enum NodeRequest {
    /// A stream from a byte on.
    Stream(StreamWish),
    /// What a replica says of itself.
    Introduction(Introduction),
    /// How far a replica holds the stream.
    Acknowledgement(i64),
    /// The node is to follow this one.
    Follow(Address),
    /// The node is to be a master.
    Lead,
    /// A transaction begins.
    Begin,
    /// What waits is to be done.
    Exec,
    /// What waits is to be dropped.
    Discard,
}

/// The stream of this id is wanted, from this byte on.
#[derive(Drop)]
pub(crate) struct StreamWish {
    pub id: Vec<u8>,
    pub wanted: i64,
}

impl StreamWish {
    /// The offset of the first byte that is wanted.
    pub(crate) fn wanted(&self) -> i64
        ensures { result ≡ self.now.wanted }
    {
        self.wanted
    }
}

/// What the words ask of the node, copied.
pub(crate) fn request_of(alloc: Global, ask: &NodeAsk<'_, '_>) -> Result<NodeRequest, AllocError>
    ensures { IfOk result (λ r. IsWish ask.now r) }
{
    match ask {
        NodeAsk::Psync { id, wanted } => Ok(NodeRequest::Stream(StreamWish {
            id: Vec::from_slice(alloc, id.as_slice())?,
            wanted: *wanted,
        })),
        NodeAsk::ReplConf { told } => Ok(NodeRequest::Introduction(introduction_of(alloc, told)?)),
        NodeAsk::Ack { offset } => Ok(NodeRequest::Acknowledgement(*offset)),
        NodeAsk::ReplicaOf { host, port } => {
            Ok(NodeRequest::Follow(Address::copied(alloc, host.as_slice(), *port)?))
        }
        NodeAsk::NoOne => Ok(NodeRequest::Lead),
        NodeAsk::Multi => Ok(NodeRequest::Begin),
        NodeAsk::Exec => Ok(NodeRequest::Exec),
        NodeAsk::Discard => Ok(NodeRequest::Discard),
    }
}

/// The port and the address among what a replica says of itself; of several the last that may be one.
fn introduction_of(alloc: Global, told: &Told<'_, '_>) -> Result<Introduction, AllocError> {
    let mut introduction = Introduction::none();
    for (option, value) in told.iter() {
        match option {
            ReplicaOption::ListeningPort => introduction.name_port(alloc, value)?,
            ReplicaOption::IpAddress => introduction.name_address(alloc, value)?,
            ReplicaOption::Capability => {}
        }
    }
    Ok(introduction)
}
