//! The calls that lines name.
use mr_data::Given;
use rehearse_shared::{RehearsalFault, bytes_of, given_of, place_of};
use std::alloc::Global;

/// A call.
#[derive(Drop)]
pub enum Call {
    Given(Given),
    Start(Role),
    OnNode(NodeCall),
    OnDataset(DatasetCall),
}

/// What a node is started as.
#[derive(Clone, Copy, PartialEq, Eq)]
pub enum Role {
    Master,
    Replica,
}

/// A call on the node. Links are named by their places among those opened.
#[derive(Drop)]
pub enum NodeCall {
    Open,
    Feed(usize, Vec<u8>),
    Step(usize),
    Room(usize),
    Close(usize),
    Tick,
    FileFailed,
    Shows,
}

/// A call on the dataset beside the node, or on none.
#[derive(Drop)]
pub enum DatasetCall {
    Spell(Vec<u8>),
    Apply(Vec<u8>, Way),
    Ask(Vec<u8>),
    Due,
    Rebuild,
}

/// How an effect comes to the dataset.
#[derive(Clone, Copy, Drop)]
pub enum Way {
    ByReference,
    Moved,
}

impl Call {
    /// The call that a line names.
    pub fn read(alloc: Global, line: &str) -> Result<Call, RehearsalFault> {
        let mut words = line.split(' ');
        let name = words.next().unwrap_or("");
        let first = words.next();
        let second = words.next();
        match (first, second) {
            (None, _) => alone(name),
            (Some(first), None) => with_one(alloc, name, first),
            (Some(first), Some(second)) => with_two(alloc, name, first, second),
        }
    }
}

/// The call that a word names by itself. Fails where it names none.
fn alone(name: &str) -> Result<Call, RehearsalFault> {
    match name {
        "master" => Ok(Call::Start(Role::Master)),
        "replica" => Ok(Call::Start(Role::Replica)),
        "open" => Ok(Call::OnNode(NodeCall::Open)),
        "tick" => Ok(Call::OnNode(NodeCall::Tick)),
        "file_failed" => Ok(Call::OnNode(NodeCall::FileFailed)),
        "shows" => Ok(Call::OnNode(NodeCall::Shows)),
        "due" => Ok(Call::OnDataset(DatasetCall::Due)),
        "rebuild" => Ok(Call::OnDataset(DatasetCall::Rebuild)),
        _ => Err(RehearsalFault::Line),
    }
}

/// The call that a name and one word name. Fails where they name none.
fn with_one(alloc: Global, name: &str, word: &str) -> Result<Call, RehearsalFault> {
    match name {
        "step" => Ok(Call::OnNode(NodeCall::Step(place_of(word)?))),
        "room" => Ok(Call::OnNode(NodeCall::Room(place_of(word)?))),
        "close" => Ok(Call::OnNode(NodeCall::Close(place_of(word)?))),
        _ => Ok(Call::OnDataset(on_bytes(name, bytes_of(alloc, word)?)?)),
    }
}

/// The call on the dataset that a name names, with these bytes. Fails where it names none.
fn on_bytes(name: &str, bytes: Vec<u8>) -> Result<DatasetCall, RehearsalFault> {
    match name {
        "spell" => Ok(DatasetCall::Spell(bytes)),
        "lend" => Ok(DatasetCall::Apply(bytes, Way::ByReference)),
        "give" => Ok(DatasetCall::Apply(bytes, Way::Moved)),
        "ask" => Ok(DatasetCall::Ask(bytes)),
        _ => Err(RehearsalFault::Line),
    }
}

/// The call that a name and two words name. Fails where they name none.
fn with_two(alloc: Global, name: &str, first: &str, second: &str) -> Result<Call, RehearsalFault> {
    match name {
        "given" => Ok(Call::Given(given_of(first, second)?)),
        "feed" => {
            let link = place_of(first)?;
            Ok(Call::OnNode(NodeCall::Feed(link, bytes_of(alloc, second)?)))
        }
        _ => Err(RehearsalFault::Line),
    }
}

/// The backlog that the first line names.
pub fn backlog_of(line: &str) -> Result<usize, RehearsalFault> {
    let Some(("start", backlog)) = line.split_once(' ') else {
        return Err(RehearsalFault::Line);
    };
    place_of(backlog)
}
