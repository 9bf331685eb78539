use mr_data::Dataset;
use mr_repl::ReplId;
use thiserror::Error;

/// What a step of a follower came to.
#[derive(Drop)]
pub enum Heard {
    /// Nothing whole is there.
    Idle,
    /// A line of the handshake was answered. What is to be sent next was put out.
    Say,
    /// A snapshot is announced, of the stream under this id up to this offset.
    Full(ReplId, u64),
    /// The stream goes on where it was asked for, under this id.
    Continue(ReplId),
    /// The snapshot is whole: this is its dataset.
    Snapshot(Dataset),
    /// A group of the stream was applied. Its text was put out.
    Applied,
}

/// Why a follower goes no further.
#[derive(Clone, Copy, Debug, PartialEq, Eq, Drop, Error)]
pub enum FollowFault {
    /// What the master said is no line, or none that may stand there.
    #[error("bad line")]
    BadLine,
    /// The master refused.
    #[error("refused by the master")]
    Refused,
    /// What stands in the snapshot is no effect, or one that can't be applied there; or what stands in the stream is no group, or
    /// one whose first effect can't be applied here.
    #[error("undecodable stream")]
    Undecodable,
    /// Memory ran out, and nothing has changed.
    #[error("out of memory")]
    Memory,
    /// Memory ran out while an effect was applied: the dataset is spent.
    #[error("out of memory, and the dataset is spent")]
    Spent,
    /// Of the group that stands in the stream a later effect can't be applied here: the dataset is spent.
    #[error("a group that does not apply as a whole, and the dataset is spent")]
    Torn,
}
