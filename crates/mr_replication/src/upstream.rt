use thiserror::Error;

/// What a step at the link to the master came to.
#[derive(Clone, Copy, Debug, PartialEq, Eq, Drop)]
pub enum UpstreamStep {
    /// Nothing whole is there.
    Idle,
    /// A line of the handshake was answered. The next is to be sent.
    Said,
    /// A snapshot is announced.
    Announced,
    /// The stream goes on where it was asked for.
    Continued,
    /// A whole snapshot took the place of the dataset and of the stream. The commands that rebuild it were put out.
    Loaded,
    /// A group of the stream was applied. Its text was put out.
    Applied,
    /// The master said what it may not, or refused: it is followed no longer.
    Left,
    /// What the master sent is no snapshot, or no group that can be begun here: it is followed no longer, and nothing is left to
    /// continue.
    Spoiled,
}

/// Why no step was made at the link to the master.
#[derive(Clone, Copy, Debug, PartialEq, Eq, Drop, Error)]
pub enum UpstreamFault {
    /// Memory ran out. No byte was used.
    #[error("out of memory")]
    Memory,
    /// Memory ran out while an effect was applied, or a group can't be applied as a whole: the node stops.
    #[error("the dataset is spent: out of memory, or a group that does not apply as a whole")]
    Stopped,
}
