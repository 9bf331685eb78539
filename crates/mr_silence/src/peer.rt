// Whom a link leads to, and why such a peer counts as silent.

/// Whom a link leads to, as the node says.
#[derive(Clone, Copy, Debug, PartialEq, Eq)]
pub enum Peer {
    /// A client.
    Client,
    /// A replica, in a whole copy or in the stream.
    Replica,
    /// The master.
    Master,
    /// Whoever it was: the node has closed its end, and what waits there is still written.
    Parting,
}

/// Why a peer has been silent for too long.
#[derive(Clone, Copy, Debug, PartialEq, Eq)]
pub enum Cause {
    /// A master says nothing.
    Master,
    /// A replica has said something and says nothing more, or takes nothing of what waits for it.
    Replica,
    /// Nothing is taken of what waits on a link that the node has closed.
    Parting,
    /// A client neither says nor takes a byte.
    Idle,
}

/// For how many milliseconds peers may be silent.
#[derive(Clone, Copy, Debug, PartialEq, Eq)]
pub struct Limits {
    /// A master, a replica, and whoever is to take what waits on a link that the node has closed.
    pub replication: u64,
    /// A client. None: for ever.
    pub clients: Option<u64>,
}
