/// A node's role, and of a replica how far it has come with the link to its master.
#[derive(Clone, Copy, Debug, PartialEq, Eq)]
pub enum Role {
    /// A master.
    Master,
    /// A replica without a link to its master.
    Connect,
    /// A replica before its master's stream.
    Sync,
    /// A replica in its master's stream.
    Connected,
}
