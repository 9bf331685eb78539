/// Whose end of a link it is.
#[derive(Clone, Copy, Debug, PartialEq, Eq)]
pub enum Kind {
    /// A client's: its requests are answered.
    Client,
    /// A replica's: its PSYNC was answered by CONTINUE or FULLRESYNC, and the stream is sent there.
    Replica,
    /// The node's own, of the link to its master.
    Upstream,
    /// The node closed it, and drops what is fed to it.
    Shut,
}
