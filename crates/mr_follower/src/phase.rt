use mr_repl::ReplId;

/// What a replica waits for.
#[derive(Clone, Copy, Debug, PartialEq, Eq)]
pub enum Phase {
    /// The answer to PING.
    Ping,
    /// The answer to its port.
    Port,
    /// The answer to what it is capable of.
    Capabilities,
    /// The answer to PSYNC.
    Psync,
    /// The last byte of a snapshot of the stream under this id, up to this offset.
    Snapshot(ReplId, u64),
    /// The next group of effects.
    Stream,
}
