use crate::ReplId;

/// Where a node stands in its stream: what it can continue a replica from.
#[derive(Clone, Copy, Debug)]
pub struct Standing {
    /// The id of the node's stream.
    pub id: ReplId,
    /// The offset of the stream's last byte.
    pub offset: u64,
    /// The id that the stream had before, and the greatest offset that may be asked for under it: that of the first
    /// byte under the new id.
    pub second: Option<(ReplId, u64)>,
    /// The offset of the first byte that the node's backlog holds.
    pub first: u64,
}
