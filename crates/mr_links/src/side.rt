// The sides of a link.

/// A side of a link.
#[derive(Clone, Copy, Debug, PartialEq, Eq)]
pub enum Side {
    /// That of the client, or of the node, which asked for the link.
    Opener,
    /// That of the node which serves it.
    Server,
}
