use thiserror::Error;

/// Why the loop ends.
#[derive(Clone, Copy, Debug, PartialEq, Eq, Error)]
pub enum LoopFault {
    /// The wire can't be waited on.
    #[error("socket failed")]
    Listener,
    #[error("file failed")]
    File,
    /// The node is stopped, or memory ran out for what it gave out.
    #[error("out of memory")]
    Stopped,
}
