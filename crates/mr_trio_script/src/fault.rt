use thiserror::Error;

/// Why a trio ends before its script does.
#[derive(Clone, Copy, Debug, PartialEq, Eq, Error)]
pub enum TrioFault {
    /// The script can't be read, or an answer not be written.
    #[error("file failed")]
    Stream,
    /// A node stopped, or there was no memory.
    #[error("out of memory")]
    Stopped,
    #[error("socket failed")]
    Socket,
    /// A line had no whole reply in all its turns, or a replica wasn't level with its master.
    #[error("late")]
    Late,
}
