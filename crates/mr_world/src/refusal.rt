// Why an event is refused.
use thiserror::Error;

/// Why an event is refused. Nothing changes then, but for what a node took of a snapshot (`Memory`).
#[derive(Clone, Copy, Debug, PartialEq, Eq, Drop, Error)]
pub enum Refusal {
    /// The id was drawn before, or is that of zeros.
    #[error("id drawn before")]
    Drawn,
    /// There is no such node or link, or the end is closed.
    #[error("nobody there")]
    Nobody,
    /// Those are more bytes than were sent.
    #[error("more than was sent")]
    TooMuch,
    /// Memory ran out, and nothing else stands against the event. Where that was within a snapshot, at the dialler's end, the node keeps what it
    /// took of it; it shows what it showed, and as many bytes are unread.
    #[error("out of memory")]
    Memory,
    /// A client's unread input would be too long.
    #[error("input full")]
    InputFull,
}
