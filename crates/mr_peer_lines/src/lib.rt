//! What one node says to another before the stream: lines, the answer to PSYNC, offsets.
#![tactic(auto)]

mod laws;
mod line;
mod offset;
mod psync;
mod writing;

pub use laws::{cuts_do_not_matter, line_is_one, lines_are_apart};
pub use line::{PeerLine, PeerLineScan, next_line};
pub use offset::read_offset;
pub use psync::{PsyncReply, read_reply};
pub use writing::{write_continue, write_full, write_length};
