//! Bytes that come and are used in order: what was fed to a link and is unread, what waits to be sent.
#![tactic(auto)]

mod buffer;
mod room;

pub use buffer::Buffer;
pub use room::reserve;
