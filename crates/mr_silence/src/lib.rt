//! Which peers have been silent for too long.
#![tactic(auto)]

mod peer;
mod silence;
mod watch;

pub use peer::{Cause, Limits, Peer};
pub use silence::Silence;
pub use watch::Watch;
