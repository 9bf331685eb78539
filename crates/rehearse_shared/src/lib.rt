//! What the rehearsals share: why one ends, what the words of a line say, and how answers are written.
#![tactic(auto)]

mod fault;
mod line;
mod telling;
mod words;

pub use fault::RehearsalFault;
pub use line::Line;
pub use telling::{tell, tell_bytes, tell_fault, tell_refusal, tell_shown};
pub use words::{bytes_of, count_of, given_of, id_of, is_replica, number_of, place_of, port_of};
