//! Lines on standard error that say what the program does, each with the time in front. Nobody waits until they are read.
#![tactic(auto)]

mod lines;
mod notices;
mod outlet;
mod shown;
mod stamp;
mod standard_error;

pub use lines::Lines;
pub use notices::{Notices, Seldom, tell_last};
pub use outlet::Outlet;
pub use shown::{MOST_SHOWN, Shown, shown_byte};
