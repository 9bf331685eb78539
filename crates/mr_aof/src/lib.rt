//! The append-only file: read as it is opened, then grown at its end, and left alone once it has failed.
#![tactic(auto)]

mod fault;
mod log;
mod no_file;

pub use fault::LogFault;
pub use log::Log;
pub use mr_groups::{Loaded, load_groups};
pub use no_file::NoFile;
