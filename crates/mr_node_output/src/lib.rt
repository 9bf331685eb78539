//! What a call on a node gives out, for its host to carry out in order.
#![tactic(auto)]

mod address;
mod buffers;
mod out;
mod outs;

pub use address::Address;
pub use buffers::Buffers;
pub use out::{Out, OutsIter};
pub use outs::Outs;
