//! Byte strings and words, numbers as texts, and places in what is listed.
#![tactic(auto)]

mod bytes;
mod ends;
mod indexes;
mod laws;
mod number;
mod word;

pub use bytes::Bytes;
pub use ends::{End, Side};
pub use indexes::{place, window};
pub use laws::{number_texts, window_places};
pub use number::{read_i64, write_i64};
pub use word::{Word, fits};
