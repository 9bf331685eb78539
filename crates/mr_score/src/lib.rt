//! What a score is: a whole number that a double holds exactly, and how it is spelled.
#![tactic(auto)]

mod laws;
mod score;

pub use laws::score_texts;
pub use score::{is_score, read_score};
