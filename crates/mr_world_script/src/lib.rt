//! The lines of a script for a world of nodes: which event each line is, and what is written in answer.
#![tactic(auto)]

mod answer;
mod event_name;
mod laws;
mod line;
mod numbers;
mod reading;
mod side;

pub use answer::ScriptAnswer;
pub use laws::{answers_are_printable, lines_say_one_thing, printed_bytes_tell, quoted_words_say};
pub use line::Line;
