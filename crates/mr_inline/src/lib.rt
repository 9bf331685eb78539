//! Requests in inline form: a line of words.
#![tactic(auto)]

mod fault;
mod laws;
mod limits;
mod measure;
mod place;
mod progress;
mod quoted;
mod scan;
mod words;

pub use fault::LineFault;
pub use laws::{faults_say_why, lines_are_apart, one_fault, quoted_words_are_read};
pub use limits::{LINE_LIMIT, TEXT_LIMIT, WORD_LIMIT, WORDS_LIMIT};
pub use progress::LineProgress;
pub use scan::{LineScan, next_line, next_line_from};
