//! The words of a line, and what they say.
use rehearse_shared::RehearsalFault;

/// A line: the name of a call, and the words behind it.
#[derive(Clone, Copy)]
pub struct Line<'a> {
    pub name: &'a str,
    pub words: &'a str,
}

impl<'a> Line<'a> {
    /// The parts of a line.
    pub fn read(text: &'a str) -> Line<'a> {
        match text.split_once(' ') {
            Some((name, words)) => Line { name, words },
            None => Line {
                name: text,
                words: "",
            },
        }
    }
}
