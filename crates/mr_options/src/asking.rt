//! Lines that ask about the program, and for no run of it.
ghost use Rattle.std.specs.Prelude.{◌≡◌, map, string_bytes};
ghost use Rattle.std.specs.List.{list_any};
ghost use Rattle.mr_options.specs.Questions.{question_of, same_text};

/// What a line asks about the program.
#[derive(Clone, Copy, Debug, PartialEq, Eq)]
pub enum Question {
    /// What its words are, and their usual values.
    Help,
    /// Which version it is.
    Version,
}

/// Whether this is one of the words.
fn has_word(words: &[String], word: &str) -> bool
    ensures { result ≡ list_any (same_text word.now) (map string_bytes words.now) }
{
    let mut left = words;
    while let Some((first, rest)) = left.split_first() {
        if first.as_str() == word {
            return true;
        }
        left = rest;
    }
    false
}

/// What the program's words, its name left out, ask about it.
pub fn asked(words: &[String]) -> Option<Question>
    ensures { result ≡ question_of (map string_bytes words.now) }
{
    if has_word(words, "--help") || has_word(words, "-h") {
        return Some(Question::Help);
    }
    if has_word(words, "--version") {
        return Some(Question::Version);
    }
    None
}
