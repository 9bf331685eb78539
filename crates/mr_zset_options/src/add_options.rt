// The options of ZADD, which stand in any order in front of the pairs, each at most once.
ghost use Rattle.std.specs.Prelude.{◌≡◌, ◌≤◌, find, length, map};
ghost use Rattle.std.specs.Cow.{cow_slice_items};
ghost use Rattle.std.specs.Str.{bytes_eq};
ghost use Rattle.mr_arguments.specs.Names.{lowered};
ghost use Rattle.mr_zset_options.specs.AddOptions.{add_also, add_option, add_options, add_text, agreeing, is_add_option, no_add_options, option_count, option_words, pair_words};

use crate::choices::{Comparison, ScoreCondition, ScoresReply};
use mr_arguments::{Arguments, AskFault};

/// An option of `ZADD`.
#[derive(Clone, Copy)]
pub enum AddOption {
    /// `NX`, `XX`
    Condition(ScoreCondition),
    /// `GT`, `LT`
    Comparison(Comparison),
    /// `CH`
    Changed,
}

impl AddOption {
    /// The option that a word is, in any case.
    fn of(word: &[u8]) -> Option<AddOption>
        ensures { result ≡ add_option word.now }
    {
        AddOption::among(
            &[
                AddOption::Condition(ScoreCondition::Absent),
                AddOption::Condition(ScoreCondition::Present),
                AddOption::Comparison(Comparison::Greater),
                AddOption::Comparison(Comparison::Less),
                AddOption::Changed,
            ],
            word,
        )
    }

    /// The first of these options that the word is.
    fn among(options: &[AddOption], word: &[u8]) -> Option<AddOption>
        ensures { result ≡ find (is_add_option (lowered word.now)) options.now }
    {
        options.iter().copied().find(|option| option.is(word))
    }

    /// Whether a word is this option, in any case.
    fn is(self, word: &[u8]) -> bool
        ensures { result ≡ is_add_option (lowered word.now) self }
    {
        match self {
            AddOption::Condition(ScoreCondition::Absent) => word.eq_ignore_ascii_case(b"nx"),
            AddOption::Condition(ScoreCondition::Present) => word.eq_ignore_ascii_case(b"xx"),
            AddOption::Comparison(Comparison::Greater) => word.eq_ignore_ascii_case(b"gt"),
            AddOption::Comparison(Comparison::Less) => word.eq_ignore_ascii_case(b"lt"),
            AddOption::Changed => word.eq_ignore_ascii_case(b"ch"),
        }
    }
}

/// The words up to the first that is no option, and the words from there on.
pub fn cut_options<'a, 't>(words: Arguments<'a, 't>) -> (Arguments<'a, 't>, Arguments<'a, 't>)
    ensures options { map cow_slice_items result.0.now ≡
        option_words (map cow_slice_items words.now) }
    ensures pairs { map cow_slice_items result.1.now ≡
        pair_words (map cow_slice_items words.now) }
{
    words.split_at(option_count(words))
}

/// How many words are options, up to the first that is none.
fn option_count(words: Arguments<'_, '_>) -> usize
    ensures count { result ≡ option_count (map cow_slice_items words.now) }
    ensures within { result ≤ length words.now }
{
    let mut count = 0;
    for word in words {
        if AddOption::of(word.as_slice()).is_none() {
            return count;
        }
        count += 1;
    }
    count
}

/// What the options of `ZADD` set.
#[derive(Clone, Copy)]
pub struct AddOptions {
    pub condition: Option<ScoreCondition>,
    pub comparison: Option<Comparison>,
    pub reply: ScoresReply,
}

impl AddOptions {
    /// What these words set, of which each is an option.
    pub fn read(words: Arguments<'_, '_>) -> Result<AddOptions, AskFault>
        ensures { result ≡ add_options (map cow_slice_items words.now) }
    {
        let mut options = AddOptions::none();
        for word in words {
            let option = AddOption::of(word.as_slice()).ok_or(AskFault::Syntax)?;
            options = options.and(option)?;
        }
        options.agreeing()
    }

    /// No option: each score is set, and the members that are new are counted.
    fn none() -> AddOptions
        ensures { result ≡ no_add_options }
    {
        AddOptions {
            condition: None,
            comparison: None,
            reply: ScoresReply::Added,
        }
    }

    /// These options with one more. It is a syntax fault where one like it is there.
    fn and(self, option: AddOption) -> Result<AddOptions, AskFault>
        ensures { result ≡ add_also self option }
    {
        match (option, self.condition, self.comparison, self.reply) {
            (AddOption::Condition(condition), None, comparison, reply) => Ok(AddOptions {
                condition: Some(condition),
                comparison,
                reply,
            }),
            (AddOption::Comparison(comparison), condition, None, reply) => Ok(AddOptions {
                condition,
                comparison: Some(comparison),
                reply,
            }),
            (AddOption::Changed, condition, comparison, ScoresReply::Added) => Ok(AddOptions {
                condition,
                comparison,
                reply: ScoresReply::Changed,
            }),
            _ => Err(AskFault::Syntax),
        }
    }

    /// These options. It is a syntax fault where scores are to be compared of members that aren't there.
    fn agreeing(self) -> Result<AddOptions, AskFault>
        ensures { result ≡ agreeing self }
    {
        match (self.condition, self.comparison) {
            (Some(ScoreCondition::Absent), Some(_)) => Err(AskFault::Syntax),
            _ => Ok(self),
        }
    }
}
