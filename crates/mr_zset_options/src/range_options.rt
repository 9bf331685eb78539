// The options of ranges, which stand in any order, each at most once.
ghost use Rattle.std.specs.Prelude.{◌≡◌, ◌∷◌, ◌≤◌, Err, IfErr, IfOk, find, length, map};
ghost use Rattle.std.specs.Cow.{cow_slice_items};
ghost use Rattle.std.specs.Str.{bytes_eq};
ghost use Rattle.mr_arguments.specs.Names.{lowered};
ghost use Rattle.mr_zset_options.specs.RangeOptions.{is_limit, is_range_option, limit_then, limited, no_range_options, range_also, range_option, range_options};

use crate::choices::{Order, RangeReply};
use mr_arguments::{Argument, Arguments, AskFault};
use std::borrow::CowSlice;

/// An option of a range that is one word.
#[derive(Clone, Copy)]
pub enum RangeOption {
    /// `BYSCORE`
    ByScore,
    /// `REV`
    Reverse,
    /// `WITHSCORES`
    WithScores,
}

impl RangeOption {
    /// The option that a word is, in any case.
    fn of(word: &[u8]) -> Option<RangeOption>
        ensures { result ≡ range_option word.now }
    {
        RangeOption::among(
            &[
                RangeOption::ByScore,
                RangeOption::Reverse,
                RangeOption::WithScores,
            ],
            word,
        )
    }

    /// The first of these options that the word is.
    fn among(options: &[RangeOption], word: &[u8]) -> Option<RangeOption>
        ensures { result ≡ find (is_range_option (lowered word.now)) options.now }
    {
        options.iter().copied().find(|option| option.is(word))
    }

    /// Whether a word is this option, in any case.
    fn is(self, word: &[u8]) -> bool
        ensures { result ≡ is_range_option (lowered word.now) self }
    {
        match self {
            RangeOption::ByScore => word.eq_ignore_ascii_case(b"byscore"),
            RangeOption::Reverse => word.eq_ignore_ascii_case(b"rev"),
            RangeOption::WithScores => word.eq_ignore_ascii_case(b"withscores"),
        }
    }
}

/// What the two ends of a range are.
#[derive(Clone, Copy)]
pub enum RangeBy {
    /// Places.
    Rank,
    /// Bounds on scores (`BYSCORE`).
    Score,
}

/// The words behind `LIMIT`.
#[derive(Drop)]
pub struct LimitWords<'a> {
    pub offset: Argument<'a>,
    pub count: Argument<'a>,
}

/// What the options of a range set.
#[derive(Drop)]
pub struct RangeOptions<'a> {
    pub by: RangeBy,
    pub order: Order,
    pub limit: Option<LimitWords<'a>>,
    pub reply: RangeReply,
}

impl<'a> RangeOptions<'a> {
    /// What these words set, of which each is an option, or stands behind `LIMIT`.
    pub fn read(words: Arguments<'a, '_>) -> Result<RangeOptions<'a>, AskFault>
        ensures { result ≡ range_options no_range_options (map cow_slice_items words.now) }
    {
        RangeOptions::none().and_all(words)
    }

    /// These options with each one of these words. An option stands once, so this goes no deeper than there are
    /// options; else it is a syntax fault.
    fn and_all(self, words: Arguments<'a, '_>) -> Result<RangeOptions<'a>, AskFault>
        ensures { result ≡ range_options self.entry (map cow_slice_items words.now) }
    {
        match words {
            [] => Ok(self),
            [word, after @ ..] => {
                let (more, behind) = self.with_first(word, after)?;
                more.and_all(behind)
            }
        }
    }

    /// No option: the members by rank, in ascending order.
    fn none() -> RangeOptions<'a>
        ensures { result ≡ no_range_options }
    {
        RangeOptions {
            by: RangeBy::Rank,
            order: Order::Ascending,
            limit: None,
            reply: RangeReply::Members,
        }
    }

    /// These options with the one that begins with this word, and the words behind it. It is a syntax fault where none
    /// begins so, or it stands twice.
    fn with_first<'t>(
        self,
        word: &CowSlice<'_, u8>,
        after: Arguments<'a, 't>,
    ) -> Result<(RangeOptions<'a>, Arguments<'a, 't>), AskFault>
        ensures ok { IfOk result (λ step.
            range_options step.0 (map cow_slice_items step.1.now) ≡
            range_options self.entry (cow_slice_items word.now ∷ map cow_slice_items after.now)) }
        ensures shorter { IfOk result (λ step. length step.1.now ≤ length after.now) }
        ensures err { IfErr result (λ fault.
            range_options self.entry (cow_slice_items word.now ∷
            map cow_slice_items after.now) ≡ Err fault) }
    {
        if !is_limit(word) {
            let option = RangeOption::of(word.as_slice()).ok_or(AskFault::Syntax)?;
            return Ok((self.and(option)?, after));
        }
        self.with_limit(after)
    }

    /// These options with `LIMIT`, whose words are the first of these, and the words behind them. It is a syntax fault
    /// where there are fewer than two, or `LIMIT` stands twice.
    fn with_limit<'t>(
        self,
        words: Arguments<'a, 't>,
    ) -> Result<(RangeOptions<'a>, Arguments<'a, 't>), AskFault>
        ensures ok { IfOk result (λ step.
            range_options step.0 (map cow_slice_items step.1.now) ≡
            limit_then self.entry (map cow_slice_items words.now)) }
        ensures shorter { IfOk result (λ step. length step.1.now ≤ length words.now) }
        ensures err { IfErr result (λ fault.
            limit_then self.entry (map cow_slice_items words.now) ≡ Err fault) }
    {
        match words {
            [offset, count, behind @ ..] => {
                let limited = self.limited(Argument::of(offset), Argument::of(count))?;
                Ok((limited, behind))
            }
            _ => Err(AskFault::Syntax),
        }
    }

    /// These options with one more. It is a syntax fault where it is there already.
    fn and(self, option: RangeOption) -> Result<RangeOptions<'a>, AskFault>
        ensures { result ≡ range_also self.entry option }
    {
        let RangeOptions {
            by,
            order,
            limit,
            reply,
        } = self;
        match (option, by, order, reply) {
            (RangeOption::ByScore, RangeBy::Rank, order, reply) => Ok(RangeOptions {
                by: RangeBy::Score,
                order,
                limit,
                reply,
            }),
            (RangeOption::Reverse, by, Order::Ascending, reply) => Ok(RangeOptions {
                by,
                order: Order::Descending,
                limit,
                reply,
            }),
            (RangeOption::WithScores, by, order, RangeReply::Members) => Ok(RangeOptions {
                by,
                order,
                limit,
                reply: RangeReply::WithScores,
            }),
            _ => Err(AskFault::Syntax),
        }
    }

    /// These options with `LIMIT` and its words. It is a syntax fault where there is a limit already.
    fn limited(
        self,
        offset: Argument<'a>,
        count: Argument<'a>,
    ) -> Result<RangeOptions<'a>, AskFault>
        ensures { result ≡ limited self.entry offset.entry count.entry }
    {
        let RangeOptions {
            by,
            order,
            limit,
            reply,
        } = self;
        if limit.is_some() {
            return Err(AskFault::Syntax);
        }
        Ok(RangeOptions {
            by,
            order,
            limit: Some(LimitWords { offset, count }),
            reply,
        })
    }
}

/// Whether a word is `LIMIT`, in any case.
fn is_limit(word: &CowSlice<'_, u8>) -> bool
    ensures { result ≡ is_limit (cow_slice_items word.now) }
{
    word.as_slice().eq_ignore_ascii_case(b"limit")
}
