// The options of SET, which stand in any order, each at most once.
ghost use Rattle.std.specs.Prelude.{◌≡◌, ◌∷◌, ◌≤◌, Some, Err, IfErr, IfOk, find, length, map};
ghost use Rattle.std.specs.Cow.{cow_slice_items};
ghost use Rattle.mr_arguments.specs.Names.{lowered};
ghost use Rattle.mr_cmd_string.specs.Options.{set_option, is_set_option, unit_of, is_unit, no_set_options, set_also, until, set_options, number_then};

use crate::text_ask::{SetCondition, SetReply};
use mr_arguments::{Argument, Arguments, AskFault, ExpiryUnit};
use std::borrow::CowSlice;

/// An option of `SET` that is one word.
#[derive(Clone, Copy)]
pub(crate) enum SetOption {
    /// `NX`, `XX`
    Condition(SetCondition),
    /// `GET`
    Before,
    /// `KEEPTTL`
    Kept,
}

impl SetOption {
    /// The option that a word is, in any case.
    fn of(word: &[u8]) -> Option<SetOption>
        ensures { result ≡ set_option word.now }
    {
        SetOption::among(
            &[
                SetOption::Condition(SetCondition::Absent),
                SetOption::Condition(SetCondition::Present),
                SetOption::Before,
                SetOption::Kept,
            ],
            word,
        )
    }

    /// The first of these options that the word is.
    fn among(options: &[SetOption], word: &[u8]) -> Option<SetOption>
        ensures { result ≡ find (is_set_option (lowered word.now)) options.now }
    {
        options.iter().copied().find(|option| option.is(word))
    }

    /// Whether a word is this option, in any case.
    fn is(self, word: &[u8]) -> bool
        ensures { result ≡ is_set_option (lowered word.now) self }
    {
        match self {
            SetOption::Condition(SetCondition::Absent) => word.eq_ignore_ascii_case(b"nx"),
            SetOption::Condition(SetCondition::Present) => word.eq_ignore_ascii_case(b"xx"),
            SetOption::Before => word.eq_ignore_ascii_case(b"get"),
            SetOption::Kept => word.eq_ignore_ascii_case(b"keepttl"),
        }
    }
}

/// The unit of the number behind a word of `SET`, in any case.
fn unit_of(word: &[u8]) -> Option<ExpiryUnit>
    ensures { result ≡ unit_of word.now }
{
    unit_among(
        &[
            ExpiryUnit::Seconds,
            ExpiryUnit::Milliseconds,
            ExpiryUnit::AtSecond,
            ExpiryUnit::AtMillisecond,
        ],
        word,
    )
}

/// The first of these units whose word it is.
fn unit_among(units: &[ExpiryUnit], word: &[u8]) -> Option<ExpiryUnit>
    ensures { result ≡ find (is_unit (lowered word.now)) units.now }
{
    units.iter().copied().find(|unit| is_unit(*unit, word))
}

/// Whether a word of `SET` says that the number behind it is in this unit, in any case.
fn is_unit(unit: ExpiryUnit, word: &[u8]) -> bool
    ensures { result ≡ is_unit (lowered word.now) unit }
{
    match unit {
        ExpiryUnit::Seconds => word.eq_ignore_ascii_case(b"ex"),
        ExpiryUnit::Milliseconds => word.eq_ignore_ascii_case(b"px"),
        ExpiryUnit::AtSecond => word.eq_ignore_ascii_case(b"exat"),
        ExpiryUnit::AtMillisecond => word.eq_ignore_ascii_case(b"pxat"),
    }
}

/// What an option of `SET` says of how long the value stays.
#[derive(Drop)]
pub(crate) enum LifetimeOption<'a> {
    /// `KEEPTTL`
    Kept,
    /// `EX`, `PX`, `EXAT`, `PXAT`, with the word behind it.
    Until(ExpiryUnit, Argument<'a>),
}

/// What the options of `SET` set.
#[derive(Drop)]
pub(crate) struct SetOptions<'a> {
    pub(crate) condition: Option<SetCondition>,
    pub(crate) reply: SetReply,
    pub(crate) lifetime: Option<LifetimeOption<'a>>,
}

impl<'a> SetOptions<'a> {
    /// What these words set, of which each is an option, or stands behind one.
    pub(crate) fn read(words: Arguments<'a, '_>) -> Result<SetOptions<'a>, AskFault>
        ensures { result ≡ set_options no_set_options (map cow_slice_items words.now) }
    {
        SetOptions::none().and_all(words)
    }

    /// These options with each one of these words. An option stands once, so this goes no deeper than there are
    /// options; else it is a syntax fault.
    fn and_all(self, words: Arguments<'a, '_>) -> Result<SetOptions<'a>, AskFault>
        ensures { result ≡ set_options self.entry (map cow_slice_items words.now) }
    {
        match words {
            [] => Ok(self),
            [word, after @ ..] => {
                let (more, behind) = self.with_first(word, after)?;
                more.and_all(behind)
            }
        }
    }

    /// No option: any key is set, and gets no deadline.
    fn none() -> SetOptions<'a>
        ensures { result ≡ no_set_options }
    {
        SetOptions {
            condition: None,
            reply: SetReply::Done,
            lifetime: None,
        }
    }

    /// These options with the one that begins with this word, and the words behind it. It is a syntax fault where none
    /// begins so, or one like it is there.
    fn with_first<'t>(
        self,
        word: &CowSlice<'_, u8>,
        after: Arguments<'a, 't>,
    ) -> Result<(SetOptions<'a>, Arguments<'a, 't>), AskFault>
        ensures ok { IfOk result (λ step.
            set_options step.0 (map cow_slice_items step.1.now) ≡
            set_options self.entry (cow_slice_items word.now ∷ map cow_slice_items after.now)) }
        ensures shorter { IfOk result (λ step. length step.1.now ≤ length after.now) }
        ensures err { IfErr result (λ fault.
            set_options self.entry (cow_slice_items word.now ∷ map cow_slice_items after.now) ≡
            Err fault) }
    {
        let Some(unit) = unit_of(word.as_slice()) else {
            let option = SetOption::of(word.as_slice()).ok_or(AskFault::Syntax)?;
            return Ok((self.and(option)?, after));
        };
        self.with_number(unit, after)
    }

    /// These options with one in this unit, whose number is the first of these words, and the words behind it. It is a
    /// syntax fault where there is no word, or a lifetime is said already.
    fn with_number<'t>(
        self,
        unit: ExpiryUnit,
        words: Arguments<'a, 't>,
    ) -> Result<(SetOptions<'a>, Arguments<'a, 't>), AskFault>
        ensures ok { IfOk result (λ step.
            set_options step.0 (map cow_slice_items step.1.now) ≡
            number_then self.entry (Some unit) (map cow_slice_items words.now)) }
        ensures shorter { IfOk result (λ step. length step.1.now ≤ length words.now) }
        ensures err { IfErr result (λ fault.
            number_then self.entry (Some unit) (map cow_slice_items words.now) ≡ Err fault) }
    {
        match words {
            [number, behind @ ..] => {
                let more = self.until(unit, Argument::of(number))?;
                Ok((more, behind))
            }
            _ => Err(AskFault::Syntax),
        }
    }

    /// These options with one more. It is a syntax fault where one like it is there.
    fn and(self, option: SetOption) -> Result<SetOptions<'a>, AskFault>
        ensures { result ≡ set_also self.entry option }
    {
        let SetOptions {
            condition,
            reply,
            lifetime,
        } = self;
        match (option, condition, reply) {
            (SetOption::Condition(condition), None, reply) => Ok(SetOptions {
                condition: Some(condition),
                reply,
                lifetime,
            }),
            (SetOption::Before, condition, SetReply::Done) => Ok(SetOptions {
                condition,
                reply: SetReply::Before,
                lifetime,
            }),
            (SetOption::Kept, condition, reply) if lifetime.is_none() => Ok(SetOptions {
                condition,
                reply,
                lifetime: Some(LifetimeOption::Kept),
            }),
            _ => Err(AskFault::Syntax),
        }
    }

    /// These options with one in this unit, and its number. It is a syntax fault where a lifetime is said already.
    fn until(self, unit: ExpiryUnit, number: Argument<'a>) -> Result<SetOptions<'a>, AskFault>
        ensures { result ≡ until self.entry (Some unit) number.entry }
    {
        let SetOptions {
            condition,
            reply,
            lifetime,
        } = self;
        if lifetime.is_some() {
            return Err(AskFault::Syntax);
        }
        Ok(SetOptions {
            condition,
            reply,
            lifetime: Some(LifetimeOption::Until(unit, number)),
        })
    }
}
