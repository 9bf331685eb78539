// The options of SCAN, which stand in any order, each at most once, and the one of EXPIRE.
ghost use Rattle.std.specs.Prelude.{◌≡◌, Some, Err, find, map};
ghost use Rattle.std.specs.Cow.{cow_slice_items};
ghost use Rattle.std.specs.Str.{bytes_eq};
ghost use Rattle.mr_arguments.specs.Names.{lowered};
ghost use Rattle.mr_cmd_key.specs.Options.{expire_condition, is_expire_condition, condition_if_any, scan_text, scan_option, no_scan_options, scan_also, scan_options};

use crate::key_ask::ExpireCondition;
use mr_arguments::{Argument, Arguments, AskFault, WordPairs};

impl ExpireCondition {
    /// The condition that a word is, in any case.
    fn of(word: &[u8]) -> Option<ExpireCondition>
        ensures { result ≡ expire_condition word.now }
    {
        ExpireCondition::among(
            &[
                ExpireCondition::Endless,
                ExpireCondition::Expiring,
                ExpireCondition::Later,
                ExpireCondition::Earlier,
            ],
            word,
        )
    }

    /// The first of these conditions that the word is.
    fn among(conditions: &[ExpireCondition], word: &[u8]) -> Option<ExpireCondition>
        ensures { result ≡ find (is_expire_condition (lowered word.now)) conditions.now }
    {
        conditions
            .iter()
            .copied()
            .find(|condition| condition.is(word))
    }

    /// Whether a word is this condition, in any case.
    fn is(self, word: &[u8]) -> bool
        ensures { result ≡ is_expire_condition (lowered word.now) self }
    {
        match self {
            ExpireCondition::Endless => word.eq_ignore_ascii_case(b"nx"),
            ExpireCondition::Expiring => word.eq_ignore_ascii_case(b"xx"),
            ExpireCondition::Later => word.eq_ignore_ascii_case(b"gt"),
            ExpireCondition::Earlier => word.eq_ignore_ascii_case(b"lt"),
        }
    }

    /// The condition that these words are, where there is one.
    pub(crate) fn if_any(words: Arguments<'_, '_>) -> Result<Option<ExpireCondition>, AskFault>
        ensures { result ≡ condition_if_any (map cow_slice_items words.now) }
    {
        match words {
            [] => Ok(None),
            [word] => Ok(Some(ExpireCondition::of(word.as_slice()).ok_or(AskFault::Syntax)?)),
            _ => Err(AskFault::Syntax),
        }
    }
}

/// An option of `SCAN`, without its argument.
#[derive(Clone, Copy)]
pub(crate) enum ScanOption {
    /// `MATCH`
    Pattern,
    /// `COUNT`
    Count,
    /// `TYPE`
    Kind,
}

impl ScanOption {
    /// The option that a word is, in any case. It is a syntax fault where it is none.
    fn of(word: &[u8]) -> Result<ScanOption, AskFault>
        ensures { result ≡ scan_option word.now }
    {
        if ScanOption::Pattern.is(word) {
            Ok(ScanOption::Pattern)
        } else if ScanOption::Count.is(word) {
            Ok(ScanOption::Count)
        } else if ScanOption::Kind.is(word) {
            Ok(ScanOption::Kind)
        } else {
            Err(AskFault::Syntax)
        }
    }

    /// Whether a word is this option, in any case.
    fn is(self, word: &[u8]) -> bool
        ensures { result ≡ bytes_eq (lowered word.now) (scan_text self) }
    {
        match self {
            ScanOption::Pattern => word.eq_ignore_ascii_case(b"match"),
            ScanOption::Count => word.eq_ignore_ascii_case(b"count"),
            ScanOption::Kind => word.eq_ignore_ascii_case(b"type"),
        }
    }
}

/// The arguments of the options of `SCAN` that are there.
#[derive(Drop)]
pub(crate) struct ScanOptions<'a> {
    pub(crate) pattern: Option<Argument<'a>>,
    pub(crate) count: Option<Argument<'a>>,
    pub(crate) kind: Option<Argument<'a>>,
}

impl<'a> ScanOptions<'a> {
    /// What these words set, taken two by two: an option and its argument.
    pub(crate) fn read(words: Arguments<'a, '_>) -> Result<ScanOptions<'a>, AskFault>
        ensures { result ≡ scan_options (map cow_slice_items words.now) }
    {
        let pairs = WordPairs::of(words).ok_or(AskFault::Syntax)?;
        let mut options = ScanOptions::none();
        for (option, argument) in pairs.iter() {
            options = options.and(ScanOption::of(option)?, Argument::new(argument))?;
        }
        Ok(options)
    }

    /// No option.
    fn none() -> ScanOptions<'a>
        ensures { result ≡ no_scan_options }
    {
        ScanOptions {
            pattern: None,
            count: None,
            kind: None,
        }
    }

    /// These options with one more, whose argument this is. It is a syntax fault where it is there already.
    fn and(self, option: ScanOption, argument: Argument<'a>) -> Result<ScanOptions<'a>, AskFault>
        ensures { result ≡ scan_also self.entry argument.entry option }
    {
        let ScanOptions {
            pattern,
            count,
            kind,
        } = self;
        match option {
            ScanOption::Pattern if pattern.is_none() => Ok(ScanOptions {
                pattern: Some(argument),
                count,
                kind,
            }),
            ScanOption::Count if count.is_none() => Ok(ScanOptions {
                pattern,
                count: Some(argument),
                kind,
            }),
            ScanOption::Kind if kind.is_none() => Ok(ScanOptions {
                pattern,
                count,
                kind: Some(argument),
            }),
            _ => Err(AskFault::Syntax),
        }
    }
}
