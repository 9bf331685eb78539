// What single arguments say.
ghost use Rattle.std.specs.Prelude.{◌≡◌};
ghost use Rattle.std.specs.Cow.{cow_slice_items};
ghost use Rattle.std.specs.Option.{option_map};
ghost use Rattle.std.specs.Str.{bytes_eq};
ghost use Rattle.mr_arguments.specs.Names.{lowered};
ghost use Rattle.mr_arguments.specs.Parts.{not_below_1};
ghost use Rattle.mr_cmd_key.specs.Parts.{positive, positive_if_any, cursor_at, cursor_of, timing_of, timing_text, is_kind, kind_of, expiring, key_expiry};
ghost use Rattle.mr_arguments.specs.Expiry.{within_limit};

use crate::key_ask::{Cursor, KindName, Timing};
use mr_arguments::{
    Argument, AskFault, BadValue, ExpiringCommand, Expiry, ExpiryUnit, integer, not_below_1,
    within_limit,
};
use mr_bytes::read_i64;
use std::borrow::CowSlice;

/// A number from 1 on, where there is one.
pub(crate) fn positive_if_any(word: &Option<Argument<'_>>) -> Result<Option<i64>, AskFault>
    ensures { result ≡ positive_if_any word.now }
{
    match word {
        None => Ok(None),
        Some(word) => Ok(Some(positive(word.as_slice())?)),
    }
}

/// The number from 1 on that a text spells. It is a fault where it is no whole number, and a syntax fault where it is
/// below 1.
fn positive(text: &[u8]) -> Result<i64, AskFault>
    ensures { result ≡ positive text.now }
{
    not_below_1(AskFault::Syntax, read_i64(text).ok_or(AskFault::Integer)?)
}

/// Where a scan goes on at a cursor, which is a number that isn't below 0.
pub(crate) fn cursor_of(word: &CowSlice<'_, u8>) -> Result<Cursor, AskFault>
    ensures { result ≡ cursor_of (cow_slice_items word.now) }
{
    cursor_at(read_i64(word.as_slice()).ok_or(AskFault::Other(BadValue::Cursor))?)
}

/// Where a scan goes on at this number. It is a fault where it is below 0.
fn cursor_at(number: i64) -> Result<Cursor, AskFault>
    ensures { result ≡ cursor_at number }
{
    if number < 0 {
        Err(AskFault::Other(BadValue::Cursor))
    } else if number == 0 {
        Ok(Cursor::Start)
    } else {
        Ok(Cursor::Behind)
    }
}

/// `ASYNC` or `SYNC`, in any case.
pub(crate) fn timing_of(word: &CowSlice<'_, u8>) -> Result<Timing, AskFault>
    ensures { result ≡ timing_of (cow_slice_items word.now) }
{
    if is_timing(word, Timing::Later) {
        Ok(Timing::Later)
    } else if is_timing(word, Timing::Now) {
        Ok(Timing::Now)
    } else {
        Err(AskFault::Syntax)
    }
}

/// Whether a word says this of when keys go, in any case.
fn is_timing(word: &CowSlice<'_, u8>, timing: Timing) -> bool
    ensures { result ≡ bytes_eq (lowered (cow_slice_items word.now)) (timing_text timing) }
{
    match timing {
        Timing::Later => word.as_slice().eq_ignore_ascii_case(b"async"),
        Timing::Now => word.as_slice().eq_ignore_ascii_case(b"sync"),
    }
}

/// The kind that a word names, in any case, where there is one.
pub(crate) fn kind_if_any(word: &Option<Argument<'_>>) -> Option<KindName>
    ensures { result ≡ option_map kind_of word.now }
{
    match word {
        None => None,
        Some(word) => Some(kind_of(word.as_slice())),
    }
}

/// The kind that a word names, in any case. A word that names none is an unknown kind, which no value is of.
fn kind_of(word: &[u8]) -> KindName
    ensures { result ≡ kind_of word.now }
{
    if is_kind(word, KindName::Text) {
        KindName::Text
    } else if is_kind(word, KindName::Hash) {
        KindName::Hash
    } else if is_kind(word, KindName::List) {
        KindName::List
    } else if is_kind(word, KindName::Set) {
        KindName::Set
    } else if is_kind(word, KindName::SortedSet) {
        KindName::SortedSet
    } else {
        KindName::Unknown
    }
}

/// Whether a word is the name of this kind, in any case. That of the unknown kind is empty.
fn is_kind(word: &[u8], kind: KindName) -> bool
    ensures { result ≡ is_kind word.now kind }
{
    match kind {
        KindName::Text => word.eq_ignore_ascii_case(b"string"),
        KindName::Hash => word.eq_ignore_ascii_case(b"hash"),
        KindName::List => word.eq_ignore_ascii_case(b"list"),
        KindName::Set => word.eq_ignore_ascii_case(b"set"),
        KindName::SortedSet => word.eq_ignore_ascii_case(b"zset"),
        KindName::Unknown => word.eq_ignore_ascii_case(b""),
    }
}

/// The command that sets a deadline in this unit.
fn expiring(unit: ExpiryUnit) -> ExpiringCommand
    ensures { result ≡ expiring unit }
{
    match unit {
        ExpiryUnit::Seconds => ExpiringCommand::Expire,
        ExpiryUnit::Milliseconds => ExpiringCommand::PExpire,
        ExpiryUnit::AtSecond => ExpiringCommand::ExpireAt,
        ExpiryUnit::AtMillisecond => ExpiringCommand::PExpireAt,
    }
}

/// What the number of `EXPIRE` says, and of its kin.
pub(crate) fn key_expiry(unit: ExpiryUnit, word: &CowSlice<'_, u8>) -> Result<Expiry, AskFault>
    ensures { result ≡ key_expiry unit (cow_slice_items word.now) }
{
    within_limit(expiring(unit), unit, integer(word)?)
}
