// Commands that change a text where it is.
ghost use Rattle.std.specs.Prelude.{◌≡◌, ◌==◌, ◌&&◌, ◌+◌, ◌<◌, ◌^◌, pos, codes, length, is_some, IfOk, option_copied};
ghost use Rattle.std.specs.Ordering.{int_eq};
ghost use Rattle.std.specs.Str.{bytes_eq};
ghost use Rattle.mr_resp.specs.ReplyView.{view};
ghost use Rattle.mr_bytes.specs.Texts.{overwritten};
ghost use Rattle.mr_keyspace.specs.Steps.{strings, held};
ghost use Rattle.mr_cmd_shared.specs.Answered.{Takes};
ghost use Rattle.mr_cmd_string.specs.Changing.{append_answer, setrange_answer, increase_answer};

use crate::replies::{no_integer, overflow, too_long};
use mr_arguments::Argument;
use mr_bytes::{Word, read_i64};
use mr_cmd_shared::{Effects, count, integer, wrong_kind};
use mr_data::{Effect, Entry, Value};
use mr_resp::Reply;
use mr_value::CompactBytes;
use std::alloc::AllocError;

/// The text at a key: this one where nothing is there. None where the key holds another kind.
fn text_at<'t>(none: &'t CompactBytes, live_entry: Option<&'t Entry>) -> Option<&'t CompactBytes>
    ensures { option_copied result ≡ held (strings none.now) (option_copied live_entry.entry) }
{
    match live_entry {
        None => Some(none),
        Some(entry) => match &entry.value {
            Value::Text(text) => Some(text),
            Value::Hash(_) | Value::List(_) | Value::Set(_) | Value::SortedSet(_) => None,
        },
    }
}

/// `APPEND`. The text that is there is not copied.
pub fn append(
    key: &Argument<'_>,
    more: &Argument<'_>,
    live_entry: Option<&Entry>,
    effects: &mut Effects,
) -> Result<Reply, AllocError>
    ensures { IfOk result (λ r.
        Takes (append_answer key.now more.now (option_copied live_entry.entry)) (view r) effects.old
        effects.new) }
{
    let none = CompactBytes::new();
    let Some(text) = text_at(&none, live_entry) else {
        return Ok(wrong_kind());
    };
    if !text.fits_with(more.as_slice()) {
        return Ok(too_long());
    }
    if is_same(more.as_slice(), live_entry) {
        return Ok(count(text.as_slice().len()));
    }
    let alloc = effects.alloc();
    effects.push(Effect::Append {
        key: Word::copied(alloc, key.as_slice())?,
        value: Word::copied(alloc, more.as_slice())?,
    })?;
    Ok(count(text.as_slice().len() + more.as_slice().len()))
}

/// Whether a key has the same text once this is put behind it: it is there, and nothing is put.
fn is_same(more: &[u8], live_entry: Option<&Entry>) -> bool
    ensures { result ≡ is_some (option_copied live_entry.entry) && (length more.now == 0) }
{
    live_entry.is_some() && more.is_empty()
}

/// `SETRANGE`. The text that is there is not copied.
pub fn setrange(
    key: &Argument<'_>,
    offset: usize,
    part: &Argument<'_>,
    live_entry: Option<&Entry>,
    effects: &mut Effects,
) -> Result<Reply, AllocError>
    ensures { IfOk result (λ r.
        Takes (setrange_answer key.now offset part.now (option_copied live_entry.entry)) (view r)
        effects.old effects.new) }
{
    let none = CompactBytes::new();
    let Some(text) = text_at(&none, live_entry) else {
        return Ok(wrong_kind());
    };
    if part.as_slice().is_empty() {
        return Ok(count(text.as_slice().len()));
    }
    if !text.fits_overwritten(offset, part.as_slice()) {
        return Ok(too_long());
    }
    if holds_part(text.as_slice(), offset, part.as_slice()) {
        return Ok(count(text.as_slice().len()));
    }
    let alloc = effects.alloc();
    effects.push(Effect::SetRange {
        key: Word::copied(alloc, key.as_slice())?,
        offset: offset as i64,
        value: Word::copied(alloc, part.as_slice())?,
    })?;
    let len = overwritten_len(text.as_slice(), offset, part.as_slice());
    Ok(count(len))
}

/// Whether the bytes from an offset on are these already.
fn holds_part(text: &[u8], offset: usize, part: &[u8]) -> bool
    requires { offset + length part.now < 2 ^ 63 }
    ensures { result ≡ bytes_eq text.now (overwritten offset part.now text.now) }
{
    let end = offset + part.len();
    end <= text.len() && same(&text[offset..end], part)
}

/// Whether two texts are one.
fn same(left: &[u8], right: &[u8]) -> bool
    ensures { result ≡ bytes_eq left.now right.now }
{
    left == right
}

/// How long a text is once another was written over it from an offset on.
fn overwritten_len(text: &[u8], offset: usize, part: &[u8]) -> usize
    requires { offset + length part.now < 2 ^ 63 }
    ensures { result ≡ length (overwritten offset part.now text.now) }
{
    let end = offset + part.len();
    if end < text.len() { text.len() } else { end }
}

/// The text at a key that is to be a number: that of 0 where nothing is there. None where the key holds another kind.
fn number_text<'t>(live_entry: Option<&'t Entry>) -> Option<&'t [u8]>
    ensures { option_copied result ≡ held (strings (codes "0")) (option_copied live_entry.entry) }
{
    match live_entry {
        None => Some(b"0"),
        Some(entry) => match &entry.value {
            Value::Text(text) => Some(text.as_slice()),
            Value::Hash(_) | Value::List(_) | Value::Set(_) | Value::SortedSet(_) => None,
        },
    }
}

/// `INCR`, `DECR`, `INCRBY`, `DECRBY`
pub fn increase(
    key: &Argument<'_>,
    by: i64,
    live_entry: Option<&Entry>,
    effects: &mut Effects,
) -> Result<Reply, AllocError>
    ensures { IfOk result (λ r.
        Takes (increase_answer key.now by (option_copied live_entry.entry)) (view r) effects.old
        effects.new) }
{
    let Some(text) = number_text(live_entry) else {
        return Ok(wrong_kind());
    };
    let Some(number) = read_i64(text) else {
        return Ok(no_integer());
    };
    let Some(sum) = number.checked_add(by) else {
        return Ok(overflow());
    };
    if adds_nothing(by, live_entry) {
        return Ok(integer(sum));
    }
    effects.push(Effect::Increase {
        key: Word::copied(effects.alloc(), key.as_slice())?,
        by,
    })?;
    Ok(integer(sum))
}

/// Whether a key has the same number once this is added: it is there, and 0 is added.
fn adds_nothing(by: i64, live_entry: Option<&Entry>) -> bool
    ensures { result ≡ is_some (option_copied live_entry.entry) && int_eq by (pos 0) }
{
    live_entry.is_some() && by == 0
}
