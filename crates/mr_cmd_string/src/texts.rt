// Commands that tell of the texts at keys.
ghost use Rattle.std.specs.Prelude.{◌≡◌, map, IfOk, option_copied};
ghost use Rattle.std.specs.Cow.{cow_slice_items};
ghost use Rattle.mr_resp.specs.Replies as replies;
ghost use Rattle.mr_resp.specs.ReplyView.{view, trees_of};
ghost use Rattle.mr_data.specs.Dataset.{live};
ghost use Rattle.mr_cmd_shared.specs.Commands.{Plans, on_keys};
ghost use Rattle.mr_cmd_string.specs.Texts.{get_reply, strlen_reply, getrange_reply, part, found, text_or_null, told_texts, texts_at};

use mr_arguments::Words;
use mr_bytes::window;
use mr_cmd_shared::{Effects, bulk, count, push_dels, see, wrong_kind};
use mr_data::{Dataset, Entry, Given, Value};
use mr_resp::Reply;
use std::alloc::{AllocError, Global};

/// `GET`
pub fn get(alloc: Global, live_entry: Option<&Entry>) -> Result<Reply, AllocError>
    ensures { IfOk result (λ r. view r ≡ get_reply (option_copied live_entry.entry)) }
{
    let Some(entry) = live_entry else {
        return Ok(Reply::NullBulk);
    };
    match &entry.value {
        Value::Text(text) => bulk(alloc, text.as_slice()),
        Value::Hash(_) | Value::List(_) | Value::Set(_) | Value::SortedSet(_) => Ok(wrong_kind()),
    }
}

/// `STRLEN`
pub fn strlen(live_entry: Option<&Entry>) -> Reply
    ensures { view result ≡ strlen_reply (option_copied live_entry.entry) }
{
    let Some(entry) = live_entry else {
        return count(0);
    };
    match &entry.value {
        Value::Text(text) => count(text.as_slice().len()),
        Value::Hash(_) | Value::List(_) | Value::Set(_) | Value::SortedSet(_) => wrong_kind(),
    }
}

/// `GETRANGE`
pub fn getrange(
    alloc: Global,
    first: i64,
    last: i64,
    live_entry: Option<&Entry>,
) -> Result<Reply, AllocError>
    ensures { IfOk result (λ r.
        view r ≡ getrange_reply first last (option_copied live_entry.entry)) }
{
    let Some(entry) = live_entry else {
        return Ok(Reply::Bulk(Vec::new(alloc)));
    };
    let Value::Text(text) = &entry.value else {
        return Ok(wrong_kind());
    };
    part(alloc, text.as_slice(), first, last)
}

/// The bytes from one place to another, both included, and an empty text where there are none.
fn part(alloc: Global, text: &[u8], first: i64, last: i64) -> Result<Reply, AllocError>
    ensures { IfOk result (λ r. view r ≡ replies.bytes (part first last text.now)) }
{
    match window(first, last, text.len()) {
        None => Ok(Reply::Bulk(Vec::new(alloc))),
        Some((first, last)) => bulk(alloc, &text[first..last + 1]),
    }
}

/// `MGET`. The DELs of expired keys are put behind the effects that are there.
pub fn mget(
    held: &Dataset,
    keys: &Words<'_, '_>,
    given: Given,
    effects: &mut Effects,
) -> Result<Reply, AllocError>
    ensures { IfOk result (λ r.
        Plans (on_keys keys.now (told_texts keys.now)) given.now held.now (view r) effects.old
        effects.new) }
{
    push_dels(held, keys, given, true, effects)?;
    texts_at(effects.alloc(), held, keys, given)
}

/// The text at each key, or nil where it isn't there or holds another kind.
fn texts_at(
    alloc: Global,
    held: &Dataset,
    keys: &Words<'_, '_>,
    given: Given,
) -> Result<Reply, AllocError>
    ensures { IfOk result (λ r.
        view r ≡ replies.array (trees_of (texts_at given.now keys.now held.now))) }
{
    let words = keys.as_slice();
    let mut replies = Vec::with_capacity(alloc, words.len())?;
    for word in words {
        replies.push(found(alloc, see(held, word.as_slice(), given).0)?)?;
    }
    Ok(Reply::Array(replies))
}

/// The text at a key, or nil where it isn't there or holds another kind.
fn found(alloc: Global, live_entry: Option<&Entry>) -> Result<Reply, AllocError>
    ensures { IfOk result (λ r. view r ≡ found (option_copied live_entry.entry)) }
{
    match live_entry {
        None => Ok(Reply::NullBulk),
        Some(entry) => text_or_null(alloc, &entry.value),
    }
}

/// The text, or nil for a value of another kind.
fn text_or_null(alloc: Global, value: &Value) -> Result<Reply, AllocError>
    ensures { IfOk result (λ r. view r ≡ text_or_null value.now) }
{
    match value {
        Value::Text(text) => bulk(alloc, text.as_slice()),
        _ => Ok(Reply::NullBulk),
    }
}
