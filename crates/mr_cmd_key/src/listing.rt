// Commands that go over all keys of a dataset. Expired ones are passed over.
ghost use Rattle.std.specs.Prelude.{◌≡◌, IfOk, filter, option_copied};
ghost use Rattle.std.specs.FinMap.{keys};
ghost use Rattle.mr_resp.specs.ReplyView.{view};
ghost use Rattle.mr_cmd_key.specs.Listing.{is_matched, is_listed_at, listed_at, bulks, scan_reply, from_cursor};

use crate::key_ask::{Cursor, KindName};
use crate::kinds::is_of_kind;
use mr_cmd_shared::{bulk, is_all_live, see};
use mr_data::{Dataset, Given};
use mr_glob::glob;
use mr_resp::Reply;
use std::alloc::{AllocError, Global};

/// Which keys are listed: those that match the pattern and are of the kind, as far as these are asked for.
#[derive(Clone, Copy)]
pub struct KeyFilter<'p> {
    pub pattern: Option<&'p [u8]>,
    pub kind: Option<KindName>,
}

/// The keys that match and are of the kind, in byte order.
pub fn list_keys(
    alloc: Global,
    held: &Dataset,
    filter: KeyFilter<'_>,
    given: Given,
) -> Result<Reply, AllocError>
    ensures { IfOk result (λ r.
        view r ≡ bulks
        (listed_at given.now (option_copied filter.entry.pattern) filter.entry.kind held.now)) }
{
    // to look each of the keys up takes longer than all else
    if filter.kind.is_none() && is_all_live(held, given) {
        return list_matched(alloc, held, filter.pattern);
    }
    list_seen(alloc, held, filter, given)
}

/// The keys that match, expired ones too, in byte order. None of them is looked up.
fn list_matched(alloc: Global, held: &Dataset, pattern: Option<&[u8]>) -> Result<Reply, AllocError>
    ensures { IfOk result (λ r.
        view r ≡ bulks (filter (is_matched (option_copied pattern.entry)) (keys held.now))) }
{
    let mut replies = Vec::new(alloc);
    for key in held.keys() {
        if is_matched(pattern, key) {
            replies.push(bulk(alloc, key)?)?;
        }
    }
    Ok(Reply::Array(replies))
}

/// The keys that match and are of the kind, in byte order. Each that matches is looked up.
fn list_seen(
    alloc: Global,
    held: &Dataset,
    filter: KeyFilter<'_>,
    given: Given,
) -> Result<Reply, AllocError>
    ensures { IfOk result (λ r.
        view r ≡ bulks
        (listed_at given.now (option_copied filter.entry.pattern) filter.entry.kind held.now)) }
{
    let mut replies = Vec::new(alloc);
    for key in held.keys() {
        if is_listed(held, key, filter, given) {
            replies.push(bulk(alloc, key)?)?;
        }
    }
    Ok(Reply::Array(replies))
}

/// Whether a key is there and not expired, matches, and is of the kind, as far as these are asked for.
fn is_listed(held: &Dataset, key: &[u8], filter: KeyFilter<'_>, given: Given) -> bool
    ensures { result ≡
        is_listed_at given.now (option_copied filter.entry.pattern) filter.entry.kind held.now
        key.now }
{
    is_matched(filter.pattern, key) && is_of_kind(filter.kind, see(held, key, given).0)
}

/// Whether a key matches the pattern, if there is one.
fn is_matched(pattern: Option<&[u8]>, key: &[u8]) -> bool
    ensures { result ≡ is_matched (option_copied pattern.entry) key.now }
{
    match pattern {
        None => true,
        Some(pattern) => glob(pattern, key),
    }
}

/// `SCAN`
pub fn scan(
    alloc: Global,
    held: &Dataset,
    cursor: Cursor,
    filter: KeyFilter<'_>,
    given: Given,
) -> Result<Reply, AllocError>
    ensures { IfOk result (λ r.
        view r ≡ scan_reply
        (from_cursor cursor
        (listed_at given.now (option_copied filter.entry.pattern) filter.entry.kind held.now))) }
{
    let keys = match cursor {
        Cursor::Start => list_keys(alloc, held, filter, given)?,
        Cursor::Behind => Reply::Array(Vec::new(alloc)),
    };
    let mut parts = Vec::with_capacity(alloc, 2)?;
    parts.push(bulk(alloc, b"0")?)?;
    parts.push(keys)?;
    Ok(Reply::Array(parts))
}
