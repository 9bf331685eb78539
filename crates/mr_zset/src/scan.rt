// What a scan of stored pairs finds by the bytes of members.
ghost use Rattle.std.specs.Prelude.{◌≡◌, ℕ, IfOk, map, option_copied, option_map, slice_get};
ghost use Rattle.std.specs.FinMap.{entries, find};
ghost use Rattle.std.specs.Map.{lookup};
ghost use Rattle.std.specs.Ordering.{is_eq};
ghost use Rattle.mr_map.specs.Bytes.{bytes_cmp};
ghost use Rattle.mr_zset.specs.Few.{behind, nearer};
ghost use Rattle.mr_zset.specs.Stored.{scores_of, stored};

use crate::entry::Entry;
use mr_map::ShortKey;
use mr_order::{Ordered, Query};
use mr_value::{ByName, CompactBytes};
use std::alloc::{AllocError, Global};

/// The score of a member. One of few bytes is compared as a number.
pub(crate) fn score_of(pairs: &Ordered<Entry>, member: &[u8]) -> Option<i64>
    ensures { result ≡ find bytes_cmp member.now (map stored pairs.now) }
{
    match ShortKey::of(member) {
        Some(short) => first_score(pairs, &short),
        None => first_score(pairs, member),
    }
}

/// The score of the first pair whose member is the one that is looked for.
fn first_score<Q: Query<CompactBytes>>(pairs: &Ordered<Entry>, member: Q) -> Option<i64>
    ensures { result ≡ lookup (λ k. is_eq (Q.compare member k)) (map stored pairs.now) }
{
    for entry in pairs.iter() {
        if member.compare(&entry.member).is_eq() {
            return Some(entry.score);
        }
    }
    None
}

/// A map of the members with their scores.
pub(crate) fn names_of(alloc: Global, pairs: &Ordered<Entry>) -> Result<ByName<i64>, AllocError>
    ensures { IfOk result (λ names. names ≡ scores_of pairs.now) }
{
    let mut names = ByName::new(alloc);
    let mut left = pairs.len();
    while left > 0 {
        left -= 1;
        let entry = pairs.item(left);
        let name = CompactBytes::copied(alloc, entry.member.as_slice())?;
        names.put(name, entry.score)?;
    }
    Ok(names)
}

/// The pair whose member comes first in byte order behind another member, or of all where there is no other.
pub(crate) fn first_behind<'a>(pairs: &'a Ordered<Entry>, last: Option<&[u8]>) -> Option<&'a Entry>
    ensures { option_map stored (option_copied result) ≡
        slice_get (behind (option_copied last.entry) (entries (scores_of pairs.now))) 0 }
{
    let mut first = None;
    let mut left = pairs.len();
    while left > 0 {
        left -= 1;
        first = nearer(pairs.item(left), first, last);
    }
    first
}

/// Of a pair and the first one so far the one that comes first behind a member.
fn nearer<'a>(entry: &'a Entry, first: Option<&'a Entry>, last: Option<&[u8]>) -> Option<&'a Entry>
    ensures { option_map stored (option_copied result) ≡
        nearer (option_copied last.entry) (stored entry.now)
        (option_map stored (option_copied first.entry)) }
{
    if let Some(last) = last {
        if !last.compare(&entry.member).is_lt() {
            return first;
        }
    }
    if let Some(first) = first {
        if entry.member.cmp(&first.member).is_gt() {
            return Some(first);
        }
    }
    Some(entry)
}
