// The pairs of a sorted set as they are stored, in order.
ghost use Rattle.std.specs.Prelude.{◌≡◌, ◌+◌, ◌<◌, ◌≤◌, ◌^◌, ℕ, [], ◌∷◌, ◌++◌, ◌-◌, IfOk, MatchOption, OnErr, OnOk, count_by, filter, length, map, option_copied, option_map, slice_get, slice_range};
ghost use Rattle.std.specs.BTreeSet.{insert_key};
ghost use Rattle.mr_order.specs.Changes.{IsTaken};
ghost use Rattle.mr_zset.specs.Bounds.{is_within};
ghost use Rattle.mr_zset.specs.Pairs.{is_other, pair_cmp, pair_lt, lent_pair};
ghost use Rattle.mr_zset.specs.Stored.{stored};

use crate::bound::Bound;
use crate::entry::Entry;
use crate::pair::Pair;
use crate::query::{End, ShortPair, Start};
use mr_bytes::Bytes;
use mr_map::ShortKey;
use mr_order::{Ordered, Steps};
use std::alloc::{AllocError, Global};

/// Puts a pair where it stands in order, unless it is there. Where memory runs out, all is as it was.
pub(crate) fn put_in(pairs: &mut Ordered<Entry>, entry: Entry) -> Result<(), AllocError>
    ensures ok { OnOk result (map stored pairs.new ≡
        insert_key pair_cmp (map stored pairs.old) (stored entry)) }
    ensures err { OnErr result (pairs.new ≡ pairs.old) }
{
    pairs.insert(entry)?;
    Ok(())
}

/// Takes a pair out, if it is there, and answers it.
pub(crate) fn take_out(pairs: &mut Ordered<Entry>, pair: Pair<'_>) -> Option<Entry>
    ensures answer { MatchOption result (pairs.new ≡ pairs.old) (λ entry.
        stored entry ≡ lent_pair pair.entry) }
    ensures rest { map stored pairs.new ≡
        filter (is_other (lent_pair pair.entry)) (map stored pairs.old) }
{
    taken(pairs, pair)
}

/// Takes a pair out, if it is there, and answers it. A member of few bytes is looked up as a number.
fn taken(pairs: &mut Ordered<Entry>, pair: Pair<'_>) -> Option<Entry>
    ensures { IsTaken (λ y. pair_cmp (lent_pair pair.entry) (stored y)) pairs.old result pairs.new }
{
    match ShortKey::of(pair.member) {
        Some(short) => pairs.take(ShortPair {
            score: pair.score,
            member: &short,
        }),
        None => pairs.take(pair),
    }
}

/// How many stored pairs are less than this one. It is compared with at most as many as their number has binary digits.
pub(crate) fn place_of(pairs: &Ordered<Entry>, pair: Pair<'_>, steps: &mut Steps) -> usize
    ensures count { result ≡
        count_by (λ p. pair_lt p (lent_pair pair.entry)) (map stored pairs.now) }
    ensures steps { (digits : ℕ) → length pairs.now < 2 ^ digits →
        steps.new.count ≤ steps.old.count + digits }
{
    match ShortKey::of(pair.member) {
        Some(short) => {
            let sought = ShortPair {
                score: pair.score,
                member: &short,
            };
            pairs.place(sought, steps)
        }
        None => pairs.place(pair, steps),
    }
}

/// The places between which the scores are within two bounds, the second left out.
pub(crate) fn places_of(pairs: &Ordered<Entry>, from: Bound, to: Bound) -> (usize, usize)
    ensures ordered { result.0 ≤ result.1 }
    ensures within { result.1 ≤ length pairs.now }
    ensures range { filter (λ p. is_within from to p.1) (map stored pairs.now) ≡
        slice_range (map stored pairs.now) result.0 result.1 }
{
    let first = pairs.count_below(Start(from));
    let past = pairs.count_below(End(to));
    (first, past.max(first))
}

/// The pairs from one place to another, the second left out.
pub(crate) fn pairs_between(
    alloc: Global,
    pairs: &Ordered<Entry>,
    from: usize,
    to: usize,
) -> Result<Vec<Pair<'_>>, AllocError>
    requires ordered { from ≤ to }
    requires within { to ≤ length pairs.now }
    ensures { IfOk result (λ part.
        map lent_pair part.items ≡ slice_range (map stored pairs.now) from to) }
{
    let mut part = Vec::with_capacity(alloc, to - from)?;
    for entry in pairs.range(from, to) {
        part.push(Pair {
            score: entry.score,
            member: entry.member.as_slice(),
        })?;
    }
    Ok(part)
}

/// The pair at a place, counted from 0.
pub(crate) fn pair_at(pairs: &Ordered<Entry>, place: usize) -> Option<Pair<'_>>
    ensures { option_map lent_pair result ≡ slice_get (map stored pairs.now) place }
{
    if place >= pairs.len() {
        return None;
    }
    let entry = pairs.item(place);
    Some(Pair {
        score: entry.score,
        member: entry.member.as_slice(),
    })
}

/// A pair with a copy of its member.
pub(crate) fn copied(
    alloc: Global,
    pair: Option<&Entry>,
) -> Result<Option<(Bytes, i64)>, AllocError>
    ensures { IfOk result (λ copy. copy ≡ option_map stored (option_copied pair.entry)) }
{
    let Some(pair) = pair else { return Ok(None) };
    Ok(Some((
        Bytes::from_slice(alloc, pair.member.as_slice())?,
        pair.score,
    )))
}

/// Drops the first pair, if there is one.
pub(crate) fn drop_first(pairs: &mut Ordered<Entry>)
    ensures { MatchOption (slice_get pairs.old 0) ((pairs.old ≡ []) ×
        (pairs.new ≡ [])) (λ pair. pairs.old ≡ pair ∷ pairs.new) }
{
    pairs.pop_first();
}

/// Drops the last pair, if there is one.
pub(crate) fn drop_last(pairs: &mut Ordered<Entry>)
    ensures { MatchOption (slice_get pairs.old (length pairs.old - 1)) ((pairs.old ≡ []) ×
        (pairs.new ≡ [])) (λ pair. pairs.old ≡ pairs.new ++ pair ∷ []) }
{
    pairs.pop_last();
}
