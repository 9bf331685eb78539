// Many pairs that go out of a sorted set.
ghost use Rattle.std.specs.Prelude.{◌≡◌, ◌<◌, ◌≤◌, false, filter, length, map, IfSome};
ghost use Rattle.std.specs.Ordering.{is_gt};
ghost use Rattle.std.specs.FinMap as finite;
ghost use Rattle.std.specs.List.{AllWithin};
ghost use Rattle.std.specs.declared.cmp.Ordering.TheVariants.{Less};
ghost use Rattle.mr_map.specs.Bytes.{lent};
ghost use Rattle.mr_zset.specs.Leaving.{without_scores, without_pairs, AreBetween, AreStoredBesides, HaveRange};
ghost use Rattle.mr_zset.specs.Pairs.{is_other, pair_cmp, lent_pair};
ghost use Rattle.mr_zset.specs.Stored.{stored, AreStored};

use crate::entry::Entry;
use crate::pair::Pair;
use crate::stored::take_out;
use mr_order::Ordered;
use mr_value::ByName;
use std::alloc::Global;

/// Removes members from a map, and answers the pairs that are still to go: where memory is lacking a pair goes by itself.
pub(crate) fn forget_all<'m>(
    alloc: Global,
    scores: &mut ByName<i64>,
    pairs: &mut Ordered<Entry>,
    members: &[&'m [u8]],
) -> Vec<Pair<'m>>
    requires { AreStored scores.old pairs.old }
    ensures scores { scores.new ≡ without_scores (lent members.now) scores.old }
    ensures left { AreStoredBesides result.items scores.new pairs.new }
{
    let mut gone = Vec::new(alloc);
    let _ = gone.reserve_exact(members.len());
    for member in members {
        forget(scores, pairs, member, &mut gone);
    }
    gone
}

/// Removes a member from a map, and sets its pair aside.
fn forget<'m>(
    scores: &mut ByName<i64>,
    pairs: &mut Ordered<Entry>,
    member: &'m [u8],
    gone: &mut Vec<Pair<'m>>,
)
    requires { AreStoredBesides gone.old.items scores.old pairs.old }
    ensures scores { scores.new ≡ finite.remove scores.old member.now }
    ensures left { AreStoredBesides gone.new.items scores.new pairs.new }
{
    if let Some(score) = scores.remove(member) {
        set_aside(pairs, Pair { score, member }, gone);
    }
}

/// Sets a pair aside, to go with others. Where memory is lacking it goes at once.
fn set_aside<'m>(pairs: &mut Ordered<Entry>, pair: Pair<'m>, gone: &mut Vec<Pair<'m>>)
    ensures { without_pairs (map lent_pair gone.new.items) (map stored pairs.new) ≡
        filter (is_other (lent_pair pair.entry))
        (without_pairs (map lent_pair gone.old.items) (map stored pairs.old)) }
{
    if gone.push(pair).is_err() {
        take_out(pairs, pair);
    }
}

/// Takes pairs out, of which so many are left then. Where no other pair stands between them they go at once.
pub(crate) fn take_out_all(pairs: &mut Ordered<Entry>, gone: &[Pair<'_>], left: usize)
    requires { left ≡ length (without_pairs (map lent_pair gone.now) (map stored pairs.old)) }
    ensures { map stored pairs.new ≡ without_pairs (map lent_pair gone.now) (map stored pairs.old) }
{
    if let Some((first, past)) = range_of(pairs, gone) {
        if pairs.len() - (past - first) == left {
            pairs.remove_range(first, past);
            return;
        }
    }
    take_out_each(pairs, gone);
}

/// Takes pairs out, one by one.
fn take_out_each(pairs: &mut Ordered<Entry>, gone: &[Pair<'_>])
    ensures { map stored pairs.new ≡ without_pairs (map lent_pair gone.now) (map stored pairs.old) }
{
    for pair in gone {
        take_out(pairs, *pair);
    }
}

/// The places between which all of these pairs stand that are there, the second left out.
fn range_of(pairs: &Ordered<Entry>, gone: &[Pair<'_>]) -> Option<(usize, usize)>
    ensures { IfSome result (λ range. HaveRange gone.now pairs.now range.0 range.1) }
{
    let (least, greatest) = span(gone)?;
    let first = pairs.count_below(least);
    let past = past_of(pairs, greatest);
    if first <= past {
        Some((first, past))
    } else {
        None
    }
}

/// The place behind the pairs that are not greater than this one.
fn past_of(pairs: &Ordered<Entry>, pair: Pair<'_>) -> usize
    ensures within { result ≤ length pairs.now }
    ensures back { AllWithin (λ y.
        pair_cmp (lent_pair pair.entry) (stored y) ≡ Less) pairs.now result (length pairs.now) }
{
    match pairs.locate(pair) {
        Ok(at) => {
            prove!(at < pairs.len());
            at + 1
        }
        Err(at) => at,
    }
}

/// The least and the greatest of pairs.
fn span<'m>(pairs: &[Pair<'m>]) -> Option<(Pair<'m>, Pair<'m>)>
    ensures { IfSome result (λ span. AreBetween span.0 span.1 pairs.now (length pairs.now)) }
{
    let first = *pairs.first()?;
    let mut least = first;
    let mut greatest = first;
    for pair in pairs {
        least = lesser(least, *pair);
        greatest = greater(greatest, *pair);
    }
    Some((least, greatest))
}

/// The lesser of two pairs.
fn lesser<'m>(one: Pair<'m>, other: Pair<'m>) -> Pair<'m>
    ensures one { is_gt (pair_cmp (lent_pair result) (lent_pair one.entry)) ≡ false }
    ensures other { is_gt (pair_cmp (lent_pair result) (lent_pair other.entry)) ≡ false }
{
    if one.cmp(&other).is_gt() { other } else { one }
}

/// The greater of two pairs.
fn greater<'m>(one: Pair<'m>, other: Pair<'m>) -> Pair<'m>
    ensures one { is_gt (pair_cmp (lent_pair one.entry) (lent_pair result)) ≡ false }
    ensures other { is_gt (pair_cmp (lent_pair other.entry) (lent_pair result)) ≡ false }
{
    if other.cmp(&one).is_gt() { other } else { one }
}
