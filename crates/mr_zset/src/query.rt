// What is looked for among stored pairs: a pair, and where a range of scores begins and ends.
ghost use Rattle.std.specs.BTreeMap.Comparable.{le_lt_trans};
ghost use Rattle.mr_zset.specs.Pairs.{pair_cmp, lent_pair};
ghost use Rattle.mr_zset.specs.Stored.{short_shown, stored};
ghost use Rattle.mr_zset.specs.Limits.{start_cmp, end_cmp, start_below, end_below, pairs_total};

use crate::bound::Bound;
use crate::entry::Entry;
use crate::pair::Pair;
use mr_map::ShortKey;
use mr_order::Query;
use std::cmp::Ordering;

impl<'a> Query<Entry> for Pair<'a> {
    ghost compare = { λ q x. pair_cmp (lent_pair q) (stored x) };

    ghost below_greater = { λ q x y. le_lt_trans pairs_total (lent_pair q) (stored x) (stored y) };

    fn compare(&self, item: &Entry) -> Ordering {
        self.cmp(&Pair {
            score: item.score,
            member: item.member.as_slice(),
        })
    }
}

/// A pair whose member is of few bytes, which compare as numbers.
#[derive(Clone, Copy)]
pub(crate) struct ShortPair<'a> {
    pub score: i64,
    pub member: &'a ShortKey,
}

impl<'a> Query<Entry> for ShortPair<'a> {
    ghost compare = { λ q x. pair_cmp (short_shown q) (stored x) };

    ghost below_greater = { λ q x y. le_lt_trans pairs_total (short_shown q) (stored x) (stored y) };

    fn compare(&self, item: &Entry) -> Ordering {
        match self.score.cmp(&item.score) {
            Ordering::Equal => self.member.compare(&item.member),
            unequal => unequal,
        }
    }
}

/// Where a range of scores begins: less than the pairs that are not below it.
#[derive(Clone, Copy)]
pub(crate) struct Start(pub Bound);

impl Query<Entry> for Start {
    ghost compare = { λ q x. start_cmp q.0 x.score };

    ghost below_greater = { λ q x y. start_below q.0 (stored x) (stored y) };

    fn compare(&self, item: &Entry) -> Ordering {
        if self.0.is_from(item.score) {
            Ordering::Less
        } else {
            Ordering::Greater
        }
    }
}

/// Where a range of scores ends: greater than the pairs that are not above it.
#[derive(Clone, Copy)]
pub(crate) struct End(pub Bound);

impl Query<Entry> for End {
    ghost compare = { λ q x. end_cmp q.0 x.score };

    ghost below_greater = { λ q x y. end_below q.0 (stored x) (stored y) };

    fn compare(&self, item: &Entry) -> Ordering {
        if self.0.is_to(item.score) {
            Ordering::Greater
        } else {
            Ordering::Less
        }
    }
}
