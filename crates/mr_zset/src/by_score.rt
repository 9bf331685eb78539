// The pairs of a sorted set, as a map from member to score.
ghost use Rattle.std.specs.Prelude.{◌≡◌, ◌+◌, ◌-◌, ◌<◌, ◌≤◌, ◌^◌, ℕ, false, IsTrue, OnOk, OnErr, IfOk, IfSome, Some, None, count_by, length, map, option_map, slice_get, slice_range};
ghost use Rattle.std.specs.FinMap as finite;
ghost use Rattle.std.specs.Ordering.{int_eq};
ghost use Rattle.mr_map.specs.Bytes.{lent};
ghost use Rattle.mr_score.specs.Score.{is_score};
ghost use Rattle.mr_zset.specs.Leaving.{without_scores};
ghost use Rattle.mr_zset.specs.Pairs.{pair_lt, pairs_of, range_of, lent_pair, without};

use crate::bound::Bound;
use crate::entry::Entry;
use crate::few_scores::FewScores;
use crate::leaving::{forget_all, take_out_all};
use crate::pair::Pair;
use crate::scan::{names_of, score_of};
use crate::stored::{
    copied, drop_first, drop_last, pair_at, pairs_between, place_of, places_of, put_in, take_out,
};
use mr_bytes::Bytes;
use mr_order::{Ordered, Steps};
use mr_value::{ByName, CompactBytes};
use std::alloc::{AllocError, Global};
use std::marker::Model;

/// A finite map from member to score, kept as its pairs in order alone. What is asked for by place, by pair or by bounds is found
/// without a walk. What is asked for by member is found by a scan, which is for few.
pub(crate) struct ByScore {
    alloc: Global,
    pairs: Ordered<Entry>,
}

// By hand, so that it is one call wherever a value goes (docs/PROVING.md).
impl Drop for ByScore {
    fn drop(self) {
        let ByScore { alloc: _, pairs: _ } = self;
    }
}

impl Model for ByScore {
    ghost use Rattle.std.specs.FinMap as finite;
    ghost use Rattle.std.specs.Prelude.{ℤ};
    ghost use Rattle.std.specs.Coded.{coded_ℕ, coded_ℤ, coded_list};
    ghost use Rattle.mr_map.specs.Bytes.{bytes_cmp};
    ghost use Rattle.mr_zset.specs.Stored.{scores_of, AreStored};

    ghost Value = { finite.FinMap bytes_cmp ℤ };

    ghost coded = { finite.code (coded_list coded_ℕ) coded_ℤ };

    ghost view = { λ a. scores_of a.pairs };

    ghost invariant = { λ a. AreStored (scores_of a.pairs) a.pairs };
}

impl ByScore {
    /// An empty map. It takes no memory.
    pub(crate) fn new(alloc: Global) -> Self
        ensures { result ≡ finite.empty }
    {
        ByScore {
            alloc,
            pairs: Ordered::new(alloc),
        }
    }

    /// How many members there are.
    pub(crate) fn len(&self) -> usize
        ensures len { result ≡ finite.len self.now }
        ensures small { result < 2 ^ 63 }
    {
        self.pairs.len()
    }

    /// The score of a member, found by a scan. It takes no memory.
    pub(crate) fn score(&self, member: &[u8]) -> Option<i64>
        ensures value { result ≡ finite.get self.now member.now }
        ensures within { IfSome result (λ score. IsTrue (is_score score)) }
    {
        score_of(&self.pairs, member)
    }

    /// The score of a member, looked up in a map by name that says the same. It takes no memory.
    pub(crate) fn named_score(&self, names: &ByName<i64>, member: &[u8]) -> Option<i64>
        requires { names.now ≡ self.now }
        ensures value { result ≡ finite.get self.now member.now }
        ensures within { IfSome result (λ score. IsTrue (is_score score)) }
    {
        // What holds of a set's scores is known where a field of it is read.
        let _ = &self.alloc;
        match names.get(member) {
            Some(score) => Some(*score),
            None => None,
        }
    }

    /// Gives a member that is there another score, and answers the member's bytes. The new pair is put in before the first one
    /// goes: where memory runs out, all is as it was.
    pub(crate) fn change(
        &mut self,
        member: &[u8],
        before: i64,
        score: i64,
    ) -> Result<CompactBytes, AllocError>
        requires there { finite.get self.old member.now ≡ Some before }
        requires another { int_eq score before ≡ false }
        requires score { IsTrue (is_score score) }
        ensures name { IfOk result (λ name. name ≡ member.now) }
        ensures ok { OnOk result (self.new ≡ finite.insert self.old member.now score) }
        ensures err { OnErr result (self.new ≡ self.old) }
    {
        let member_copy = CompactBytes::copied(self.alloc, member)?;
        put_in(
            &mut self.pairs,
            Entry {
                score,
                member: member_copy,
            },
        )?;
        let taken = take_out(
            &mut self.pairs,
            Pair {
                score: before,
                member,
            },
        );
        match taken {
            Some(entry) => Ok(entry.member),
            None => unreachable!(),
        }
    }

    /// Adds a member that isn't there. Where memory runs out, all is as it was.
    pub(crate) fn add(&mut self, member: &[u8], score: i64) -> Result<(), AllocError>
        requires absent { finite.get self.old member.now ≡ None }
        requires score { IsTrue (is_score score) }
        ensures ok { OnOk result (self.new ≡ finite.insert self.old member.now score) }
        ensures err { OnErr result (self.new ≡ self.old) }
    {
        let member_copy = CompactBytes::copied(self.alloc, member)?;
        put_in(
            &mut self.pairs,
            Entry {
                score,
                member: member_copy,
            },
        )?;
        Ok(())
    }

    /// Takes out a member that is there, whose score is known.
    pub(crate) fn take(&mut self, member: &[u8], score: i64)
        requires { finite.get self.old member.now ≡ Some score }
        ensures { self.new ≡ finite.remove self.old member.now }
    {
        take_out(&mut self.pairs, Pair { score, member });
    }

    /// Takes out a member, if it is there. It is found by a scan.
    fn take_member(&mut self, member: &[u8])
        ensures { self.new ≡ finite.remove self.old member.now }
    {
        if let Some(score) = self.score(member) {
            self.take(member, score);
        }
    }

    /// Takes out members, where they are there, each found by a scan. It takes no memory.
    pub(crate) fn take_each(&mut self, members: &[&[u8]])
        ensures { self.new ≡ without_scores (lent members.now) self.old }
    {
        for member in members {
            self.take_member(member);
        }
    }

    /// Takes out members, where they are there, also of a map by name that says the same. It takes memory, but needs none: with it,
    /// pairs that stand side by side in order go at once.
    pub(crate) fn take_all(&mut self, names: &mut ByName<i64>, members: &[&[u8]])
        requires { names.old ≡ self.old }
        ensures taken { self.new ≡ without_scores (lent members.now) self.old }
        ensures names { names.new ≡ self.new }
    {
        let gone = forget_all(self.alloc, names, &mut self.pairs, members);
        take_out_all(&mut self.pairs, &gone, names.len());
    }

    /// A map by name that says the same.
    pub(crate) fn names(&self) -> Result<ByName<i64>, AllocError>
        ensures { IfOk result (λ names. names ≡ self.now) }
    {
        names_of(self.alloc, &self.pairs)
    }

    /// The number of pairs that are less than a score with a member, which is the place where that pair stands or would stand.
    /// It is compared with at most as many pairs as the number of members has binary digits. It takes no memory.
    pub(crate) fn place(&self, score: i64, member: &[u8], steps: &mut Steps) -> usize
        ensures count { result ≡
            count_by (λ p. pair_lt p (member.now, score)) (finite.entries self.now) }
        ensures steps { (digits : ℕ) → finite.len self.now < 2 ^ digits →
            steps.new.count ≤ steps.old.count + digits }
    {
        place_of(&self.pairs, Pair { score, member }, steps)
    }

    /// The pair at a place in order, counted from 0. It takes no memory.
    pub(crate) fn nth(&self, place: usize) -> Option<Pair<'_>>
        ensures { option_map lent_pair result ≡ slice_get (pairs_of self.now) place }
    {
        pair_at(&self.pairs, place)
    }

    /// The pairs from one place to another, the second left out, in order. It takes memory for these alone.
    pub(crate) fn between(&self, first: usize, past: usize) -> Result<Vec<Pair<'_>>, AllocError>
        requires ordered { first ≤ past }
        requires within { past ≤ finite.len self.now }
        ensures { IfOk result (λ pairs.
            map lent_pair pairs.items ≡ slice_range (pairs_of self.now) first past) }
    {
        pairs_between(self.alloc, &self.pairs, first, past)
    }

    /// The places of the pairs whose scores are within two bounds: that of the first, and the one behind the last. It takes
    /// no memory.
    pub(crate) fn places(&self, from: Bound, to: Bound) -> (usize, usize)
        ensures ordered { result.0 ≤ result.1 }
        ensures within { result.1 ≤ finite.len self.now }
        ensures range { range_of from to self.now ≡
            slice_range (pairs_of self.now) result.0 result.1 }
    {
        places_of(&self.pairs, from, to)
    }

    /// The members with their scores, in the order of the members' bytes, each found by a scan. It takes no memory.
    pub(crate) fn iter(&self) -> FewScores<'_>
        ensures { result ≡ finite.entries self.now }
    {
        FewScores::new(&self.pairs)
    }

    /// Takes out the first pair in order, and answers it. Where memory runs out, all is as it was.
    pub(crate) fn pop_min(&mut self) -> Result<Option<(Bytes, i64)>, AllocError>
        ensures popped { IfOk result (λ popped. popped ≡ slice_get (pairs_of self.old) 0) }
        ensures ok { IfOk result (λ popped. self.new ≡ without popped self.old) }
        ensures err { OnErr result (self.new ≡ self.old) }
    {
        let popped = copied(self.alloc, self.pairs.first())?;
        drop_first(&mut self.pairs);
        Ok(popped)
    }

    /// Takes out the last pair in order, and answers it. Where memory runs out, all is as it was.
    pub(crate) fn pop_max(&mut self) -> Result<Option<(Bytes, i64)>, AllocError>
        ensures popped { IfOk result (λ popped.
            popped ≡ slice_get (pairs_of self.old) (length (pairs_of self.old) - 1)) }
        ensures ok { IfOk result (λ popped. self.new ≡ without popped self.old) }
        ensures err { OnErr result (self.new ≡ self.old) }
    {
        let popped = copied(self.alloc, self.pairs.last())?;
        drop_last(&mut self.pairs);
        Ok(popped)
    }
}
