// A sorted set.
ghost use Rattle.std.specs.Prelude.{◌≡◌, ◌==◌, ◌+◌, ◌-◌, ◌<◌, ◌≤◌, ◌^◌, ℕ, IsTrue, OnOk, OnErr, IfOk, IfSome, count_by, length, map, option_map, slice_get, slice_range};
ghost use Rattle.std.specs.FinMap as finite;
ghost use Rattle.mr_map.specs.Bytes.{lent};
ghost use Rattle.mr_score.specs.Score.{is_score};
ghost use Rattle.mr_zset.specs.Leaving.{without_scores};
ghost use Rattle.mr_zset.specs.Pairs.{pair_lt, pairs_of, rank_of, range_of, lent_pair, without};

use crate::bound::Bound;
use crate::member_scores::{MemberScores, Walk};
use crate::pair::Pair;
use crate::ranked::Ranked;
use mr_bytes::Bytes;
use mr_order::Steps;
use std::alloc::{AllocError, Global};
use std::marker::Model;

/// A finite map from member to score, whose pairs stand in order, each at its place. The set itself is a pointer, and the rest comes
/// with the first member, so that a value which may be one of several kinds is no larger for it.
pub struct ZSet {
    alloc: Global,
    ranked: Option<Box<Ranked>>,
}

// By hand, so that it is one call wherever a value goes (docs/PROVING.md).
impl Drop for ZSet {
    fn drop(self) {
        let ZSet {
            alloc: _,
            ranked: _,
        } = self;
    }
}

impl Model for ZSet {
    ghost use Rattle.std.specs.FinMap as finite;
    ghost use Rattle.std.specs.Prelude.{ℤ};
    ghost use Rattle.std.specs.Coded.{coded_ℕ, coded_ℤ, coded_list};
    ghost use Rattle.mr_map.specs.Bytes.{bytes_cmp};
    ghost use Rattle.mr_map.specs.Merged.{held};

    ghost Value = { finite.FinMap bytes_cmp ℤ };

    ghost coded = { finite.code (coded_list coded_ℕ) coded_ℤ };

    ghost view = { λ a. held a.ranked };
}

impl ZSet {
    /// An empty set. It takes no memory.
    pub fn new(alloc: Global) -> Self
        ensures { result ≡ finite.empty }
    {
        ZSet {
            alloc,
            ranked: None,
        }
    }

    /// How many members there are.
    pub fn len(&self) -> usize
        ensures len { result ≡ finite.len self.now }
        ensures small { result < 2 ^ 63 }
    {
        match &self.ranked {
            Some(ranked) => ranked.scores().len(),
            None => 0,
        }
    }

    /// Whether there is no member.
    pub fn is_empty(&self) -> bool
        ensures { result ≡ (finite.len self.now == 0) }
    {
        self.len() == 0
    }

    /// The score of a member. It takes no memory.
    pub fn score(&self, member: &[u8]) -> Option<i64>
        ensures value { result ≡ finite.get self.now member.now }
        ensures within { IfSome result (λ score. IsTrue (is_score score)) }
    {
        match &self.ranked {
            Some(ranked) => ranked.score(member),
            None => None,
        }
    }

    /// Sets the score of a member, and answers the one before. All memory is taken before the first change: where it
    /// runs out, the set is as it was.
    pub fn put(&mut self, member: &[u8], score: i64) -> Result<Option<i64>, AllocError>
        requires { IsTrue (is_score score) }
        ensures before { IfOk result (λ before. before ≡ finite.get self.old member.now) }
        ensures ok { OnOk result (self.new ≡ finite.insert self.old member.now score) }
        ensures err { OnErr result (self.new ≡ self.old) }
    {
        if let Some(ranked) = &mut self.ranked {
            return ranked.put(member, score);
        }
        let mut ranked = Ranked::new(self.alloc);
        let before = ranked.put(member, score)?;
        self.ranked = Some(Box::new(self.alloc, ranked)?);
        Ok(before)
    }

    /// Removes a member, and answers its score.
    pub fn remove(&mut self, member: &[u8]) -> Option<i64>
        ensures before { result ≡ finite.get self.old member.now }
        ensures removed { self.new ≡ finite.remove self.old member.now }
    {
        if let Some(ranked) = &mut self.ranked {
            return ranked.remove(member);
        }
        None
    }

    /// Removes members, where they are there. It takes memory, but needs none: with it, pairs that stand side by side in order go
    /// at once.
    pub fn remove_all(&mut self, members: &[&[u8]])
        ensures { self.new ≡ without_scores (lent members.now) self.old }
    {
        if let Some(ranked) = &mut self.ranked {
            ranked.remove_all(members);
            return;
        }
    }

    /// The number of lesser pairs, which is the member's place among all pairs in order, counted from 0. It takes no
    /// memory.
    pub fn rank(&self, member: &[u8]) -> Option<usize>
        ensures count { result ≡ rank_of self.now member.now }
        ensures within { IfSome result (λ rank. rank < finite.len self.now) }
        ensures place { IfSome result (λ rank.
            IfSome (slice_get (pairs_of self.now) rank) (λ pair. pair.0 ≡ member.now)) }
    {
        let score = self.score(member)?;
        let mut steps = Steps { count: 0 };
        Some(self.place(score, member, &mut steps))
    }

    /// The number of pairs that are less than a score with a member, which is the place where that pair stands or would stand.
    /// It is compared with at most as many pairs as the number of members has binary digits. It takes no memory.
    pub fn place(&self, score: i64, member: &[u8], steps: &mut Steps) -> usize
        ensures count { result ≡
            count_by (λ p. pair_lt p (member.now, score)) (finite.entries self.now) }
        ensures steps { (digits : ℕ) → finite.len self.now < 2 ^ digits →
            steps.new.count ≤ steps.old.count + digits }
    {
        match &self.ranked {
            Some(ranked) => ranked.scores().place(score, member, steps),
            None => 0,
        }
    }

    /// The pair at a place in order, counted from 0. It takes no memory.
    pub fn nth(&self, place: usize) -> Option<Pair<'_>>
        ensures { option_map lent_pair result ≡ slice_get (pairs_of self.now) place }
    {
        match &self.ranked {
            Some(ranked) => ranked.scores().nth(place),
            None => None,
        }
    }

    /// The pairs from one place to another, both included and counted from 0, in order.
    pub fn by_rank(&self, first: usize, last: usize) -> Result<Vec<Pair<'_>>, AllocError>
        requires ordered { first ≤ last }
        requires within { last < finite.len self.now }
        ensures { IfOk result (λ pairs.
            map lent_pair pairs.items ≡ slice_range (pairs_of self.now) first (last + 1)) }
    {
        prove!(last < self.len());
        self.between(first, last + 1)
    }

    /// The pairs from one place to another, the second left out, in order. It takes memory for these alone.
    pub fn between(&self, first: usize, past: usize) -> Result<Vec<Pair<'_>>, AllocError>
        requires ordered { first ≤ past }
        requires within { past ≤ finite.len self.now }
        ensures { IfOk result (λ pairs.
            map lent_pair pairs.items ≡ slice_range (pairs_of self.now) first past) }
    {
        match &self.ranked {
            Some(ranked) => ranked.scores().between(first, past),
            None => Ok(Vec::new(self.alloc)),
        }
    }

    /// The pairs whose scores are within two bounds, in order.
    pub fn by_score(&self, from: Bound, to: Bound) -> Result<Vec<Pair<'_>>, AllocError>
        ensures { IfOk result (λ pairs. map lent_pair pairs.items ≡ range_of from to self.now) }
    {
        let (first, past) = self.places(from, to);
        self.between(first, past)
    }

    /// The places of the pairs whose scores are within two bounds: that of the first, and the one behind the last. It takes
    /// no memory.
    pub fn places(&self, from: Bound, to: Bound) -> (usize, usize)
        ensures ordered { result.0 ≤ result.1 }
        ensures within { result.1 ≤ finite.len self.now }
        ensures range { range_of from to self.now ≡
            slice_range (pairs_of self.now) result.0 result.1 }
    {
        match &self.ranked {
            Some(ranked) => ranked.scores().places(from, to),
            None => (0, 0),
        }
    }

    /// How many scores are within two bounds. It takes no memory.
    pub fn count(&self, from: Bound, to: Bound) -> usize
        ensures count { result ≡ length (range_of from to self.now) }
        ensures small { result < 2 ^ 63 }
    {
        let (first, past) = self.places(from, to);
        prove!(past <= self.len());
        past - first
    }

    /// The members with their scores, in the order of the members' bytes. It takes no memory.
    pub fn iter(&self) -> MemberScores<'_>
        ensures { result ≡ finite.entries self.now }
    {
        match &self.ranked {
            Some(ranked) => ranked.iter(),
            None => MemberScores::new(Walk::Nobody),
        }
    }

    /// Removes the first pair in order, and answers it. Where memory runs out, the set is as it was.
    pub fn pop_min(&mut self) -> Result<Option<(Bytes, i64)>, AllocError>
        ensures popped { IfOk result (λ popped. popped ≡ slice_get (pairs_of self.old) 0) }
        ensures ok { IfOk result (λ popped. self.new ≡ without popped self.old) }
        ensures err { OnErr result (self.new ≡ self.old) }
    {
        if let Some(ranked) = &mut self.ranked {
            return ranked.pop_min();
        }
        Ok(None)
    }

    /// Removes the last pair in order, and answers it. Where memory runs out, the set is as it was.
    pub fn pop_max(&mut self) -> Result<Option<(Bytes, i64)>, AllocError>
        ensures popped { IfOk result (λ popped.
            popped ≡ slice_get (pairs_of self.old) (length (pairs_of self.old) - 1)) }
        ensures ok { IfOk result (λ popped. self.new ≡ without popped self.old) }
        ensures err { OnErr result (self.new ≡ self.old) }
    {
        if let Some(ranked) = &mut self.ranked {
            return ranked.pop_max();
        }
        Ok(None)
    }
}
