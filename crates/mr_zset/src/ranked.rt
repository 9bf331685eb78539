// What a sorted set holds once it has a member: its pairs in order, and once they are no longer few a map by name.
ghost use Rattle.std.specs.Prelude.{◌≡◌, ◌-◌, IsTrue, OnOk, OnErr, IfOk, IfSome, Some, None, length, slice_get};
ghost use Rattle.std.specs.FinMap as finite;
ghost use Rattle.mr_map.specs.Bytes.{lent};
ghost use Rattle.mr_score.specs.Score.{is_score};
ghost use Rattle.mr_zset.specs.Leaving.{without_scores};
ghost use Rattle.mr_zset.specs.Pairs.{pairs_of, without};

use crate::by_score::ByScore;
use crate::member_scores::{MemberScores, Walk};
use crate::names::{add_name, change_name, drop_name, drop_popped, make_room, take_name};
use mr_bytes::Bytes;
use mr_value::ByName;
use std::alloc::{AllocError, Global};
use std::marker::Model;

/// A finite map from member to score, whose pairs stand in order, each at its place. While it is small, that is all; then there is a
/// map by name beside, and stays.
pub(crate) struct Ranked {
    alloc: Global,
    scores: ByScore,
    names: Option<ByName<i64>>,
}

// By hand, so that it is one call wherever a value goes (docs/PROVING.md).
impl Drop for Ranked {
    fn drop(self) {
        let Ranked {
            alloc: _,
            scores: _,
            names: _,
        } = self;
    }
}

impl Model for Ranked {
    ghost use Rattle.std.specs.FinMap as finite;
    ghost use Rattle.std.specs.Prelude.{ℤ};
    ghost use Rattle.std.specs.Coded.{coded_ℕ, coded_ℤ, coded_list};
    ghost use Rattle.mr_map.specs.Bytes.{bytes_cmp};
    ghost use Rattle.mr_zset.specs.Few.{AreNamed};

    ghost Value = { finite.FinMap bytes_cmp ℤ };

    ghost coded = { finite.code (coded_list coded_ℕ) coded_ℤ };

    ghost view = { λ a. a.scores };

    ghost invariant = { λ a. AreNamed a.names a.scores };
}

impl Ranked {
    /// An empty set. It takes no memory.
    pub(crate) fn new(alloc: Global) -> Self
        ensures { result ≡ finite.empty }
    {
        Ranked {
            alloc,
            scores: ByScore::new(alloc),
            names: None,
        }
    }

    /// The pairs in order, which are the same map. What doesn't go by member alone is asked of them.
    pub(crate) fn scores(&self) -> &ByScore
        ensures { result.now ≡ self.now }
    {
        &self.scores
    }

    /// The score of a member. It takes no memory.
    pub(crate) fn score(&self, member: &[u8]) -> Option<i64>
        ensures value { result ≡ finite.get self.now member.now }
        ensures within { IfSome result (λ score. IsTrue (is_score score)) }
    {
        match &self.names {
            Some(names) => self.scores.named_score(names, member),
            None => self.scores.score(member),
        }
    }

    /// Sets the score of a member, and answers the one before. All memory is taken before the first change: where it
    /// runs out, the set is as it was.
    pub(crate) fn put(&mut self, member: &[u8], score: i64) -> Result<Option<i64>, AllocError>
        requires { IsTrue (is_score score) }
        ensures before { IfOk result (λ before. before ≡ finite.get self.old member.now) }
        ensures ok { OnOk result (self.new ≡ finite.insert self.old member.now score) }
        ensures err { OnErr result (self.new ≡ self.old) }
    {
        let before = self.score(member);
        match before {
            Some(before) => self.change(member, before, score)?,
            None => self.add(member, score)?,
        }
        Ok(before)
    }

    /// Gives a member that is there another score. Where memory runs out, the set is as it was.
    fn change(&mut self, member: &[u8], before: i64, score: i64) -> Result<(), AllocError>
        requires there { finite.get self.old member.now ≡ Some before }
        requires score { IsTrue (is_score score) }
        ensures ok { OnOk result (self.new ≡ finite.insert self.old member.now score) }
        ensures err { OnErr result (self.new ≡ self.old) }
    {
        if score == before {
            return Ok(());
        }
        let name = self.scores.change(member, before, score)?;
        change_name(&mut self.names, name, score);
        Ok(())
    }

    /// Adds a member that isn't there. Where memory runs out, the set is as it was.
    fn add(&mut self, member: &[u8], score: i64) -> Result<(), AllocError>
        requires absent { finite.get self.old member.now ≡ None }
        requires score { IsTrue (is_score score) }
        ensures ok { OnOk result (self.new ≡ finite.insert self.old member.now score) }
        ensures err { OnErr result (self.new ≡ self.old) }
    {
        make_room(&mut self.names, &self.scores)?;
        add_name(self.alloc, &mut self.names, member, score)?;
        if self.scores.add(member, score).is_err() {
            drop_name(&mut self.names, member);
            return Err(AllocError);
        }
        Ok(())
    }

    /// Removes a member, and answers its score.
    pub(crate) fn remove(&mut self, member: &[u8]) -> Option<i64>
        ensures before { result ≡ finite.get self.old member.now }
        ensures removed { self.new ≡ finite.remove self.old member.now }
    {
        let score = take_name(&mut self.names, &self.scores, member)?;
        self.scores.take(member, score);
        Some(score)
    }

    /// Removes members, where they are there. It takes memory, but needs none.
    pub(crate) fn remove_all(&mut self, members: &[&[u8]])
        ensures { self.new ≡ without_scores (lent members.now) self.old }
    {
        if let Some(names) = &mut self.names {
            self.scores.take_all(names, members);
            return;
        }
        self.scores.take_each(members);
    }

    /// The members with their scores, in the order of the members' bytes. It takes no memory.
    pub(crate) fn iter(&self) -> MemberScores<'_>
        ensures { result ≡ finite.entries self.now }
    {
        match &self.names {
            Some(names) => MemberScores::new(Walk::Named(names.iter())),
            None => MemberScores::new(Walk::Few(self.scores.iter())),
        }
    }

    /// Removes the first pair in order, and answers it. Where memory runs out, the set is as it was.
    pub(crate) fn pop_min(&mut self) -> Result<Option<(Bytes, i64)>, AllocError>
        ensures popped { IfOk result (λ popped. popped ≡ slice_get (pairs_of self.old) 0) }
        ensures ok { IfOk result (λ popped. self.new ≡ without popped self.old) }
        ensures err { OnErr result (self.new ≡ self.old) }
    {
        let popped = self.scores.pop_min()?;
        drop_popped(&mut self.names, &popped);
        Ok(popped)
    }

    /// Removes the last pair in order, and answers it. Where memory runs out, the set is as it was.
    pub(crate) fn pop_max(&mut self) -> Result<Option<(Bytes, i64)>, AllocError>
        ensures popped { IfOk result (λ popped.
            popped ≡ slice_get (pairs_of self.old) (length (pairs_of self.old) - 1)) }
        ensures ok { IfOk result (λ popped. self.new ≡ without popped self.old) }
        ensures err { OnErr result (self.new ≡ self.old) }
    {
        let popped = self.scores.pop_max()?;
        drop_popped(&mut self.names, &popped);
        Ok(popped)
    }
}
