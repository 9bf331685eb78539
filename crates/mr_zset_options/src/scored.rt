// Scores with their members among the words of a request.
ghost use Rattle.std.specs.Prelude.{◌≡◌, ◌<◌, ◌^◌, IsTrue, length, option_map};
ghost use Rattle.std.specs.Iterator.{YieldsFirstBy, item_count};
ghost use Rattle.std.specs.List.{list_all};
ghost use Rattle.mr_zset_options.specs.Scored.{has_score, have_scores, is_scored, read_scored, scored_of};

use mr_arguments::{WordPairs, WordPairsIter};
use mr_score::read_score;
use std::marker::Model;

/// Words that follow one another in a request, taken two by two: scores with their members. Each score can be read.
#[derive(Drop)]
pub struct ScoredMembers<'a, 't> {
    pairs: WordPairs<'a, 't>,
}

impl<'a, 't> Model for ScoredMembers<'a, 't> {
    ghost use Rattle.std.specs.Prelude.{ℕ, ℤ, List, IsTrue, map};
    ghost use Rattle.mr_zset_options.specs.Scored.{have_scores, scored};

    ghost Value = { List (ℤ × List ℕ) };

    ghost view = { λ a. map scored a.pairs };

    ghost invariant = { λ a. IsTrue (have_scores a.pairs) };
}

impl<'a, 't> ScoredMembers<'a, 't> {
    /// These pairs, if the first of each is the text of a score. They are not copied.
    pub fn of(pairs: WordPairs<'a, 't>) -> Option<ScoredMembers<'a, 't>>
        ensures { result ≡ scored_of pairs.entry }
    {
        if have_scores(pairs.iter()) {
            Some(ScoredMembers { pairs })
        } else {
            None
        }
    }

    /// How many there are.
    pub fn len(&self) -> usize
        ensures len { result ≡ length self.now }
        ensures small { result < 2 ^ 63 }
    {
        self.pairs.len()
    }

    /// The scores with their members, in the order of the request.
    pub fn iter(&self) -> ScoredMembersIter<'a, 't>
        ensures all { result ≡ self.now }
        ensures scores { IsTrue (list_all is_scored self.now) }
    {
        ScoredMembersIter {
            pairs: self.pairs.iter(),
        }
    }
}

/// Whether the first of each pair is the text of a score.
fn have_scores(pairs: WordPairsIter<'_, '_>) -> bool
    ensures { result ≡ have_scores pairs.entry }
{
    for (score, _) in pairs {
        if !has_score(score) {
            return false;
        }
    }
    true
}

/// Whether a text is that of a score.
fn has_score(text: &[u8]) -> bool
    ensures { result ≡ has_score text.now }
{
    read_score(text).is_some()
}

/// The scores with their members that are still to come, seen as a list.
#[derive(Drop)]
pub struct ScoredMembersIter<'a, 't> {
    pairs: WordPairsIter<'a, 't>,
}

impl<'a, 't> Model for ScoredMembersIter<'a, 't> {
    ghost use Rattle.std.specs.Prelude.{ℕ, ℤ, List, IsTrue, map};
    ghost use Rattle.mr_zset_options.specs.Scored.{have_scores, scored};

    ghost Value = { List (ℤ × List ℕ) };

    ghost view = { λ a. map scored a.pairs };

    ghost invariant = { λ a. IsTrue (have_scores a.pairs) };
}

impl<'a, 't> Iterator for ScoredMembersIter<'a, 't> {
    type Item = (i64, &'a [u8]);

    ghost next_gives = { YieldsFirstBy read_scored (λ s. s) };

    ghost remaining = { item_count (λ s. s) };

    fn next(&mut self) -> Option<(i64, &'a [u8])> {
        let (score, member) = self.pairs.next()?;
        Some((read_score(score)?, member))
    }
}
