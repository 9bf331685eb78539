// Which scores are set, and which pairs are counted.
ghost use Rattle.std.specs.Prelude.{◌≡◌};
ghost use Rattle.mr_cmd_zset.specs.Scores.{is_same};
ghost use Rattle.mr_cmd_zset.specs.Adding.{meets, replaces, is_counted, is_set, score_after};

use mr_zset_options::{Comparison, ScoreCondition, ScoresReply};

/// Which scores are set, and which pairs are counted.
#[derive(Clone, Copy)]
pub struct Rules {
    pub condition: Option<ScoreCondition>,
    pub comparison: Option<Comparison>,
    pub reply: ScoresReply,
}

impl Rules {
    /// The rules of this condition and this comparison, with pairs counted for this reply.
    pub fn new(
        condition: Option<ScoreCondition>,
        comparison: Option<Comparison>,
        reply: ScoresReply,
    ) -> Rules
        ensures condition { result.condition ≡ condition }
        ensures comparison { result.comparison ≡ comparison }
        ensures reply { result.reply ≡ reply }
    {
        Rules {
            condition,
            comparison,
            reply,
        }
    }

    /// Whether a member with this score before may have that score.
    pub fn sets(self, before: Option<i64>, score: i64) -> bool
        ensures { result ≡ is_set self.condition self.comparison before score }
    {
        self.meets(before) && self.replaces(before, score)
    }

    /// The score of a member once a pair was put to it.
    pub fn score_after(self, before: Option<i64>, score: i64) -> Option<i64>
        ensures { result ≡ score_after self.condition self.comparison before score }
    {
        if self.sets(before, score) {
            Some(score)
        } else {
            before
        }
    }

    /// Whether a pair is counted, by its member's score before it and after it.
    pub fn counts(self, before: Option<i64>, after: Option<i64>) -> bool
        ensures { result ≡ is_counted self.reply before after }
    {
        match self.reply {
            ScoresReply::Added => before.is_none() && after.is_some(),
            ScoresReply::Changed => !is_same(before, after),
        }
    }

    /// Whether a member with this score before, or none, meets the condition.
    fn meets(self, before: Option<i64>) -> bool
        ensures { result ≡ meets self.condition before }
    {
        match self.condition {
            None => true,
            Some(ScoreCondition::Absent) => before.is_none(),
            Some(ScoreCondition::Present) => before.is_some(),
        }
    }

    /// Whether this score may replace the one before, if there is one, by the comparison.
    fn replaces(self, before: Option<i64>, score: i64) -> bool
        ensures { result ≡ replaces self.comparison before score }
    {
        match (self.comparison, before) {
            (None, _) | (_, None) => true,
            (Some(Comparison::Greater), Some(before)) => before < score,
            (Some(Comparison::Less), Some(before)) => score < before,
        }
    }
}

/// Whether it is the same score, or none in both.
pub fn is_same(before: Option<i64>, after: Option<i64>) -> bool
    ensures { result ≡ is_same before after }
{
    match (before, after) {
        (None, None) => true,
        (Some(before), Some(after)) => before == after,
        (None, Some(_)) | (Some(_), None) => false,
    }
}
