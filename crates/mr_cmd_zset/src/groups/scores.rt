// Members that get scores, in groups.
ghost use Rattle.std.specs.Prelude.{◌≡◌, ◌≤◌, [], ◌∷◌, ◌++◌, length, map, OnOk};
ghost use Rattle.mr_effect.specs.declared.effect.Effect.TheVariants as made;
ghost use Rattle.mr_keyspace.specs.Cuts.{cut, most_items};
ghost use Rattle.mr_cmd_shared.specs.Groups.{TakesItems};
ghost use Rattle.mr_cmd_zset.specs.Scores.{changed_alone};

use crate::groups::MOST_ITEMS;
use crate::rules::is_same;
use mr_bytes::Word;
use mr_cmd_shared::Effects;
use mr_data::{Effect, Scores};
use std::alloc::{AllocError, Global};
use std::mem::replace;

/// Members that get scores, by one effect.
#[derive(Drop)]
pub struct ScoreGroup<'k> {
    alloc: Global,
    key: &'k [u8],
    scores: Scores<'static>,
    ghost room: { length scores ≤ most_items },
}

impl<'k> ScoreGroup<'k> {
    /// No score of this key.
    pub fn new(alloc: Global, key: &'k [u8]) -> ScoreGroup<'k>
        ensures key { result.key.now ≡ key.now }
        ensures scores { result.scores ≡ [] }
    {
        ScoreGroup {
            alloc,
            key,
            scores: Scores::new(alloc),
        }
    }

    /// Takes a member with the score that it has, unless it had this score before.
    pub fn push(
        &mut self,
        member: &[u8],
        before: Option<i64>,
        after: Option<i64>,
        effects: &mut Effects,
    ) -> Result<(), AllocError>
        ensures key { self.new.key.now ≡ self.old.key.now }
        ensures takes { OnOk result
            (TakesItems (made.SetScores self.old.key.now) (changed_alone member.now before after)
            self.old.scores self.new.scores effects.old effects.new) }
    {
        match after {
            Some(score) if !is_same(before, after) => self.push_score(member, score, effects),
            _ => Ok(()),
        }
    }

    /// Takes a member with its score. The effect of a full group is put first.
    fn push_score(
        &mut self,
        member: &[u8],
        score: i64,
        effects: &mut Effects,
    ) -> Result<(), AllocError>
        ensures key { self.new.key.now ≡ self.old.key.now }
        ensures takes { OnOk result
            (TakesItems (made.SetScores self.old.key.now) ((member.now, score) ∷ [])
            self.old.scores self.new.scores effects.old effects.new) }
    {
        if self.scores.len() == MOST_ITEMS {
            self.flush(effects)?;
        }
        self.scores.push(Word::copied(self.alloc, member)?, score)?;
        Ok(())
    }

    /// Puts the effect that sets the scores of the group, which is empty from then on.
    fn flush(&mut self, effects: &mut Effects) -> Result<(), AllocError>
        ensures key { self.new.key.now ≡ self.old.key.now }
        ensures effects { OnOk result (effects.new ≡
            effects.old ++ made.SetScores self.old.key.now self.old.scores ∷ []) }
        ensures scores { OnOk result (self.new.scores ≡ []) }
    {
        let key = Word::copied(self.alloc, self.key)?;
        let scores = replace(&mut self.scores, Scores::new(self.alloc));
        effects.push(Effect::SetScores { key, scores })?;
        Ok(())
    }
}

/// Puts the effect of the last group.
pub fn end_scores(mut group: ScoreGroup<'_>, effects: &mut Effects) -> Result<(), AllocError>
    ensures { OnOk result (effects.new ≡
        effects.old ++ map (made.SetScores group.entry.key.now) (cut group.entry.scores)) }
{
    if group.scores.is_empty() {
        return Ok(());
    }
    group.flush(effects)
}
