// The effects of members whose scores are others than before, and of members that go.
ghost use Rattle.std.specs.Prelude.{◌≡◌, ◌∷◌, ◌++◌, [], map, OnOk};
ghost use Rattle.std.specs.FinMap.{keys};
ghost use Rattle.mr_map.specs.Bytes.{lent};
ghost use Rattle.mr_effect.specs.declared.effect.Effect.TheVariants as made;
ghost use Rattle.mr_keyspace.specs.Cuts.{cut};
ghost use Rattle.mr_cmd_zset.specs.Scores.{changed, changed_alone};

use crate::groups::{MemberGroup, ScoreGroup, end_members, end_scores};
use mr_arguments::Argument;
use mr_cmd_shared::Effects;
use mr_map::SliceMap;
use mr_zset::ZSet;
use std::alloc::AllocError;

/// Effects that set these scores, in byte order of the members. What a set has already is left out.
pub fn push_changed(
    key: &Argument<'_>,
    scores: &SliceMap<'_, i64>,
    set: &ZSet,
    effects: &mut Effects,
) -> Result<(), AllocError>
    ensures { OnOk result (effects.new ≡
        effects.old ++ map (made.SetScores key.now) (cut (changed set.now scores.now))) }
{
    let mut group = ScoreGroup::new(effects.alloc(), key.as_slice());
    for (member, score) in scores.iter() {
        group.push(member, set.score(member), Some(*score), effects)?;
    }
    end_scores(group, effects)?;
    Ok(())
}

/// The effect of one member's score, where it is another than before.
pub fn push_changed_alone(
    key: &Argument<'_>,
    member: &[u8],
    before: Option<i64>,
    after: Option<i64>,
    effects: &mut Effects,
) -> Result<(), AllocError>
    ensures { OnOk result (effects.new ≡
        effects.old ++ map (made.SetScores key.now) (cut (changed_alone member.now before after))) }
{
    let mut group = ScoreGroup::new(effects.alloc(), key.as_slice());
    group.push(member, before, after, effects)?;
    end_scores(group, effects)?;
    Ok(())
}

/// Effects that take these members out, in the order in which they stand.
pub fn push_lost(
    key: &Argument<'_>,
    members: &[&[u8]],
    effects: &mut Effects,
) -> Result<(), AllocError>
    ensures { OnOk result (effects.new ≡
        effects.old ++ map (made.RemoveScores key.now) (cut (lent members.now))) }
{
    let mut group = MemberGroup::new(effects.alloc(), key.as_slice());
    for member in members {
        group.push(member, effects)?;
    }
    end_members(group, effects)?;
    Ok(())
}

/// Effects that take all members of a set out, in byte order.
pub fn push_all(key: &Argument<'_>, set: &ZSet, effects: &mut Effects) -> Result<(), AllocError>
    ensures { OnOk result (effects.new ≡
        effects.old ++ map (made.RemoveScores key.now) (cut (keys set.now))) }
{
    let mut group = MemberGroup::new(effects.alloc(), key.as_slice());
    for (member, _) in set.iter() {
        group.push(member, effects)?;
    }
    end_members(group, effects)?;
    Ok(())
}

/// The effect that takes one member out.
pub fn push_lost_alone(
    key: &Argument<'_>,
    lost: &[u8],
    effects: &mut Effects,
) -> Result<(), AllocError>
    ensures { OnOk result (effects.new ≡
        effects.old ++ map (made.RemoveScores key.now) (cut (lost.now ∷ []))) }
{
    let mut group = MemberGroup::new(effects.alloc(), key.as_slice());
    group.push(lost, effects)?;
    end_members(group, effects)?;
    Ok(())
}
