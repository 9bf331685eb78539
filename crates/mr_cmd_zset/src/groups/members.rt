// Members that go, in groups.
ghost use Rattle.std.specs.Prelude.{◌≡◌, ◌≤◌, [], ◌∷◌, ◌++◌, length, map, OnOk};
ghost use Rattle.mr_effect.specs.declared.effect.Effect.TheVariants as made;
ghost use Rattle.mr_keyspace.specs.Cuts.{cut, most_items};
ghost use Rattle.mr_cmd_shared.specs.Groups.{TakesItems};

use crate::groups::MOST_ITEMS;
use mr_bytes::Word;
use mr_cmd_shared::Effects;
use mr_data::{Effect, EffectWords};
use std::alloc::{AllocError, Global};
use std::mem::replace;

/// Members that go, by one effect.
#[derive(Drop)]
pub struct MemberGroup<'k> {
    alloc: Global,
    key: &'k [u8],
    members: EffectWords<'static>,
    ghost room: { length members ≤ most_items },
}

impl<'k> MemberGroup<'k> {
    /// No member of this key.
    pub fn new(alloc: Global, key: &'k [u8]) -> MemberGroup<'k>
        ensures key { result.key.now ≡ key.now }
        ensures members { result.members ≡ [] }
    {
        MemberGroup {
            alloc,
            key,
            members: EffectWords::new(alloc),
        }
    }

    /// Takes a member. A full group before it goes into an effect.
    pub fn push(&mut self, member: &[u8], effects: &mut Effects) -> Result<(), AllocError>
        ensures key { self.new.key.now ≡ self.old.key.now }
        ensures takes { OnOk result
            (TakesItems (made.RemoveScores self.old.key.now) (member.now ∷ []) self.old.members
            self.new.members effects.old effects.new) }
    {
        if self.members.len() == MOST_ITEMS {
            self.flush(effects)?;
        }
        self.members.push(Word::copied(self.alloc, member)?)?;
        Ok(())
    }

    /// Puts the effect that removes the members of the group, which is empty from then on.
    fn flush(&mut self, effects: &mut Effects) -> Result<(), AllocError>
        ensures key { self.new.key.now ≡ self.old.key.now }
        ensures effects { OnOk result (effects.new ≡
            effects.old ++ made.RemoveScores self.old.key.now self.old.members ∷ []) }
        ensures members { OnOk result (self.new.members ≡ []) }
    {
        let key = Word::copied(self.alloc, self.key)?;
        let members = replace(&mut self.members, EffectWords::new(self.alloc));
        effects.push(Effect::RemoveScores { key, members })?;
        Ok(())
    }
}

/// Puts the effect of the last group.
pub fn end_members(mut group: MemberGroup<'_>, effects: &mut Effects) -> Result<(), AllocError>
    ensures { OnOk result (effects.new ≡
        effects.old ++ map (made.RemoveScores group.entry.key.now) (cut group.entry.members)) }
{
    if group.members.is_empty() {
        return Ok(());
    }
    group.flush(effects)
}
