// Fields that go, in groups.
ghost use Rattle.std.specs.Prelude.{◌≡◌, ◌≤◌, [], ◌∷◌, ◌++◌, length, map, if◌then◌else◌, OnOk};
ghost use Rattle.mr_effect.specs.declared.effect.Effect.TheVariants as made;
ghost use Rattle.mr_keyspace.specs.Cuts.{cut, most_items};
ghost use Rattle.mr_cmd_shared.specs.Groups.{TakesItems};

use crate::groups::MOST_ITEMS;
use mr_bytes::Word;
use mr_cmd_shared::Effects;
use mr_data::{Effect, EffectWords};
use std::alloc::{AllocError, Global};
use std::mem::replace;

/// Fields that go, by one effect.
#[derive(Drop)]
pub struct FieldGroup<'k> {
    alloc: Global,
    key: &'k [u8],
    fields: EffectWords<'static>,
    ghost room: { length fields ≤ most_items },
}

impl<'k> FieldGroup<'k> {
    /// No field of this key.
    pub fn new(alloc: Global, key: &'k [u8]) -> FieldGroup<'k>
        ensures key { result.key.now ≡ key.now }
        ensures fields { result.fields ≡ [] }
    {
        FieldGroup {
            alloc,
            key,
            fields: EffectWords::new(alloc),
        }
    }

    /// Takes a field that is there.
    pub fn push(
        &mut self,
        field: &[u8],
        there: bool,
        effects: &mut Effects,
    ) -> Result<(), AllocError>
        ensures key { self.new.key.now ≡ self.old.key.now }
        ensures takes { OnOk result
            (TakesItems (made.RemoveFields self.old.key.now) (if there then field.now ∷ []
            else []) self.old.fields self.new.fields effects.old effects.new) }
    {
        if there {
            self.push_field(field, effects)
        } else {
            Ok(())
        }
    }

    /// Takes a field. The effect of a full group is put first.
    fn push_field(&mut self, field: &[u8], effects: &mut Effects) -> Result<(), AllocError>
        ensures key { self.new.key.now ≡ self.old.key.now }
        ensures takes { OnOk result
            (TakesItems (made.RemoveFields self.old.key.now) (field.now ∷ []) self.old.fields
            self.new.fields effects.old effects.new) }
    {
        if self.fields.len() == MOST_ITEMS {
            self.flush(effects)?;
        }
        self.fields.push(Word::copied(self.alloc, field)?)?;
        Ok(())
    }

    /// Puts the effect that removes the fields of the group, which is empty from then on.
    fn flush(&mut self, effects: &mut Effects) -> Result<(), AllocError>
        ensures key { self.new.key.now ≡ self.old.key.now }
        ensures effects { OnOk result (effects.new ≡
            effects.old ++ made.RemoveFields self.old.key.now self.old.fields ∷ []) }
        ensures fields { OnOk result (self.new.fields ≡ []) }
    {
        let key = Word::copied(self.alloc, self.key)?;
        let fields = replace(&mut self.fields, EffectWords::new(self.alloc));
        effects.push(Effect::RemoveFields { key, fields })?;
        Ok(())
    }
}

/// Puts the effect of the last group.
pub fn end_fields(mut group: FieldGroup<'_>, effects: &mut Effects) -> Result<(), AllocError>
    ensures { OnOk result (effects.new ≡
        effects.old ++ map (made.RemoveFields group.entry.key.now) (cut group.entry.fields)) }
{
    if group.fields.is_empty() {
        return Ok(());
    }
    group.flush(effects)
}
