// Fields that get values, in groups.
ghost use Rattle.std.specs.Prelude.{◌≡◌, ◌≤◌, [], ◌∷◌, ◌++◌, length, map, if◌then◌else◌, option_copied, OnOk};
ghost use Rattle.mr_effect.specs.declared.effect.Effect.TheVariants as made;
ghost use Rattle.mr_keyspace.specs.Cuts.{cut, most_items};
ghost use Rattle.mr_cmd_hash.specs.Hashes.{is_value};
ghost use Rattle.mr_cmd_shared.specs.Groups.{TakesItems};

use crate::groups::MOST_ITEMS;
use mr_bytes::Word;
use mr_cmd_shared::Effects;
use mr_data::{Effect, EffectPairs};
use std::alloc::{AllocError, Global};
use std::mem::replace;

/// Fields that get values, which go into one effect.
#[derive(Drop)]
pub struct PairGroup<'k> {
    alloc: Global,
    key: &'k [u8],
    pairs: EffectPairs<'static>,
    ghost room: { length pairs ≤ most_items },
}

impl<'k> PairGroup<'k> {
    /// No field of this key.
    pub fn new(alloc: Global, key: &'k [u8]) -> PairGroup<'k>
        ensures key { result.key.now ≡ key.now }
        ensures pairs { result.pairs ≡ [] }
    {
        PairGroup {
            alloc,
            key,
            pairs: EffectPairs::new(alloc),
        }
    }

    /// Takes a field, unless it has this value already.
    pub fn push(
        &mut self,
        field: &[u8],
        value: &[u8],
        before: Option<&[u8]>,
        effects: &mut Effects,
    ) -> Result<(), AllocError>
        ensures key { self.new.key.now ≡ self.old.key.now }
        ensures takes { OnOk result
            (TakesItems (made.SetFields self.old.key.now)
            (if is_value value.now (option_copied before.entry) then []
            else (field.now, value.now) ∷ []) self.old.pairs self.new.pairs effects.old
            effects.new) }
    {
        if is_value(value, before) {
            return Ok(());
        }
        self.push_pair(field, value, effects)
    }

    /// Takes a field with its value. The effect of a full group is put first.
    fn push_pair(
        &mut self,
        field: &[u8],
        value: &[u8],
        effects: &mut Effects,
    ) -> Result<(), AllocError>
        ensures key { self.new.key.now ≡ self.old.key.now }
        ensures takes { OnOk result
            (TakesItems (made.SetFields self.old.key.now) ((field.now, value.now) ∷ [])
            self.old.pairs self.new.pairs effects.old effects.new) }
    {
        if self.pairs.len() == MOST_ITEMS {
            self.flush(effects)?;
        }
        let field = Word::copied(self.alloc, field)?;
        let value = Word::copied(self.alloc, value)?;
        self.pairs.push(field, value)?;
        Ok(())
    }

    /// Puts the effect that sets the fields of the group, which is empty from then on.
    fn flush(&mut self, effects: &mut Effects) -> Result<(), AllocError>
        ensures key { self.new.key.now ≡ self.old.key.now }
        ensures effects { OnOk result (effects.new ≡
            effects.old ++ made.SetFields self.old.key.now self.old.pairs ∷ []) }
        ensures pairs { OnOk result (self.new.pairs ≡ []) }
    {
        let key = Word::copied(self.alloc, self.key)?;
        let pairs = replace(&mut self.pairs, EffectPairs::new(self.alloc));
        effects.push(Effect::SetFields { key, pairs })?;
        Ok(())
    }
}

/// Puts the effect of the last group.
pub fn end_pairs(mut group: PairGroup<'_>, effects: &mut Effects) -> Result<(), AllocError>
    ensures { OnOk result (effects.new ≡
        effects.old ++ map (made.SetFields group.entry.key.now) (cut group.entry.pairs)) }
{
    if group.pairs.is_empty() {
        return Ok(());
    }
    group.flush(effects)
}

/// Whether this is the value that was there before.
fn is_value(value: &[u8], before: Option<&[u8]>) -> bool
    ensures { result ≡ is_value value.now (option_copied before.entry) }
{
    match before {
        None => false,
        Some(before) => before == value,
    }
}
