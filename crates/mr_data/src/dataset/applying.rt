// Effects on a dataset.
ghost use Rattle.std.specs.Prelude.{◌≡◌, ◌≢◌, ◌↔◌, ◌&&◌, [], Some, None, Err, IsOk, OnOk, is_some};
ghost use Rattle.std.specs.FinMap as map;
ghost use Rattle.std.specs.List.{AllByRecursion};
ghost use Rattle.mr_effect.specs.Effects.{has_spelling, words_fit};
ghost use Rattle.mr_keyspace.specs.Changes.{NeedsNoMemory};
ghost use Rattle.mr_data.specs.Meaning.{StopsAtOne, apply, apply_all};

use crate::dataset::Dataset;
use mr_effect::Effect;
use mr_keyspace::ApplyFault;

impl Dataset {
    /// Whether an effect can be done here: where it can't, it is refused. It takes no memory.
    #[tactic(auto, unfolding(crate::specs::Meaning::apply))]
    pub fn applies(&self, effect: &Effect<'_>) -> bool
        ensures { result ≡ is_some (apply effect.now self.now) }
    {
        if is_possible(effect) {
            return self.entries.applies(effect);
        }
        false
    }

    /// Does an effect, whose words are copied. A dataset for which memory ran out is emptied.
    #[tactic(auto, unfolding(crate::specs::Meaning::apply))]
    pub fn apply(&mut self, effect: &Effect<'_>) -> Result<(), ApplyFault>
        ensures ok { OnOk result (apply effect.now self.old ≡ Some self.new) }
        ensures refused { (result ≡ Err ApplyFault.Refused) ↔
            (apply effect.now self.old ≡ None) }
        ensures unchanged { result ≡ Err ApplyFault.Refused → self.new ≡ self.old }
        ensures emptied { result ≡ Err ApplyFault.Memory → self.new ≡ map.empty }
        ensures memory { NeedsNoMemory effect.now → result ≢ Err ApplyFault.Memory }
    {
        if !is_possible(effect) {
            return Err(ApplyFault::Refused);
        }
        let outcome = self.entries.copy(effect);
        self.entries.settle(&outcome);
        outcome
    }

    /// Does an effect, and moves into the dataset the words that own their memory, but for members of sorted sets,
    /// which are copied. A dataset for which memory ran out is emptied.
    #[tactic(auto, unfolding(crate::specs::Meaning::apply))]
    pub fn apply_owned(&mut self, effect: Effect<'_>) -> Result<(), ApplyFault>
        ensures ok { OnOk result (apply effect.entry self.old ≡ Some self.new) }
        ensures refused { (result ≡ Err ApplyFault.Refused) ↔
            (apply effect.entry self.old ≡ None) }
        ensures unchanged { result ≡ Err ApplyFault.Refused → self.new ≡ self.old }
        ensures emptied { result ≡ Err ApplyFault.Memory → self.new ≡ map.empty }
        ensures memory { NeedsNoMemory effect.entry → result ≢ Err ApplyFault.Memory }
    {
        if !is_possible(&effect) {
            drop(effect);
            return Err(ApplyFault::Refused);
        }
        let outcome = self.entries.take(effect);
        self.entries.settle(&outcome);
        outcome
    }

    /// Does effects one after another, and moves into the dataset the words that own their memory. Where one is refused,
    /// those before it are done, and no other. A dataset for which memory ran out is emptied.
    pub fn apply_all(&mut self, effects: Vec<Effect<'_>>) -> Result<(), ApplyFault>
        ensures ok { OnOk result (apply_all effects.entry.items self.old ≡ Some self.new) }
        ensures refused { result ≡ Err ApplyFault.Refused →
            apply_all effects.entry.items self.old ≡ None }
        ensures begun { result ≡ Err ApplyFault.Refused →
            StopsAtOne effects.entry.items self.old self.new }
        ensures emptied { result ≡ Err ApplyFault.Memory → self.new ≡ map.empty }
        ensures memory { AllByRecursion NeedsNoMemory effects.entry.items →
            result ≢ Err ApplyFault.Memory }
        ensures none { effects.entry.items ≡ [] → IsOk result }
    {
        if let Some(key) = self.whole_set(&effects) {
            self.remove(key);
            return Ok(());
        }
        if self.remove_together(*effects.allocator(), &effects) {
            return Ok(());
        }
        for effect in effects {
            self.apply_owned(effect)?;
        }
        Ok(())
    }
}

/// Whether an effect has a spelling, with words within the limit.
pub(super) fn is_possible(effect: &Effect<'_>) -> bool
    ensures { result ≡ (has_spelling effect.now && words_fit effect.now) }
{
    effect.has_spelling() && effect.fits()
}
