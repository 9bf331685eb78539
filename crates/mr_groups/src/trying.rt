// The effect that words spell, done to a dataset.
ghost use Rattle.std.specs.Prelude.{map};
ghost use Rattle.std.specs.Cow.{cow_slice_items};
ghost use Rattle.mr_groups.specs.Steps.{TriesEffect, TriesWords};

use mr_data::{ApplyFault, Dataset, Effect, decode};
use std::alloc::Global;
use std::borrow::CowSlice;

/// What was done with words, or with an effect.
#[derive(Clone, Copy, Debug, PartialEq, Eq)]
pub enum Tried {
    /// Their effect was done.
    Done,
    /// No effect with these words can be applied.
    Refused,
    /// Nothing, for want of memory.
    Lack,
    /// Memory ran out within their effect: the dataset is spent.
    Spent,
}

/// Does an effect.
#[tactic(auto, using(crate::proofs::Commands::effect_spent))]
fn try_effect(effect: Effect<'_>, dataset: &mut Dataset) -> Tried
    ensures { TriesEffect effect.entry dataset.old dataset.new result }
{
    match dataset.apply_owned(effect) {
        Ok(()) => Tried::Done,
        Err(ApplyFault::Refused) => Tried::Refused,
        Err(ApplyFault::Memory) => Tried::Spent,
    }
}

/// Does the effect that these words spell, or tells that none can be done.
#[tactic(auto, using(crate::proofs::Commands::none_spelled))]
pub fn try_words(alloc: Global, words: &[CowSlice<'_, u8>], dataset: &mut Dataset) -> Tried
    ensures { TriesWords (map cow_slice_items words.now) dataset.old dataset.new result }
{
    match decode(alloc, words) {
        Err(_) => Tried::Lack,
        Ok(None) => Tried::Refused,
        Ok(Some(effect)) => try_effect(effect, dataset),
    }
}
