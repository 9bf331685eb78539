//! What effects are made of.
use crate::kind::Kind;
use crate::step::Step;
use crate::telling::tell_whether;
use mr_bytes::Word;
use mr_effect::{EffectName, EffectPairs, EffectWords, Scores};
use rehearse_shared::{RehearsalFault, bytes_of, number_of, tell, tell_bytes, tell_shown};
use std::alloc::Global;

/// The parts have no state.
#[derive(Drop)]
pub struct Parts;

impl Kind for Parts {
    fn make(
        &mut self,
        alloc: Global,
        step: Step<'_>,
        out: &mut Vec<u8>,
    ) -> Result<(), RehearsalFault> {
        match step.name {
            "words" => tell_words(alloc, step, out),
            "pairs" => tell_pairs(alloc, step, out),
            "scores" => tell_scores(alloc, step, out),
            "name" => tell_name(alloc, step, out),
            _ => Err(RehearsalFault::Line),
        }
    }
}

/// A list of one word.
fn tell_words(alloc: Global, step: Step<'_>, out: &mut Vec<u8>) -> Result<(), RehearsalFault> {
    let item = bytes_of(alloc, step.first)?;
    let mut words = EffectWords::new(alloc);
    words.push(Word::borrowed(item.as_slice()))?;
    tell_list(alloc, words.len(), words.is_empty(), words.fit(), out)?;
    tell_shown(alloc, words.into_vec().len(), out)
}

/// A list of one pair.
fn tell_pairs(alloc: Global, step: Step<'_>, out: &mut Vec<u8>) -> Result<(), RehearsalFault> {
    let name = bytes_of(alloc, step.first)?;
    let value = bytes_of(alloc, step.second)?;
    let mut pairs = EffectPairs::new(alloc);
    pairs.push(
        Word::borrowed(name.as_slice()),
        Word::borrowed(value.as_slice()),
    )?;
    tell_list(alloc, pairs.len(), pairs.is_empty(), pairs.fit(), out)?;
    tell_shown(alloc, pairs.into_vec().len(), out)
}

/// A list of one score.
fn tell_scores(alloc: Global, step: Step<'_>, out: &mut Vec<u8>) -> Result<(), RehearsalFault> {
    let member = bytes_of(alloc, step.first)?;
    let score = number_of(step.second)?;
    let mut scores = Scores::new(alloc);
    scores.push(Word::borrowed(member.as_slice()), score)?;
    tell_list(alloc, scores.len(), scores.is_empty(), scores.fit(), out)?;
    tell_whether(out, scores.are_within_limits(), " within", " past")?;
    tell_shown(alloc, scores.into_vec().len(), out)
}

/// How long a list is, and whether it is empty and its words are within the limit.
fn tell_list(
    alloc: Global,
    len: usize,
    is_empty: bool,
    fits: bool,
    out: &mut Vec<u8>,
) -> Result<(), RehearsalFault> {
    tell(out, "list")?;
    tell_shown(alloc, len, out)?;
    tell_whether(out, is_empty, " empty", "")?;
    tell_whether(out, fits, " fits", " too long")
}

/// The text of the effect name that a word is.
fn tell_name(alloc: Global, step: Step<'_>, out: &mut Vec<u8>) -> Result<(), RehearsalFault> {
    match EffectName::of(step.first.as_bytes()) {
        Some(name) => {
            tell(out, "name")?;
            tell_bytes(alloc, name.text(), out)
        }
        None => tell(out, "no name"),
    }
}
