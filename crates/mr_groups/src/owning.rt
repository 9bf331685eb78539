// Effects that own their words.
ghost use Rattle.std.specs.Prelude.{◌≡◌, IfOk};

use mr_bytes::Word;
use mr_effect::{Effect, EffectPairs, EffectWords, Scores};
use std::alloc::{AllocError, Global};

/// A word that owns a copy of another's bytes.
fn owned_word(alloc: Global, word: &Word<'_>) -> Result<Word<'static>, AllocError>
    ensures { IfOk result (λ owned. owned ≡ word.now) }
{
    Word::copied(alloc, word.as_slice())
}

/// Two words that own copies.
fn two_owned(
    alloc: Global,
    first: &Word<'_>,
    second: &Word<'_>,
) -> Result<(Word<'static>, Word<'static>), AllocError>
    ensures first { IfOk result (λ owned. owned.0 ≡ first.now) }
    ensures second { IfOk result (λ owned. owned.1 ≡ second.now) }
{
    let first = owned_word(alloc, first)?;
    let second = owned_word(alloc, second)?;
    Ok((first, second))
}

/// Words that own copies, in their order.
fn owned_words(alloc: Global, words: &EffectWords<'_>) -> Result<EffectWords<'static>, AllocError>
    ensures { IfOk result (λ owned. owned ≡ words.now) }
{
    let mut owned = EffectWords::new(alloc);
    for word in words.as_slice() {
        owned.push(owned_word(alloc, word)?)?;
    }
    Ok(owned)
}

/// Pairs of words that own copies, in their order.
fn owned_pairs(alloc: Global, pairs: &EffectPairs<'_>) -> Result<EffectPairs<'static>, AllocError>
    ensures { IfOk result (λ owned. owned ≡ pairs.now) }
{
    let mut owned = EffectPairs::new(alloc);
    for pair in pairs.as_slice() {
        owned.push(owned_word(alloc, &pair.0)?, owned_word(alloc, &pair.1)?)?;
    }
    Ok(owned)
}

/// Members that own copies, with their scores, in their order.
fn owned_scores(alloc: Global, scores: &Scores<'_>) -> Result<Scores<'static>, AllocError>
    ensures { IfOk result (λ owned. owned ≡ scores.now) }
{
    let mut owned = Scores::new(alloc);
    for pair in scores.as_slice() {
        owned.push(owned_word(alloc, &pair.0)?, pair.1)?;
    }
    Ok(owned)
}

/// The same effect with words of its own.
pub(crate) fn owned_effect(
    alloc: Global,
    effect: &Effect<'_>,
) -> Result<Effect<'static>, AllocError>
    ensures { IfOk result (λ owned. owned ≡ effect.now) }
{
    match effect {
        Effect::Set { key, value } => {
            let (key, value) = two_owned(alloc, key, value)?;
            Ok(Effect::Set { key, value })
        }
        Effect::SetUntil {
            key,
            value,
            deadline,
        } => {
            let (key, value) = two_owned(alloc, key, value)?;
            Ok(Effect::SetUntil {
                key,
                value,
                deadline: *deadline,
            })
        }
        Effect::SetKeeping { key, value } => {
            let (key, value) = two_owned(alloc, key, value)?;
            Ok(Effect::SetKeeping { key, value })
        }
        Effect::MSet { pairs } => {
            let pairs = owned_pairs(alloc, pairs)?;
            Ok(Effect::MSet { pairs })
        }
        Effect::Append { key, value } => {
            let (key, value) = two_owned(alloc, key, value)?;
            Ok(Effect::Append { key, value })
        }
        Effect::SetRange { key, offset, value } => {
            let (key, value) = two_owned(alloc, key, value)?;
            Ok(Effect::SetRange {
                key,
                offset: *offset,
                value,
            })
        }
        Effect::Increase { key, by } => {
            let key = owned_word(alloc, key)?;
            Ok(Effect::Increase { key, by: *by })
        }
        Effect::Del { key } => {
            let key = owned_word(alloc, key)?;
            Ok(Effect::Del { key })
        }
        Effect::Expire { key, deadline } => {
            let key = owned_word(alloc, key)?;
            Ok(Effect::Expire {
                key,
                deadline: *deadline,
            })
        }
        Effect::Persist { key } => {
            let key = owned_word(alloc, key)?;
            Ok(Effect::Persist { key })
        }
        Effect::Rename { from, to } => {
            let (from, to) = two_owned(alloc, from, to)?;
            Ok(Effect::Rename { from, to })
        }
        Effect::Clear => Ok(Effect::Clear),
        Effect::Ping => Ok(Effect::Ping),
        Effect::SetFields { key, pairs } => {
            let key = owned_word(alloc, key)?;
            let pairs = owned_pairs(alloc, pairs)?;
            Ok(Effect::SetFields { key, pairs })
        }
        Effect::RemoveFields { key, fields } => {
            let key = owned_word(alloc, key)?;
            let fields = owned_words(alloc, fields)?;
            Ok(Effect::RemoveFields { key, fields })
        }
        Effect::Push { key, end, items } => {
            let key = owned_word(alloc, key)?;
            let items = owned_words(alloc, items)?;
            Ok(Effect::Push {
                key,
                end: *end,
                items,
            })
        }
        Effect::Pop { key, end, count } => {
            let key = owned_word(alloc, key)?;
            Ok(Effect::Pop {
                key,
                end: *end,
                count: *count,
            })
        }
        Effect::SetItem { key, place, item } => {
            let (key, item) = two_owned(alloc, key, item)?;
            Ok(Effect::SetItem {
                key,
                place: *place,
                item,
            })
        }
        Effect::InsertItem {
            key,
            side,
            pivot,
            item,
        } => {
            let key = owned_word(alloc, key)?;
            let (pivot, item) = two_owned(alloc, pivot, item)?;
            Ok(Effect::InsertItem {
                key,
                side: *side,
                pivot,
                item,
            })
        }
        Effect::RemoveItems { key, count, item } => {
            let (key, item) = two_owned(alloc, key, item)?;
            Ok(Effect::RemoveItems {
                key,
                count: *count,
                item,
            })
        }
        Effect::Trim { key, first, last } => {
            let key = owned_word(alloc, key)?;
            Ok(Effect::Trim {
                key,
                first: *first,
                last: *last,
            })
        }
        Effect::MoveItem {
            from,
            to,
            taken,
            put,
        } => {
            let (from, to) = two_owned(alloc, from, to)?;
            Ok(Effect::MoveItem {
                from,
                to,
                taken: *taken,
                put: *put,
            })
        }
        Effect::AddMembers { key, members } => {
            let key = owned_word(alloc, key)?;
            let members = owned_words(alloc, members)?;
            Ok(Effect::AddMembers { key, members })
        }
        Effect::RemoveMembers { key, members } => {
            let key = owned_word(alloc, key)?;
            let members = owned_words(alloc, members)?;
            Ok(Effect::RemoveMembers { key, members })
        }
        Effect::MoveMember { from, to, member } => {
            let (from, to) = two_owned(alloc, from, to)?;
            let member = owned_word(alloc, member)?;
            Ok(Effect::MoveMember { from, to, member })
        }
        Effect::SetScores { key, scores } => {
            let key = owned_word(alloc, key)?;
            let scores = owned_scores(alloc, scores)?;
            Ok(Effect::SetScores { key, scores })
        }
        Effect::RemoveScores { key, members } => {
            let key = owned_word(alloc, key)?;
            let members = owned_words(alloc, members)?;
            Ok(Effect::RemoveScores { key, members })
        }
    }
}
