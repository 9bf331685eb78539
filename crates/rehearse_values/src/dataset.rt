//! Datasets: effects that are made and not read, what is seen, and what a step is given.
use crate::kind::Kind;
use crate::step::Step;
use crate::telling::tell_whether;
use mr_bytes::Word;
use mr_data::{ApplyFault, Dataset, Effect, EffectPairs, EffectWords, End, Given, Scores};
use rehearse_shared::{
    RehearsalFault, bytes_of, count_of, number_of, tell, tell_bytes, tell_shown,
};
use std::alloc::Global;

impl Kind for Dataset {
    fn make(
        &mut self,
        alloc: Global,
        step: Step<'_>,
        out: &mut Vec<u8>,
    ) -> Result<(), RehearsalFault> {
        match step.name {
            "set" => set(alloc, self, step, out),
            "del" => del(alloc, self, step, out),
            "nothing" => {
                let applied = self.apply_all(Vec::new(alloc));
                tell_applied(applied, out)
            }
            "at" => tell_entry(alloc, self, step, out),
            "keys" => tell_keys(alloc, self, out),
            "given" => tell_given(alloc, step, out),
            _ => apply_made(alloc, self, step, out),
        }
    }
}

/// Applies an effect that may have no spelling: without words, or with a number.
fn apply_made(
    alloc: Global,
    held: &mut Dataset,
    step: Step<'_>,
    out: &mut Vec<u8>,
) -> Result<(), RehearsalFault> {
    match step.name {
        "no-texts" => set_no_texts(alloc, held, out),
        "no-members" => add_no_members(alloc, held, out),
        "no-items" => push_no_items(alloc, held, out),
        "score" => set_score(alloc, held, number_of(step.first)?, out),
        "offset" => set_range(held, number_of(step.first)?, out),
        "place" => set_item(held, number_of(step.first)?, out),
        _ => Err(RehearsalFault::Line),
    }
}

/// Applies the effect that sets a key to a text.
fn set(
    alloc: Global,
    held: &mut Dataset,
    step: Step<'_>,
    out: &mut Vec<u8>,
) -> Result<(), RehearsalFault> {
    let key = bytes_of(alloc, step.first)?;
    let value = bytes_of(alloc, step.second)?;
    let effect = Effect::Set {
        key: Word::borrowed(key.as_slice()),
        value: Word::borrowed(value.as_slice()),
    };
    apply(held, effect, out)
}

/// Applies the effect that deletes a key.
fn del(
    alloc: Global,
    held: &mut Dataset,
    step: Step<'_>,
    out: &mut Vec<u8>,
) -> Result<(), RehearsalFault> {
    let key = bytes_of(alloc, step.first)?;
    let effect = Effect::Del {
        key: Word::borrowed(key.as_slice()),
    };
    apply(held, effect, out)
}

/// Applies an effect that sets no key.
fn set_no_texts(
    alloc: Global,
    held: &mut Dataset,
    out: &mut Vec<u8>,
) -> Result<(), RehearsalFault> {
    let pairs = EffectPairs::new(alloc);
    apply(held, Effect::MSet { pairs }, out)
}

/// Applies an effect that adds no member.
fn add_no_members(
    alloc: Global,
    held: &mut Dataset,
    out: &mut Vec<u8>,
) -> Result<(), RehearsalFault> {
    let effect = Effect::AddMembers {
        key: Word::borrowed(b"s"),
        members: EffectWords::new(alloc),
    };
    apply(held, effect, out)
}

/// Applies an effect that puts no item.
fn push_no_items(
    alloc: Global,
    held: &mut Dataset,
    out: &mut Vec<u8>,
) -> Result<(), RehearsalFault> {
    let effect = Effect::Push {
        key: Word::borrowed(b"l"),
        end: End::Left,
        items: EffectWords::new(alloc),
    };
    apply(held, effect, out)
}

/// Applies an effect that sets this score.
fn set_score(
    alloc: Global,
    held: &mut Dataset,
    score: i64,
    out: &mut Vec<u8>,
) -> Result<(), RehearsalFault> {
    let mut scores = Scores::new(alloc);
    scores.push(Word::borrowed(b"m"), score)?;
    let effect = Effect::SetScores {
        key: Word::borrowed(b"z"),
        scores,
    };
    apply(held, effect, out)
}

/// Applies an effect that writes from this offset on.
fn set_range(held: &mut Dataset, offset: i64, out: &mut Vec<u8>) -> Result<(), RehearsalFault> {
    let effect = Effect::SetRange {
        key: Word::borrowed(b"k"),
        offset,
        value: Word::borrowed(b"v"),
    };
    apply(held, effect, out)
}

/// Applies an effect that sets the item at this place.
fn set_item(held: &mut Dataset, place: i64, out: &mut Vec<u8>) -> Result<(), RehearsalFault> {
    let effect = Effect::SetItem {
        key: Word::borrowed(b"l"),
        place,
        item: Word::borrowed(b"x"),
    };
    apply(held, effect, out)
}

/// Whether the words of an effect are within the limit and it has a spelling, and what applying it by reference and then moved in
/// answers. The effect is gone before anything is written: an exit behind a `?` would be one more for each kind.
fn apply(held: &mut Dataset, effect: Effect<'_>, out: &mut Vec<u8>) -> Result<(), RehearsalFault> {
    let fits = effect.fits();
    let spelled = effect.has_spelling();
    let lent = held.apply(&effect);
    let given = held.apply_owned(effect);
    tell_whether(out, fits, "fits ", "too long ")?;
    tell_whether(out, spelled, "spelled ", "unspelled ")?;
    tell_applied(lent, out)?;
    tell(out, " ")?;
    tell_applied(given, out)
}

/// Whether an effect was applied. Fails where memory ran out.
fn tell_applied(applied: Result<(), ApplyFault>, out: &mut Vec<u8>) -> Result<(), RehearsalFault> {
    match applied {
        Ok(()) => tell(out, "applied"),
        Err(ApplyFault::Refused) => tell(out, "refused"),
        Err(ApplyFault::Memory) => Err(RehearsalFault::Memory),
    }
}

/// Whether a key is there, by its entry and by its value, and its deadline.
fn tell_entry(
    alloc: Global,
    held: &Dataset,
    step: Step<'_>,
    out: &mut Vec<u8>,
) -> Result<(), RehearsalFault> {
    let bytes = bytes_of(alloc, step.first)?;
    let key = bytes.as_slice();
    tell_whether(out, held.entry(key).is_some(), "entry ", "no entry ")?;
    tell_whether(out, held.value(key).is_some(), "value", "no value")?;
    match held.deadline(key) {
        Some(deadline) => tell_shown(alloc, deadline, out),
        None => tell(out, " no deadline"),
    }
}

/// How many keys there are, whether none is, and each of them.
fn tell_keys(alloc: Global, held: &Dataset, out: &mut Vec<u8>) -> Result<(), RehearsalFault> {
    tell(out, "keys")?;
    tell_shown(alloc, held.len(), out)?;
    tell_whether(out, held.is_empty(), " empty", "")?;
    for key in held.keys() {
        tell_bytes(alloc, key, out)?;
    }
    Ok(())
}

/// A moment and a random word.
fn tell_given(alloc: Global, step: Step<'_>, out: &mut Vec<u8>) -> Result<(), RehearsalFault> {
    match Given::new(number_of(step.first)?, count_of(step.second)?) {
        Some(given) => {
            tell(out, "given")?;
            tell_shown(alloc, given.now(), out)?;
            tell_shown(alloc, given.word(), out)
        }
        None => tell(out, "no moment"),
    }
}
