// The command text at the front of bytes, as a part of a group's text.
ghost use Rattle.std.specs.Prelude.{ℕ, List, ◌≡◌, ◌↔◌, true, ◌++◌, ◌∷◌, [], IfOk, OnErr, OnOk, length, map};
ghost use Rattle.std.specs.Cow.{cow_slice_items};
ghost use Rattle.mr_resp.specs.Command.{BeginsWithCommand};
ghost use Rattle.mr_resp.specs.Resumed.{AgreesCommand, MayAgree};
ghost use Rattle.mr_resp.specs.Usual.{commands};
ghost use Rattle.mr_groups.specs.Groups.{can_join};
ghost use Rattle.mr_groups.specs.Parts.{IsKnownAfter, ReadsEffect, ReadsPart, ReadsWords, is_only, multi_words};

use crate::owning::owned_effect;
use mr_data::{Effect, decode};
use mr_resp::{CommandProgress, Scan, next_command_from};
use std::alloc::{AllocError, Global};
use std::borrow::CowSlice;
use std::marker::Model;
use std::mem::replace;

/// The effects that were read so far, which own their words, seen as a list.
pub(crate) struct Gathered {
    effects: Vec<Effect<'static>>,
}

// By hand, so that it is one call wherever the effects go.
impl Drop for Gathered {
    fn drop(self) {
        let Gathered { effects: _ } = self;
    }
}

impl Model for Gathered {
    ghost use Rattle.std.specs.Prelude.{List};
    ghost use Rattle.mr_effect.specs.declared.effect.Effect.{Effect as Item};

    ghost Value = { List Item };

    ghost view = { λ a. a.effects.items };
}

impl Gathered {
    /// No effect. It takes no memory.
    pub(crate) fn new(alloc: Global) -> Gathered
        ensures { result ≡ [] }
    {
        Gathered {
            effects: Vec::new(alloc),
        }
    }

    /// Puts the same effect with words of its own behind the others.
    fn push(&mut self, alloc: Global, effect: &Effect<'_>) -> Result<(), AllocError>
        ensures ok { OnOk result (self.new ≡ self.old ++ effect.now ∷ []) }
        ensures err { OnErr result (self.new ≡ self.old) }
    {
        self.effects.push(owned_effect(alloc, effect)?)?;
        Ok(())
    }

    /// How many there are.
    pub(crate) fn len(&self) -> usize
        ensures { result ≡ length self.now }
    {
        self.effects.len()
    }

    /// Lets them go.
    pub(crate) fn clear(&mut self)
        ensures { self.new ≡ [] }
    {
        self.effects.clear();
    }

    /// Takes them out.
    pub(crate) fn take(&mut self, alloc: Global) -> Vec<Effect<'static>>
        ensures taken { result.items ≡ self.old }
        ensures left { self.new ≡ [] }
    {
        replace(&mut self.effects, Vec::new(alloc))
    }

    /// The vector of the effects.
    pub(crate) fn into_vec(self) -> Vec<Effect<'static>>
        ensures { result.items ≡ self }
    {
        let Gathered { effects } = self;
        effects
    }
}

/// What a command text is in a group's text.
#[derive(Clone, Copy)]
pub(crate) enum Part {
    /// The first so many bytes are the text that begins a frame.
    Begin(usize),
    /// The first so many bytes are the text that ends a frame.
    End(usize),
    /// The first so many bytes are an effect's text, and whether it can stand beside others.
    Effect(usize, bool),
    /// No command text is whole, and more bytes may make one.
    More,
    /// A command text that is none of these is there, or none will come, however the bytes go on.
    Bad,
}

/// Whether an effect can stand beside others in a group.
fn can_join(effect: &Effect<'_>) -> bool
    ensures { result ≡ can_join effect.now }
{
    !matches!(effect, Effect::Ping)
}

/// Whether there is one word, and it is this one.
fn is_only(words: &[CowSlice<'_, u8>], name: &[u8]) -> bool
    ensures { result ≡ is_only (map cow_slice_items words.now) name.now }
{
    match words {
        [word] => word.as_slice() == name,
        _ => false,
    }
}

/// Whether these are the words of the text that begins a frame.
pub fn begins_frame(words: &[CowSlice<'_, u8>]) -> bool
    ensures { (result ≡ true) ↔ (map cow_slice_items words.now ≡ multi_words) }
{
    is_only(words, b"MULTI")
}

/// Puts the same effect, whose text has so many bytes, behind the others.
fn take_effect(
    alloc: Global,
    effect: Effect<'_>,
    used: usize,
    effects: &mut Gathered,
) -> Result<Part, AllocError>
    ensures ok { IfOk result (λ part. (part ≡ Part.Effect used (can_join effect.entry)) ×
        (effects.new ≡ effects.old ++ effect.entry ∷ [])) }
    ensures err { OnErr result (effects.new ≡ effects.old) }
{
    let joins = can_join(&effect);
    let put = effects.push(alloc, &effect);
    drop(effect);
    match put {
        Ok(()) => Ok(Part::Effect(used, joins)),
        Err(e) => Err(e),
    }
}

/// Puts the effect that these words spell behind the others.
fn take_words(
    alloc: Global,
    words: &[CowSlice<'_, u8>],
    used: usize,
    effects: &mut Gathered,
) -> Result<Part, AllocError>
    ensures ok { IfOk result (λ part.
        ReadsEffect (map cow_slice_items words.now) used effects.old part effects.new) }
    ensures err { OnErr result (effects.new ≡ effects.old) }
{
    match decode(alloc, words) {
        Err(e) => Err(e),
        Ok(None) => Ok(Part::Bad),
        Ok(Some(effect)) => take_effect(alloc, effect, used, effects),
    }
}

/// What the command text of these words, which has so many bytes, is in a group's text. An effect is put behind the others.
fn part_of(
    alloc: Global,
    words: &[CowSlice<'_, u8>],
    used: usize,
    effects: &mut Gathered,
) -> Result<Part, AllocError>
    ensures ok { IfOk result (λ part.
        ReadsWords (map cow_slice_items words.now) used effects.old part effects.new) }
    ensures err { OnErr result (effects.new ≡ effects.old) }
{
    if is_only(words, b"MULTI") {
        return Ok(Part::Begin(used));
    }
    if is_only(words, b"EXEC") {
        return Ok(Part::End(used));
    }
    let part = take_words(alloc, words, used, effects)?;
    Ok(part)
}

/// Reads the command text at the front of the bytes, from where an earlier call stopped. An effect is put behind the others.
pub(crate) fn next_part(
    alloc: Global,
    progress: &mut CommandProgress,
    bytes: &[u8],
    effects: &mut Gathered,
) -> Result<Part, AllocError>
    requires { MayAgree progress.old bytes.now }
    ensures found { IfOk result (λ part. ReadsPart bytes.now effects.old part effects.new) }
    ensures refused { OnErr result (BeginsWithCommand commands bytes.now) }
    ensures kept { OnErr result (effects.new ≡ effects.old) }
    ensures known { (more : List ℕ) → AgreesCommand progress.new (bytes.now ++ more) }
    ensures after { IfOk result (λ part. IsKnownAfter progress.new part) }
{
    match next_command_from(alloc, progress, bytes) {
        Err(e) => Err(e),
        Ok(Scan::Whole { words, used }) => part_of(alloc, words.as_slice(), used, effects),
        Ok(Scan::Skip { used: _ }) => unreachable!(),
        Ok(Scan::More) => Ok(Part::More),
        Ok(Scan::Bad(_)) => Ok(Part::Bad),
    }
}
