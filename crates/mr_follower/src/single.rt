// The effect that is a group of its own at the front of the stream.
ghost use Rattle.std.specs.Prelude.{ℕ, ◌≡◌, ◌++◌, List, map, take};
ghost use Rattle.std.specs.Cow.{cow_slice_items};
ghost use Rattle.mr_resp.specs.Command.{BeginsWithCommand};
ghost use Rattle.mr_resp.specs.Resumed.{AgreesCommand, MayAgree};
ghost use Rattle.mr_resp.specs.Usual.{commands};
ghost use Rattle.mr_data.specs.Meaning.{apply};
ghost use Rattle.mr_follower.specs.Stream.{AppliesEffect, AppliesSingle, AppliesText, AppliesWords, lack_of, told_of};

use crate::FollowFault;
use mr_data::{ApplyFault, Dataset, Effect, decode};
use mr_groups::begins_frame;
use mr_resp::{CommandProgress, Scan, next_command_from, short_command};
use std::alloc::Global;
use std::borrow::CowSlice;

/// What was made of the front of the stream as an effect that is a group of its own.
#[derive(Clone, Copy)]
pub(crate) enum Single {
    /// All that there is to do was done.
    Told(Result<Option<usize>, FollowFault>),
    /// Nothing: its command text isn't whole.
    Open,
    /// Nothing: a frame begins there.
    Framed,
}

/// What is told where memory is lacking before an effect: that, or that the effect can't be applied.
pub(crate) fn lack_of(held: &Dataset, effect: &Effect<'_>) -> FollowFault
    ensures { result ≡ lack_of (apply effect.now held.now) }
{
    if held.applies(effect) {
        FollowFault::Memory
    } else {
        FollowFault::Undecodable
    }
}

/// Why an effect wasn't applied, as a follower tells it.
fn told_of(fault: ApplyFault) -> FollowFault
    ensures { result ≡ told_of fault }
{
    match fault {
        ApplyFault::Refused => FollowFault::Undecodable,
        ApplyFault::Memory => FollowFault::Spent,
    }
}

/// Applies an effect, and puts its text out. Answers how many bytes it has.
fn apply_effect(
    text: &[u8],
    effect: Effect<'_>,
    held: &mut Dataset,
    out: &mut Vec<u8>,
) -> Result<Option<usize>, FollowFault>
    ensures { AppliesEffect text.now effect.entry held.old result held.new out.old.items
        out.new.items }
{
    let before = out.len();
    if out.extend_from_slice(text).is_err() {
        return Err(lack_of(held, &effect));
    }
    match held.apply_owned(effect) {
        Ok(()) => Ok(Some(text.len())),
        Err(fault) => {
            out.truncate(before);
            Err(told_of(fault))
        }
    }
}

/// Applies the effect with these words, and puts its text out. Answers how many bytes it has.
fn apply_text(
    alloc: Global,
    text: &[u8],
    words: &[CowSlice<'_, u8>],
    held: &mut Dataset,
    out: &mut Vec<u8>,
) -> Result<Option<usize>, FollowFault>
    ensures { AppliesText text.now (map cow_slice_items words.now) held.old result held.new
        out.old.items out.new.items }
{
    match decode(alloc, words) {
        Err(_) => Err(FollowFault::Memory),
        Ok(None) => Err(FollowFault::Undecodable),
        Ok(Some(effect)) => apply_effect(text, effect, held, out),
    }
}

/// Applies the effect with the words of the command text that is the first so many bytes, unless they begin a frame.
fn apply_words(
    alloc: Global,
    text: &[u8],
    words: &[CowSlice<'_, u8>],
    held: &mut Dataset,
    out: &mut Vec<u8>,
) -> Single
    ensures { AppliesWords text.now (map cow_slice_items words.now) held.old result held.new
        out.old.items out.new.items }
{
    if begins_frame(words) {
        return Single::Framed;
    }
    Single::Told(apply_text(alloc, text, words, held, out))
}

/// Applies the effect of the command text that begins the stream where memory is lacking for a list of its words: they may be few,
/// and then take none.
fn apply_short(alloc: Global, front: &[u8], held: &mut Dataset, out: &mut Vec<u8>) -> Single
    requires { BeginsWithCommand commands front.now }
    ensures { (u : List ℕ) (room : ℕ) → front.now ≡ take room u
        → AppliesSingle u room held.old result held.new out.old.items out.new.items }
{
    let Some(short) = short_command(front) else {
        return Single::Told(Err(FollowFault::Memory));
    };
    let padded = short.words.padded();
    let words = &padded[..];
    apply_words(
        alloc,
        &front[..short.used],
        &words[..short.words.len()],
        held,
        out,
    )
}

/// Applies the effect that is a group of its own, as `stream::apply_front` does, from where its words stand at the front of the
/// stream. Of its command text this is known.
pub(crate) fn apply_single(
    alloc: Global,
    progress: &mut CommandProgress,
    front: &[u8],
    held: &mut Dataset,
    out: &mut Vec<u8>,
) -> Single
    requires { MayAgree progress.old front.now }
    ensures applied { (u : List ℕ) (room : ℕ) → front.now ≡ take room u
        → AppliesSingle u room held.old result held.new out.old.items out.new.items }
    ensures known { (more : List ℕ) → AgreesCommand progress.new (front.now ++ more) }
{
    match next_command_from(alloc, progress, front) {
        Err(_) => apply_short(alloc, front, held, out),
        Ok(Scan::More) => Single::Open,
        Ok(Scan::Bad(_)) => Single::Told(Err(FollowFault::Undecodable)),
        Ok(Scan::Skip { used: _ }) => unreachable!(),
        Ok(Scan::Whole { words, used }) => {
            apply_words(alloc, &front[..used], words.as_slice(), held, out)
        }
    }
}
