// Texts of effects at the front of bytes, done to a dataset.
ghost use Rattle.std.specs.Prelude.{ℕ, ◌++◌, List, drop, map};
ghost use Rattle.std.specs.Cow.{cow_slice_items};
ghost use Rattle.mr_resp.specs.Resumed.{AgreesCommand, MayAgree};
ghost use Rattle.mr_groups.specs.Steps.{IsKnownAfter, IsKnownBehind, TriesCommand, TriesFirst, Replays};

use crate::trying::{Tried, try_words};
use mr_data::Dataset;
use mr_resp::{CommandProgress, Scan, next_command_from};
use std::alloc::Global;
use std::borrow::CowSlice;

/// Why no more effects were done.
#[derive(Clone, Copy, Debug, PartialEq, Eq)]
pub enum Halt {
    /// More bytes may make an effect's text of what is left.
    Open,
    /// However it goes on, no effect that can be applied begins what is left.
    Bad,
    /// Memory was lacking for the command text that begins what is left. Nothing of it was done.
    Lack,
    /// An effect that can be applied begins what is left, and memory ran out within it: the dataset is spent.
    Spent,
}

/// What was done at the front of bytes.
#[derive(Clone, Copy)]
pub(crate) enum Step {
    /// The effect whose text is the first so many bytes was done.
    Done(usize),
    /// Nothing: more bytes are wanted.
    Wait,
    /// Nothing, and nothing will be, however the bytes go on.
    Stop,
    /// Nothing, for want of memory.
    Lack,
    /// Memory ran out within an effect.
    Spent,
}

/// How many bytes were done, and why no more.
#[derive(Clone, Copy, Debug)]
pub struct Replayed {
    pub used: usize,
    pub halt: Halt,
}

/// Does the effect of the command text that is the first so many bytes.
fn try_command(
    alloc: Global,
    dataset: &mut Dataset,
    words: Vec<CowSlice<'_, u8>>,
    used: usize,
) -> Step
    ensures { TriesCommand (map cow_slice_items words.entry.items) used dataset.old dataset.new
        result }
{
    match try_words(alloc, words.as_slice(), dataset) {
        Tried::Done => Step::Done(used),
        Tried::Refused => Step::Stop,
        Tried::Lack => Step::Lack,
        Tried::Spent => Step::Spent,
    }
}

/// Does the effect whose text begins the bytes, where one does. What is known of a text that isn't whole is kept.
#[tactic(auto, using(crate::proofs::Commands::tries_front, crate::proofs::Commands::waits, crate::proofs::Commands::stops))]
fn try_first(
    alloc: Global,
    dataset: &mut Dataset,
    progress: &mut CommandProgress,
    bytes: &[u8],
) -> Step
    requires { MayAgree progress.old bytes.now }
    ensures tried { TriesFirst bytes.now dataset.old dataset.new result }
    ensures known { (more : List ℕ) → AgreesCommand progress.new (bytes.now ++ more) }
    ensures after { IsKnownAfter progress.new result }
{
    match next_command_from(alloc, progress, bytes) {
        Err(_) => Step::Lack,
        Ok(Scan::Whole { words, used }) => try_command(alloc, dataset, words, used),
        Ok(Scan::Skip { used: _ }) => unreachable!(),
        Ok(Scan::More) => Step::Wait,
        Ok(Scan::Bad(_)) => Step::Stop,
    }
}

/// Does the effects whose texts begin the bytes, as long as they can be applied. What is known of the first text stands in
/// `progress`, and then what is known of the one that begins what is left: with anything behind it that may be handed in again.
pub fn replay_front(
    alloc: Global,
    dataset: &mut Dataset,
    progress: &mut CommandProgress,
    bytes: &[u8],
) -> Replayed
    requires { MayAgree progress.old bytes.now }
    ensures done { Replays bytes.now result.used dataset.old dataset.new result.halt }
    ensures known { (more : List ℕ) →
        AgreesCommand progress.new (drop result.used bytes.now ++ more) }
    ensures behind { IsKnownBehind progress.new result.halt }
{
    let mut used = 0;
    'texts: loop {
        let step = try_first(alloc, dataset, progress, &bytes[used..]);
        match step {
            Step::Done(more) => used += more,
            Step::Wait => {
                return Replayed {
                    used,
                    halt: Halt::Open,
                };
            }
            Step::Stop => {
                return Replayed {
                    used,
                    halt: Halt::Bad,
                };
            }
            Step::Lack => {
                return Replayed {
                    used,
                    halt: Halt::Lack,
                };
            }
            Step::Spent => {
                return Replayed {
                    used,
                    halt: Halt::Spent,
                };
            }
        }
    }
}
