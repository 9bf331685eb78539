//! Groups of effects: what stands at the front of bytes, and what groups make of a dataset.
use crate::kind::Kind;
use crate::step::Step;
use mr_data::Dataset;
use mr_groups::{
    GroupFault, Loaded, Next, apply_group, apply_group_owned, encode_group, load_groups, next_group,
};
use rehearse_shared::{RehearsalFault, bytes_of, tell, tell_bytes, tell_shown};
use std::alloc::Global;
use std::hash::RandomState;

/// A dataset to which groups are done.
#[derive(Drop)]
pub struct Groups {
    seed: RandomState,
    dataset: Dataset,
}

impl Groups {
    /// An empty dataset.
    pub fn new(alloc: Global, seed: RandomState) -> Groups {
        Groups {
            seed,
            dataset: Dataset::new(alloc, seed),
        }
    }
}

impl Kind for Groups {
    fn make(
        &mut self,
        alloc: Global,
        step: Step<'_>,
        out: &mut Vec<u8>,
    ) -> Result<(), RehearsalFault> {
        match step.name {
            "read" => tell_front(alloc, step, out),
            "write" => tell_text(alloc, step, out),
            "apply" => apply(alloc, &mut self.dataset, step, out),
            "move" => move_in(alloc, &mut self.dataset, step, out),
            "load" => load(alloc, self.seed, step, out),
            "shows" => tell_commands(alloc, &self.dataset, out),
            _ => Err(RehearsalFault::Line),
        }
    }
}

/// What stands at the front of the bytes.
fn tell_front(alloc: Global, step: Step<'_>, out: &mut Vec<u8>) -> Result<(), RehearsalFault> {
    let bytes = bytes_of(alloc, step.first)?;
    match next_group(alloc, bytes.as_slice())? {
        Next::Whole { effects, used } => {
            tell(out, "whole")?;
            tell_shown(alloc, effects.len(), out)?;
            tell_shown(alloc, used, out)
        }
        Next::More => tell(out, "more"),
        Next::Bad => tell(out, "bad"),
    }
}

/// The text of the group whose text begins the bytes.
fn tell_text(alloc: Global, step: Step<'_>, out: &mut Vec<u8>) -> Result<(), RehearsalFault> {
    let bytes = bytes_of(alloc, step.first)?;
    let Next::Whole { effects, used: _ } = next_group(alloc, bytes.as_slice())? else {
        return Err(RehearsalFault::Line);
    };
    let mut text = Vec::new(alloc);
    encode_group(effects.as_slice(), &mut text)?;
    tell(out, "text")?;
    tell_bytes(alloc, text.as_slice(), out)
}

/// Does the group whose text begins the bytes.
fn apply(
    alloc: Global,
    dataset: &mut Dataset,
    step: Step<'_>,
    out: &mut Vec<u8>,
) -> Result<(), RehearsalFault> {
    let bytes = bytes_of(alloc, step.first)?;
    let Next::Whole { effects, used: _ } = next_group(alloc, bytes.as_slice())? else {
        return Err(RehearsalFault::Line);
    };
    tell_applied(apply_group(dataset, effects.as_slice()), out)
}

/// Does the group whose text begins the bytes, and moves its words in.
fn move_in(
    alloc: Global,
    dataset: &mut Dataset,
    step: Step<'_>,
    out: &mut Vec<u8>,
) -> Result<(), RehearsalFault> {
    let bytes = bytes_of(alloc, step.first)?;
    let Next::Whole { effects, used: _ } = next_group(alloc, bytes.as_slice())? else {
        return Err(RehearsalFault::Line);
    };
    tell_applied(apply_group_owned(dataset, effects), out)
}

/// Whether a group was done.
fn tell_applied(applied: Result<(), GroupFault>, out: &mut Vec<u8>) -> Result<(), RehearsalFault> {
    match applied {
        Ok(()) => tell(out, "applied"),
        Err(GroupFault::Refused) => tell(out, "refused"),
        Err(GroupFault::Torn) => tell(out, "torn"),
        Err(GroupFault::Memory) => Err(RehearsalFault::Memory),
    }
}

/// How many bytes of a file are loaded, and the commands that make the dataset again.
fn load(
    alloc: Global,
    seed: RandomState,
    step: Step<'_>,
    out: &mut Vec<u8>,
) -> Result<(), RehearsalFault> {
    let bytes = bytes_of(alloc, step.first)?;
    let Loaded { dataset, used } = load_groups(alloc, seed, bytes.as_slice())?;
    tell(out, "loads")?;
    tell_shown(alloc, used, out)?;
    tell(out, " ")?;
    tell_commands(alloc, &dataset, out)
}

/// The commands that make the dataset again.
fn tell_commands(
    alloc: Global,
    dataset: &Dataset,
    out: &mut Vec<u8>,
) -> Result<(), RehearsalFault> {
    tell(out, "commands")?;
    tell_bytes(alloc, dataset.rebuild(alloc)?.as_slice(), out)
}
