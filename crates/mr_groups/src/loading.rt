// Datasets made again from the texts of groups.
ghost use Rattle.std.specs.Prelude.{IfOk};
ghost use Rattle.mr_groups.specs.Folding.{LoadsGroups};
ghost use Rattle.mr_groups.specs.Fronts.{EndsAt};

use crate::front::{Rest, apply_front};
use crate::reader::Reader;
use mr_data::Dataset;
use std::alloc::{AllocError, Global};
use std::hash::RandomState;

/// What bytes were read as: a dataset, and the length of the texts that made it.
#[derive(Drop)]
pub struct Loaded {
    pub dataset: Dataset,
    pub used: u64,
}

/// Loads a beginning of the bytes that is known to be the longest that can be done, into a new dataset.
fn load_again(
    alloc: Global,
    seed: RandomState,
    bytes: &[u8],
    used: usize,
) -> Result<Loaded, AllocError>
    requires { EndsAt bytes.now used }
    ensures { IfOk result (λ loaded. LoadsGroups bytes.now loaded.used loaded.dataset) }
{
    let mut dataset = Dataset::new(alloc, seed);
    let mut reader = Reader::new(alloc);
    let applied = apply_front(alloc, &mut dataset, &mut reader, &bytes[..used]);
    let rest = applied.rest?;
    match rest {
        Rest::Open | Rest::Bad => Ok(Loaded {
            dataset,
            used: applied.used as u64,
        }),
        Rest::Torn => unreachable!(),
    }
}

/// The longest beginning of the bytes that is a list of notes and texts of groups, in any order, of which each group can be done as
/// a whole in its turn: the dataset that they make of the empty one, and its length. A note does nothing. Nothing is kept of a
/// group that is there in part, or can be done in part alone: then what stands before it is done once more. The dataset's look-ups
/// go by a hash with this seed.
pub fn load_groups(alloc: Global, seed: RandomState, bytes: &[u8]) -> Result<Loaded, AllocError>
    ensures { IfOk result (λ loaded. LoadsGroups bytes.now loaded.used loaded.dataset) }
{
    let mut dataset = Dataset::new(alloc, seed);
    let mut reader = Reader::new(alloc);
    let applied = apply_front(alloc, &mut dataset, &mut reader, bytes);
    let rest = applied.rest?;
    match rest {
        Rest::Open | Rest::Bad => Ok(Loaded {
            dataset,
            used: applied.used as u64,
        }),
        Rest::Torn => load_again(alloc, seed, bytes, applied.used),
    }
}
