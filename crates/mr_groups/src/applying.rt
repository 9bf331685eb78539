// Groups on a dataset.
ghost use Rattle.std.specs.Prelude.{◌≡◌};
ghost use Rattle.mr_groups.specs.Groups.{IsGroup};
ghost use Rattle.mr_groups.specs.Folding.{AppliesGroup, fault_of};

use mr_data::{ApplyFault, Dataset, Effect};
use thiserror::Error;

/// Why a group wasn't done as a whole.
#[derive(Clone, Copy, Debug, PartialEq, Eq, Error)]
pub enum GroupFault {
    /// The first effect is undefined at this dataset, which is unchanged.
    #[error("the group does not apply")]
    Refused,
    /// Memory ran out. The dataset is spent: it is empty.
    #[error("out of memory")]
    Memory,
    /// A later effect is undefined. The dataset is spent: it is that after the effects before it.
    #[error("the group does not apply as a whole")]
    Torn,
}

/// Why a group wasn't done, if an effect wasn't, the first or a later one.
fn fault_of(fault: ApplyFault, is_first: bool) -> GroupFault
    ensures { result ≡ fault_of fault is_first }
{
    match fault {
        ApplyFault::Memory => GroupFault::Memory,
        ApplyFault::Refused => {
            if is_first {
                GroupFault::Refused
            } else {
                GroupFault::Torn
            }
        }
    }
}

/// Does a group: all its effects, or none where the first is undefined. Their words are copied. Where a later one is undefined or
/// memory runs out, the dataset is of no use.
pub fn apply_group(dataset: &mut Dataset, effects: &[Effect<'_>]) -> Result<(), GroupFault>
    requires { IsGroup effects.now }
    ensures { AppliesGroup effects.now dataset.old result dataset.new }
{
    let mut is_first = true;
    for effect in effects {
        match dataset.apply(effect) {
            Ok(()) => is_first = false,
            Err(fault) => return Err(fault_of(fault, is_first)),
        }
    }
    Ok(())
}

/// Does a group as `apply_group` does, and moves into the dataset the words that own their memory, but for members of sorted
/// sets, which are copied.
pub fn apply_group_owned(dataset: &mut Dataset, effects: Vec<Effect<'_>>) -> Result<(), GroupFault>
    requires { IsGroup effects.items }
    ensures { AppliesGroup effects.entry.items dataset.old result dataset.new }
{
    let mut is_first = true;
    for effect in effects {
        match dataset.apply_owned(effect) {
            Ok(()) => is_first = false,
            Err(fault) => return Err(fault_of(fault, is_first)),
        }
    }
    Ok(())
}
