ghost use Rattle.std.specs.Prelude.{ℕ, ◌≡◌, ◌<◌, ◌⊎◌, ◌↔◌, ◌++◌, List, IfOk, OnErr, IsTrue, length, slice_index};
ghost use Rattle.mr_resp.specs.Command.{ReadsCommand, BeginsWithCommand};
ghost use Rattle.mr_resp.specs.Resumed.{AgreesCommand, KnowsNothing, MayAgree};
ghost use Rattle.mr_resp.specs.Scans.{CopiesNothing, IsMore};
ghost use Rattle.mr_resp.specs.Usual.{commands};

use crate::array::next_array_from;
use crate::fault::Fault;
use crate::limits::Limits;
use crate::progress::CommandProgress;
use crate::request::Scan;
use std::alloc::{AllocError, Global};

/// Whether a count of 0 or less is begun.
fn begins_empty(input: &[u8]) -> bool
    ensures { IsTrue result ↔ ((1 < length input.now) × (slice_index input.now 0 ≡ 42)
        × ((slice_index input.now 1 ≡ 48) ⊎ (slice_index input.now 1 ≡ 45))) }
{
    input.len() > 1 && input[0] == b'*' && (input[1] == b'0' || input[1] == b'-')
}

/// Reads the command text at the front of the input: a request in array form of at least one word, with a server's limits on its
/// words and none on the whole. There is no empty one, so the answer is never `Skip`.
pub fn next_command<'a>(alloc: Global, input: &'a [u8]) -> Result<Scan<'a>, AllocError>
    ensures found { IfOk result (λ scan. ReadsCommand commands input.now scan) }
    ensures borrowed { IfOk result (λ scan. CopiesNothing scan) }
    // Only the words of a whole command text take memory.
    ensures refused { OnErr result (BeginsWithCommand commands input.now) }
{
    next_command_from(alloc, &mut CommandProgress::new(), input)
}

/// Reads the command text at the front of the input, as `next_command` does, from where an earlier call stopped: what that call
/// found stands in `progress`, and the input begins as it did then. It may be shorter, and is gone over anew where it ends before
/// that place.
///
/// Where more is wanted or memory ran out, the next call may have this input with anything behind it. Else the front is spent.
pub fn next_command_from<'a>(
    alloc: Global,
    progress: &mut CommandProgress,
    input: &'a [u8],
) -> Result<Scan<'a>, AllocError>
    requires { MayAgree progress.old input.now }
    ensures found { IfOk result (λ scan. ReadsCommand commands input.now scan) }
    ensures borrowed { IfOk result (λ scan. CopiesNothing scan) }
    ensures refused { OnErr result (BeginsWithCommand commands input.now) }
    ensures more { (more : List ℕ) → AgreesCommand progress.new (input.now ++ more) }
    ensures spent { IfOk result (λ scan. IsMore scan ⊎ KnowsNothing progress.new) }
{
    progress.array = progress.array.within(input.len());
    let scan = if begins_empty(input) {
        Scan::Bad(Fault::MultibulkLength)
    } else {
        next_array_from(alloc, &Limits::commands(), &mut progress.array, input)?
    };
    if let Scan::More = scan {
        return Ok(Scan::More);
    }
    *progress = CommandProgress::new();
    Ok(scan)
}
