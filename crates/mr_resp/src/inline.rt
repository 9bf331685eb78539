ghost use Rattle.std.specs.Prelude.{ℕ, ◌≡◌, ◌≢◌, List, ◌++◌, IfOk, OnErr, slice_index};
ghost use Rattle.mr_inline.specs.Bytes.{star};
ghost use Rattle.mr_inline.specs.Resumed.{Agrees};
ghost use Rattle.mr_inline.specs.Scans.{BeginsWithLine};
ghost use Rattle.mr_inline.specs.Limits.{line_limit};
ghost use Rattle.mr_resp.specs.Request.{HasInlineFault};
ghost use Rattle.mr_resp.specs.Scans.{ReadsInline, CopiesOnlyQuoted};

use crate::fault::Fault;
use crate::request::Scan;
use mr_inline::{LINE_LIMIT, LineFault, LineProgress, LineScan, next_line_from};
use std::alloc::{AllocError, Global};

/// Reads the line at the front of the input, from where an earlier call with the same front stopped.
pub(crate) fn next_inline_from<'a>(
    alloc: Global,
    progress: &mut LineProgress,
    input: &'a [u8],
) -> Result<Scan<'a>, AllocError>
    requires agrees { Agrees line_limit progress.old input.now }
    requires no_array { slice_index input.now 0 ≢ star }
    ensures found { IfOk result (λ scan. ReadsInline input.now scan) }
    ensures borrowed { IfOk result (λ scan. CopiesOnlyQuoted input.now scan) }
    ensures refused { OnErr result (BeginsWithLine line_limit input.now) }
    ensures more { (more : List ℕ) → Agrees line_limit progress.new (input.now ++ more) }
{
    match next_line_from(alloc, LINE_LIMIT, progress, input)? {
        LineScan::Whole { words, used } => Ok(Scan::Whole { words, used }),
        LineScan::Skip { used } => Ok(Scan::Skip { used }),
        LineScan::More => Ok(Scan::More),
        LineScan::Bad(LineFault::UnbalancedQuotes) => Ok(Scan::Bad(Fault::UnbalancedQuotes)),
        LineScan::Bad(LineFault::TooBig) => Ok(Scan::Bad(Fault::TooBigInline)),
    }
}
