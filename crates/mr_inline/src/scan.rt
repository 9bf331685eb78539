ghost use Rattle.std.specs.Prelude.{ℕ, ◌≢◌, ◌++◌, ◌⊎◌, List, slice_index, IfOk, OnErr};
ghost use Rattle.mr_inline.specs.Bytes.{star};
ghost use Rattle.mr_inline.specs.Resumed.{Agrees, IsFresh};
ghost use Rattle.mr_inline.specs.Scans.{ReadsLine, BeginsWithLine, IsMore, CopiesOnlyQuoted};

use crate::fault::LineFault;
use crate::measure::{Measured, measure};
use crate::progress::LineProgress;
use crate::words::words_of;
use std::alloc::{AllocError, Global};
use std::borrow::CowSlice;

/// What stands at the front of the input.
#[derive(Drop)]
pub enum LineScan<'a> {
    /// A line, its words and its length with the line feed.
    Whole {
        words: Vec<CowSlice<'a, u8>>,
        used: usize,
    },
    /// A line without words, with its length.
    Skip {
        used: usize,
    },
    /// No whole line yet.
    More,
    /// No continuation of the input begins with a line.
    Bad(LineFault),
}

/// Reads the line at the front of the input, going on from what a call with the same front of the input left in `progress`.
/// At most `limit` bytes may stand before the line feed. The answer is that of `next_line`, but bytes that were read by an
/// earlier call aren't read again.
pub fn next_line_from<'a>(
    alloc: Global,
    limit: usize,
    progress: &mut LineProgress,
    input: &'a [u8],
) -> Result<LineScan<'a>, AllocError>
    requires agrees { Agrees limit progress.old input.now }
    // What begins with `*` is in another form.
    requires no_array { slice_index input.now 0 ≢ star }
    ensures found { IfOk result (λ scan. ReadsLine limit input.now scan) }
    ensures borrowed { IfOk result (λ scan. CopiesOnlyQuoted limit input.now scan) }
    // Only the words of a whole line take memory.
    ensures refused { OnErr result (BeginsWithLine limit input.now) }
    // Where more is wanted or memory ran out, the next call may have the input with anything behind it. Else nothing is kept.
    ensures more { (more : List ℕ) → Agrees limit progress.new (input.now ++ more) }
    ensures spent { IfOk result (λ scan. IsMore scan ⊎ IsFresh progress.new) }
{
    match measure(limit, input, progress) {
        Measured::Whole(used) => {
            let words = words_of(alloc, &input[..used - 1])?;
            *progress = LineProgress::new();
            if words.is_empty() {
                Ok(LineScan::Skip { used })
            } else {
                Ok(LineScan::Whole { words, used })
            }
        }
        Measured::More => Ok(LineScan::More),
        Measured::Bad(fault) => {
            *progress = LineProgress::new();
            Ok(LineScan::Bad(fault))
        }
    }
}

/// Reads the line at the front of the input. At most `limit` bytes may stand before its line feed.
pub fn next_line<'a>(
    alloc: Global,
    limit: usize,
    input: &'a [u8],
) -> Result<LineScan<'a>, AllocError>
    // What begins with `*` is in another form.
    requires { slice_index input.now 0 ≢ star }
    ensures found { IfOk result (λ scan. ReadsLine limit input.now scan) }
    ensures borrowed { IfOk result (λ scan. CopiesOnlyQuoted limit input.now scan) }
    ensures refused { OnErr result (BeginsWithLine limit input.now) }
{
    let mut progress = LineProgress::new();
    next_line_from(alloc, limit, &mut progress, input)
}
