ghost use Rattle.std.specs.Prelude.{ℕ, List, ◌++◌, All, IfOk, OnErr, map, take};
ghost use Rattle.std.specs.Cow.{cow_slice_items, IsBorrowedSlice};
ghost use Rattle.mr_resp.specs.Array.{IsArray};
ghost use Rattle.mr_resp.specs.Parts.{IsMeasured};
ghost use Rattle.mr_resp.specs.Resumed.{AgreesArray};
ghost use Rattle.mr_resp.specs.Scans.{ReadsArray, BeginsWithArray, CopiesNothing};

use crate::limits::Limits;
use crate::quick::whole_request;
use crate::request::Scan;
use crate::scan::{ArrayProgress, Measured, measure};
use crate::word::{Piece, word_at};
use std::alloc::{AllocError, Global};
use std::borrow::CowSlice;

/// The words of a request that was measured.
fn words_of<'a>(
    alloc: Global,
    limits: &Limits,
    input: &'a [u8],
    first: usize,
    count: usize,
) -> Result<Vec<CowSlice<'a, u8>>, AllocError>
    requires { (used : ℕ) × IsMeasured limits.now input.now count first used }
    ensures words { IfOk result (λ v. (used : ℕ) →
        IsMeasured limits.now input.now count first used
        → IsArray limits.now (take used input.now) (map cow_slice_items v.items)) }
    ensures borrowed { IfOk result (λ v. All IsBorrowedSlice v.items) }
{
    let mut words = Vec::with_capacity(alloc, count)?;
    let mut at = first;
    for _ in 0..count {
        match word_at(input, at, limits.word, limits.text) {
            Piece::Word { start, end } => {
                words.push(CowSlice::Borrowed(&input[start..end]))?;
                at = end + 2;
            }
            Piece::More | Piece::Bad(_) => unreachable!(),
        }
    }
    Ok(words)
}

/// Reads the request in array form at the front of the input, from where an earlier call with the same front stopped.
pub(crate) fn next_array_from<'a>(
    alloc: Global,
    limits: &Limits,
    progress: &mut ArrayProgress,
    input: &'a [u8],
) -> Result<Scan<'a>, AllocError>
    requires { AgreesArray limits.now progress.old input.now }
    ensures found { IfOk result (λ scan. ReadsArray limits.now input.now scan) }
    ensures borrowed { IfOk result (λ scan. CopiesNothing scan) }
    ensures refused { OnErr result (BeginsWithArray limits.now input.now) }
    ensures more { (more : List ℕ) → AgreesArray limits.now progress.new (input.now ++ more) }
{
    if progress.knows_nothing()
        && let Some(whole) = whole_request(alloc, limits, input)
    {
        return Ok(Scan::Whole {
            words: whole.words,
            used: whole.used,
        });
    }
    match measure(limits, input, progress) {
        Measured::Whole { count, first, used } => {
            let words = words_of(alloc, limits, input, first, count)?;
            Ok(Scan::Whole { words, used })
        }
        Measured::Skip { used } => Ok(Scan::Skip { used }),
        Measured::More => Ok(Scan::More),
        Measured::Bad(fault) => Ok(Scan::Bad(fault)),
    }
}
