// What single arguments say.
ghost use Rattle.std.specs.Prelude.{◌≡◌};
ghost use Rattle.std.specs.Cow.{cow_slice_items};
ghost use Rattle.std.specs.Str.{bytes_eq};
ghost use Rattle.mr_arguments.specs.Names.{lowered};
ghost use Rattle.mr_cmd_list.specs.Parts.{end_of, end_text, side_of, side_text};

use mr_arguments::AskFault;
use mr_bytes::{End, Side};
use std::borrow::CowSlice;

/// `LEFT` or `RIGHT`, in any case.
pub(crate) fn end_of(word: &CowSlice<'_, u8>) -> Result<End, AskFault>
    ensures { result ≡ end_of (cow_slice_items word.now) }
{
    if is_end(word, End::Left) {
        Ok(End::Left)
    } else if is_end(word, End::Right) {
        Ok(End::Right)
    } else {
        Err(AskFault::Syntax)
    }
}

/// Whether a word names this end, in any case.
fn is_end(word: &CowSlice<'_, u8>, end: End) -> bool
    ensures { result ≡ bytes_eq (lowered (cow_slice_items word.now)) (end_text end) }
{
    match end {
        End::Left => word.as_slice().eq_ignore_ascii_case(b"left"),
        End::Right => word.as_slice().eq_ignore_ascii_case(b"right"),
    }
}

/// `BEFORE` or `AFTER`, in any case.
pub(crate) fn side_of(word: &CowSlice<'_, u8>) -> Result<Side, AskFault>
    ensures { result ≡ side_of (cow_slice_items word.now) }
{
    if is_side(word, Side::Before) {
        Ok(Side::Before)
    } else if is_side(word, Side::After) {
        Ok(Side::After)
    } else {
        Err(AskFault::Syntax)
    }
}

/// Whether a word names this side, in any case.
fn is_side(word: &CowSlice<'_, u8>, side: Side) -> bool
    ensures { result ≡ bytes_eq (lowered (cow_slice_items word.now)) (side_text side) }
{
    match side {
        Side::Before => word.as_slice().eq_ignore_ascii_case(b"before"),
        Side::After => word.as_slice().eq_ignore_ascii_case(b"after"),
    }
}
