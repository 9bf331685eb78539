ghost use Rattle.std.specs.Prelude.{◌≢◌, ◌<◌, ◌≤◌, length, drop, IfOk, OnErr, slice_index};
ghost use Rattle.std.specs.List.{AllZip};
ghost use Rattle.std.specs.Cow.{cow_slice_items, IsBorrowedSlice};
ghost use Rattle.mr_inline.specs.Parts.{IsCut, IsPlainUpTo, IsReadAt};
ghost use Rattle.mr_inline.specs.Places.{kind_of, starts_from, IsBare};
ghost use Rattle.mr_inline.specs.declared.place.Kind.TheVariants.{Separator};
ghost use Rattle.mr_inline.specs.declared.place.Place.TheVariants.{Between};

use crate::place::Kind;
use crate::quoted::{push_double, push_single};
use std::alloc::{AllocError, Global};
use std::borrow::CowSlice;

/// A word, and where it ends.
#[derive(Drop)]
struct Cut<'a> {
    word: CowSlice<'a, u8>,
    end: usize,
}

/// Where the plain bytes from `start` on end.
fn plain_end(line: &[u8], start: usize) -> usize
    requires { start ≤ length line.now }
    ensures { IsPlainUpTo line.now start result }
{
    let mut at = start;
    while at < line.len() {
        match Kind::of(line[at]) {
            Kind::Separator | Kind::DoubleQuote | Kind::SingleQuote => return at,
            Kind::LineFeed | Kind::Backslash | Kind::Other => at += 1,
        }
    }
    at
}

/// The word that begins at `start`, borrowed unless it has quotes.
fn word_at<'a>(alloc: Global, line: &'a [u8], start: usize) -> Result<Cut<'a>, AllocError>
    requires inside { start < length line.now }
    requires begins { kind_of (slice_index line.now start) ≢ Separator }
    ensures word { IfOk result (λ cut. IsCut line.now start cut.end (cow_slice_items cut.word)) }
    ensures borrowed { IfOk result (λ cut. IsBare (drop start line.now) →
        IsBorrowedSlice cut.word) }
{
    let end = plain_end(line, start);
    let plain = &line[start..end];
    if end == line.len() {
        return Ok(Cut {
            word: CowSlice::Borrowed(plain),
            end,
        });
    }
    match Kind::of(line[end]) {
        Kind::DoubleQuote => {
            let mut word = Vec::from_slice(alloc, plain)?;
            let end = push_double(line, end + 1, &mut word)?;
            Ok(Cut {
                word: CowSlice::Owned(word),
                end,
            })
        }
        Kind::SingleQuote => {
            let mut word = Vec::from_slice(alloc, plain)?;
            let end = push_single(line, end + 1, &mut word)?;
            Ok(Cut {
                word: CowSlice::Owned(word),
                end,
            })
        }
        _ => Ok(Cut {
            word: CowSlice::Borrowed(plain),
            end,
        }),
    }
}

/// The words of a line, without its line feed.
pub(crate) fn words_of<'a>(
    alloc: Global,
    line: &'a [u8],
) -> Result<Vec<CowSlice<'a, u8>>, AllocError>
    ensures words { IfOk result (λ words.
        AllZip IsReadAt (starts_from Between line.now) words.items) }
    ensures refused { OnErr result (0 < length (starts_from Between line.now)) }
{
    let mut words = Vec::new(alloc);
    let mut at = 0;
    while at < line.len() {
        if let Kind::Separator = Kind::of(line[at]) {
            at += 1;
        } else {
            let cut = word_at(alloc, line, at)?;
            words.push(cut.word)?;
            at = cut.end;
        }
    }
    Ok(words)
}
