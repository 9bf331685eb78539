// Classes of a pattern.
ghost use Rattle.std.specs.Prelude.{◌≡◌, ◌≤◌, length, MatchOption};
ghost use Rattle.mr_glob.specs.Glob.{class_signs, in_class, in_range, in_ranges, parts_behind_class, parts_of, signs};
ghost use Rattle.mr_glob.specs.GlobPlaces.{Marks};
ghost use Rattle.mr_glob.specs.GlobSteps.{EndsRange, HasMember, IsNoRange};

use super::mask::between;
use super::sign::next_sign;
use std::simd::prelude::*;

/// What comes next in a class.
#[derive(Clone, Copy)]
enum Member<'a> {
    /// The bytes from one end to the other, and what follows them in the class.
    Range { first: u8, last: u8, rest: &'a [u8] },
    /// Nothing, and what follows the class.
    End(&'a [u8]),
}

/// The byte that ends a range whose first byte was read, and what follows it. None where no range begins there.
fn range_end<'a>(class: &'a [u8]) -> Option<(u8, &'a [u8])>
    ensures { MatchOption result (IsNoRange class.now) (λ end.
        EndsRange class.now end.0 end.1.now) }
{
    let (dash, behind) = next_sign(class)?;
    if !dash.is_bare(b'-') {
        return None;
    }
    let (last, rest) = next_sign(behind)?;
    if last.is_bare(b']') {
        return None;
    }
    Some((last.byte(), rest))
}

/// What comes next in an open class. A byte alone is a range from it to itself.
fn next_member<'a>(class: &'a [u8]) -> Member<'a>
    ensures { HasMember class.now result }
{
    let Some((sign, behind)) = next_sign(class) else {
        return Member::End(class);
    };
    if sign.is_bare(b']') {
        return Member::End(behind);
    }
    let first = sign.byte();
    match range_end(behind) {
        Some((last, rest)) => Member::Range { first, last, rest },
        None => Member::Range {
            first,
            last: first,
            rest: behind,
        },
    }
}

/// Whether the byte lies between the two ends of a range, whichever comes first.
fn in_range(byte: u8, first: u8, last: u8) -> bool
    ensures { result ≡ in_range byte (first, last) }
{
    first.min(last) <= byte && byte <= first.max(last)
}

/// Whether the byte is in one of the ranges of an open class, and what follows the class.
fn in_ranges<'a>(class: &'a [u8], byte: u8) -> (bool, &'a [u8])
    ensures holds { result.0 ≡ in_ranges (class_signs (signs class.now)) byte }
    ensures behind { parts_of result.1.now ≡ parts_behind_class (signs class.now) }
    ensures no_longer { length result.1.now ≤ length class.now }
{
    let mut left = class;
    let mut holds = false;
    'members: loop {
        match next_member(left) {
            Member::Range { first, last, rest } => {
                holds = holds || in_range(byte, first, last);
                left = rest;
            }
            Member::End(behind) => return (holds, behind),
        }
    }
}

/// Whether an open class takes the byte, and what follows the class.
pub(super) fn in_class<'a>(class: &'a [u8], byte: u8) -> (bool, &'a [u8])
    ensures holds { result.0 ≡ in_class (class_signs (signs class.now)) byte }
    ensures behind { parts_of result.1.now ≡ parts_behind_class (signs class.now) }
    ensures no_longer { length result.1.now ≤ length class.now }
{
    match next_sign(class) {
        Some((sign, others)) if sign.is_bare(b'^') => {
            let (holds, behind) = in_ranges(others, byte);
            (!holds, behind)
        }
        _ => in_ranges(class, byte),
    }
}

/// Which of these bytes are in one of the ranges of an open class, and what follows the class.
fn ranges_mask<'a>(class: &'a [u8], bytes: u8x64) -> (u64, &'a [u8])
    ensures marks { Marks (in_ranges (class_signs (signs class.now))) bytes result.0 }
    ensures behind { parts_of result.1.now ≡ parts_behind_class (signs class.now) }
    ensures no_longer { length result.1.now ≤ length class.now }
{
    let mut left = class;
    let mut mask = 0;
    'members: loop {
        match next_member(left) {
            Member::Range { first, last, rest } => {
                mask |= between(bytes, first, last);
                left = rest;
            }
            Member::End(behind) => return (mask, behind),
        }
    }
}

/// Which of these bytes an open class takes, and what follows the class.
pub(super) fn class_mask<'a>(class: &'a [u8], bytes: u8x64) -> (u64, &'a [u8])
    ensures marks { Marks (in_class (class_signs (signs class.now))) bytes result.0 }
    ensures behind { parts_of result.1.now ≡ parts_behind_class (signs class.now) }
    ensures no_longer { length result.1.now ≤ length class.now }
{
    match next_sign(class) {
        Some((caret, others)) if caret.is_bare(b'^') => {
            let (mask, behind) = ranges_mask(others, bytes);
            (!mask, behind)
        }
        _ => ranges_mask(class, bytes),
    }
}

/// What follows an open class.
pub(super) fn past_class(class: &[u8]) -> &[u8]
    ensures behind { parts_of result.now ≡ parts_behind_class (signs class.now) }
    ensures no_longer { length result.now ≤ length class.now }
{
    let mut left = class;
    'members: loop {
        match next_member(left) {
            Member::Range { rest, .. } => left = rest,
            Member::End(behind) => return behind,
        }
    }
}
