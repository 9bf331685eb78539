// At which places of a text a pattern may begin to match.
ghost use Rattle.std.specs.Prelude.{◌≡◌, ◌≤◌, length, false, IfSome, MatchOption};
ghost use Rattle.mr_glob.specs.Glob.{parts_of, set_at, signs};
ghost use Rattle.mr_glob.specs.GlobSteps.{parts_past, somewhere};
ghost use Rattle.mr_glob.specs.GlobPlaces.{BeginsPlain, HasPlaces, Marks, Measures, Skips};

use super::class::{class_mask, past_class};
use super::mask::{WINDOW, equal_to, front, lowest};
use super::sign::{Sign, next_sign};
use memchr::memmem;
use std::simd::prelude::*;

/// The parts of a pattern before its first `*`.
#[derive(Clone, Copy)]
struct Segment {
    /// How many there are, each of which takes one byte.
    len: usize,
    /// Whether the pattern has no `*`.
    is_last: bool,
}

/// What follows the part for one byte that the sign begins.
fn past_part(sign: Sign, behind: &[u8]) -> &[u8]
    ensures past { parts_of result.now ≡ parts_past sign (signs behind.now) }
    ensures no_longer { length result.now ≤ length behind.now }
{
    if sign.is_bare(b'[') {
        past_class(behind)
    } else {
        behind
    }
}

/// How many parts come before the first `*`.
fn first_segment(pattern: &[u8]) -> Segment
    ensures { Measures pattern.now result }
{
    let mut left = pattern;
    let mut len = 0;
    while let Some((sign, behind)) = next_sign(left) {
        if sign.is_bare(b'*') {
            return Segment {
                len,
                is_last: false,
            };
        }
        left = past_part(sign, behind);
        len += 1;
    }
    Segment { len, is_last: true }
}

/// What the pattern has before its first `*`, where each byte of that stands for itself.
fn plain_segment(pattern: &[u8]) -> Option<&[u8]>
    ensures { IfSome result (λ bytes. BeginsPlain pattern.now bytes.now) }
{
    for place in 0..pattern.len() {
        match pattern[place] {
            b'*' => return Some(&pattern[..place]),
            b'?' | b'[' | b'\\' => return None,
            _ => {}
        }
    }
    None
}

/// Which of these bytes the part for one byte takes that the sign begins, and what follows the part.
#[inline(always)]
fn takers<'a>(sign: Sign, behind: &'a [u8], bytes: u8x64) -> (u64, &'a [u8])
    ensures marks { Marks (set_at sign (signs behind.now)) bytes result.0 }
    ensures past { parts_of result.1.now ≡ parts_past sign (signs behind.now) }
    ensures no_longer { length result.1.now ≤ length behind.now }
{
    if sign.is_bare(b'?') {
        return (u64::MAX, behind);
    }
    if sign.is_bare(b'[') {
        return class_mask(behind, bytes);
    }
    (equal_to(bytes, sign.byte()), behind)
}

/// The places, of the text's first 64, from which on the parts before the pattern's first `*` take the bytes, as far as the text
/// goes.
fn candidates(pattern: &[u8], text: &[u8]) -> u64
    ensures { HasPlaces pattern.now text.now result }
{
    let mut places = u64::MAX;
    let mut left = pattern;
    let mut later = text;
    while places != 0 {
        let Some((sign, behind)) = next_sign(left) else {
            return places;
        };
        if sign.is_bare(b'*') {
            return places;
        }
        let Some((_, bytes)) = later.split_first() else {
            return places;
        };
        let (takers, rest) = takers(sign, behind, front(later));
        places &= takers;
        left = rest;
        later = bytes;
    }
    0
}

/// The first place from which on the parts before the pattern's first `*` take the bytes, as far as the text goes.
fn first_candidate(pattern: &[u8], text: &[u8]) -> Option<usize>
    ensures { MatchOption result (somewhere pattern.now text.now ≡ false)
        (Skips pattern.now text.now) }
{
    let mut from = 0;
    while from <= text.len() {
        let places = candidates(pattern, &text[from..]);
        if places != 0 {
            let place = lowest(places);
            return if place <= text.len() - from {
                Some(from + place)
            } else {
                None
            };
        }
        if text.len() - from < WINDOW {
            return None;
        }
        from += WINDOW;
    }
    None
}

/// A place before which no rest of the text begins that the pattern matches. None where no rest does.
///
/// In a text of 64 bytes and more it is searched for. In a shorter one it is the first place, without a call: most texts are short.
#[inline(always)]
pub(super) fn next_place(pattern: &[u8], text: &[u8]) -> Option<usize>
    ensures { MatchOption result (somewhere pattern.now text.now ≡ false)
        (Skips pattern.now text.now) }
{
    if text.len() < WINDOW {
        return Some(0);
    }
    searched_place(pattern, text)
}

/// The first place from which on the parts before the pattern's first `*` take the bytes of the text.
///
/// To find it takes time that is linear where each byte of the parts stands for itself, and else a step for each part and 64 bytes of
/// the text.
#[inline(never)]
fn searched_place(pattern: &[u8], text: &[u8]) -> Option<usize>
    ensures { MatchOption result (somewhere pattern.now text.now ≡ false)
        (Skips pattern.now text.now) }
{
    let segment = first_segment(pattern);
    if segment.len > text.len() {
        return None;
    }
    if segment.is_last {
        return Some(text.len() - segment.len);
    }
    match plain_segment(pattern) {
        Some(bytes) => memmem::find(text, bytes),
        None => first_candidate(pattern, text),
    }
}
