//! Patterns over byte strings.
ghost use Rattle.std.specs.Prelude.{◌≡◌, ◌∷◌, false, MatchOption};
ghost use Rattle.mr_glob.specs.Glob.{any_bytes, glob_matches, matches, parts_of, set_at, signs};
ghost use Rattle.mr_glob.specs.GlobSteps.{Passes, StopsAt};

mod class;
mod laws;
mod mask;
mod place;
mod sign;

use class::in_class;
pub use laws::{
    any_bytes_match, parts_match_in_turn, plain_bytes_match_themselves, ranges_match_either_way,
    taken_bytes_match_themselves,
};
use place::next_place;
use sign::{Sign, next_sign};

/// Whether the pattern matches the whole text.
///
/// `*` stands for any bytes and `?` for one byte. `[..]` stands for one byte of a class of bytes and ranges, whose ends come in
/// either order, or after `[^` for one that is in none of them; a class that isn't closed ends with the pattern. `\` takes the next
/// byte as it is, in a class too. It takes no memory, and at most about as many steps as the pattern has bytes for each 64 of the
/// text.
#[tactic(auto, unfolding(crate::specs::Glob::glob_matches))]
pub fn glob(pattern: &[u8], text: &[u8]) -> bool
    ensures { result ≡ glob_matches pattern.now text.now }
{
    match follow(pattern, text) {
        Stop::Matched => true,
        Stop::Star { rest, later } => matches_rest(rest, later),
        Stop::NoText | Stop::Mismatch => false,
    }
}

/// Whether the pattern matches some rest of the text. Once a `*` is come to, no earlier one need be gone back to; and where the parts
/// before the next one don't take the bytes, the next place from which on they do is looked for.
fn matches_rest(pattern: &[u8], text: &[u8]) -> bool
    ensures { result ≡ matches (any_bytes ∷ parts_of pattern.now) text.now }
{
    let mut left = pattern;
    let mut from = text;
    'stars: while !left.is_empty() {
        match follow(left, from) {
            Stop::Matched => return true,
            Stop::Star { rest, later } => {
                left = rest;
                from = later;
            }
            Stop::NoText => return false,
            Stop::Mismatch => {
                let Some((_, later)) = from.split_first() else {
                    return false;
                };
                let Some(place) = next_place(left, later) else {
                    return false;
                };
                from = &later[place..];
            }
        }
    }
    true
}

/// Where the parts of a pattern before its first `*` lead.
#[derive(Clone, Copy)]
enum Stop<'a> {
    /// The pattern has no `*`, and its parts took the text.
    Matched,
    /// What follows the `*`, and what is left of the text.
    Star { rest: &'a [u8], later: &'a [u8] },
    /// The text ended before the parts.
    NoText,
    /// A part doesn't take its byte, or bytes are left over.
    Mismatch,
}

/// Where the parts before the first `*`, each of which takes one byte, come to an end along the text.
fn follow<'a>(pattern: &'a [u8], text: &'a [u8]) -> Stop<'a>
    ensures { StopsAt pattern.now text.now result }
{
    let mut left = pattern;
    let mut later = text;
    while let Some((sign, behind)) = next_sign(left) {
        if sign.is_bare(b'*') {
            return Stop::Star {
                rest: behind,
                later,
            };
        }
        let Some((byte, bytes)) = later.split_first() else {
            return Stop::NoText;
        };
        let Some(rest) = past(sign, behind, *byte) else {
            return Stop::Mismatch;
        };
        left = rest;
        later = bytes;
    }
    if later.is_empty() {
        Stop::Matched
    } else {
        Stop::Mismatch
    }
}

/// What follows the part for one byte that the sign begins, if the part takes the byte.
fn past<'a>(sign: Sign, behind: &'a [u8], byte: u8) -> Option<&'a [u8]>
    ensures { MatchOption result (set_at sign (signs behind.now) byte ≡ false) (λ rest.
        Passes sign behind.now byte rest.now) }
{
    if sign.is_bare(b'?') {
        return Some(behind);
    }
    if sign.is_bare(b'[') {
        let (takes, rest) = in_class(behind, byte);
        return if takes { Some(rest) } else { None };
    }
    if byte == sign.byte() {
        Some(behind)
    } else {
        None
    }
}
