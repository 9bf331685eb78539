ghost use Rattle.std.specs.Prelude.{◌≡◌, ◌≢◌, ◌≤◌, ◌++◌, ℕ, List, length, take, MatchOption};
ghost use Rattle.mr_peer_lines.specs.Replies.{IsPlaceText, ReadsReply};

use crate::read_offset;
use mr_repl::ReplId;

/// The number of digits of an id.
const ID_DIGITS: usize = 40;

/// Where an offset stands behind an id.
const OFFSET_AT: usize = 41;

/// What a master answers to PSYNC.
#[derive(Clone, Copy, Debug, PartialEq, Eq)]
pub enum PsyncReply {
    /// A snapshot follows, of the stream under this id up to this offset.
    FullResync(ReplId, u64),
    /// The stream follows from where it was asked for, under this id.
    Continue(ReplId),
}

/// What stands behind these bytes, if the text begins with them.
fn behind<'a>(text: &'a [u8], front: &[u8]) -> Option<&'a [u8]>
    ensures { MatchOption result ((rest : List ℕ) →
        text.now ≢ front.now ++ rest) (λ rest. text.now ≡ front.now ++ rest.now) }
{
    text.strip_prefix(front)
}

/// So many bytes of the text.
fn first(text: &[u8], count: usize) -> &[u8]
    requires { count ≤ length text.now }
    ensures { result.now ≡ take count text.now }
{
    &text[..count]
}

/// Reads an id, and an offset behind one space.
fn read_place(text: &[u8]) -> Option<(ReplId, u64)>
    ensures { MatchOption result ((id : List ℕ) (offset : ℕ) →
        IsPlaceText text.now id offset → ⊥) (λ place. IsPlaceText text.now place.0 place.1) }
{
    if text.len() < OFFSET_AT {
        return None;
    }
    if text[ID_DIGITS] != b' ' {
        return None;
    }
    let id = ReplId::read(first(text, ID_DIGITS))?;
    let offset = read_offset(&text[OFFSET_AT..])?;
    Some((id, offset))
}

/// Reads the answer behind the `+` of its line.
pub fn read_reply(text: &[u8]) -> Option<PsyncReply>
    ensures { ReadsReply text.now result }
{
    match behind(text, b"CONTINUE ") {
        Some(digits) => {
            let id = ReplId::read(digits)?;
            Some(PsyncReply::Continue(id))
        }
        None => {
            let place = behind(text, b"FULLRESYNC ")?;
            let (id, offset) = read_place(place)?;
            Some(PsyncReply::FullResync(id, offset))
        }
    }
}
