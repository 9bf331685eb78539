ghost use Rattle.std.specs.Prelude.{◌≡◌, ◌∷◌, MatchOption};
ghost use Rattle.std.specs.List.{position, position_or_len};
ghost use Rattle.mr_peer_lines.specs.Bytes.{ends_line, is_mark};
ghost use Rattle.mr_peer_lines.specs.Lines.{Line, Says, ReadsLine, line_of};
ghost use Rattle.mr_peer_lines.specs.Fronts.{FindsFront};

use crate::read_offset;

/// The most bytes before a line's end.
const MOST: usize = 1024;

/// What a line says.
#[derive(Clone, Copy, Debug)]
pub enum PeerLine<'a> {
    /// `+`: an answer.
    Status(&'a [u8]),
    /// `-`: a refusal.
    Refusal(&'a [u8]),
    /// `$`: the length in bytes of what follows.
    Length(u64),
}

/// What stands at the front of the input.
#[derive(Clone, Copy, Debug)]
pub enum PeerLineScan<'a> {
    /// A line, and its length with its end.
    Whole { line: PeerLine<'a>, used: usize },
    /// No whole line yet.
    More,
    /// No continuation of the input begins with a line, or the line that begins it says nothing.
    Bad,
}

/// What stands before the end of the first line.
#[derive(Clone, Copy)]
pub(crate) enum Front {
    Ends { end: usize },
    More,
    Bad,
}

/// Whether a line may begin with this byte.
fn is_mark(byte: u8) -> bool
    ensures { result ≡ is_mark byte }
{
    matches!(byte, b'+' | b'-' | b'$')
}

/// Where the first byte of a line end stands.
fn first_end(input: &[u8]) -> Option<usize>
    ensures { result ≡ position ends_line input.now }
{
    input
        .iter()
        .position(|byte| *byte == b'\r' || *byte == b'\n')
}

/// How many bytes stand before the first byte of a line end.
fn plain_len(input: &[u8]) -> usize
    ensures { result ≡ position_or_len ends_line input.now }
{
    first_end(input).unwrap_or(input.len())
}

/// Finds the end of the line at the front of the input.
fn front_of(input: &[u8]) -> Front
    ensures { FindsFront input.now result }
{
    if input.is_empty() {
        return Front::More;
    }
    if !is_mark(input[0]) {
        return Front::Bad;
    }
    let end = plain_len(&input[..input.len().min(MOST + 1)]);
    if end > MOST {
        return Front::Bad;
    }
    if end == input.len() {
        return Front::More;
    }
    if input[end] != b'\r' {
        return Front::Bad;
    }
    if end + 1 == input.len() {
        return Front::More;
    }
    if input[end + 1] != b'\n' {
        return Front::Bad;
    }
    Front::Ends { end }
}

/// What a line says that begins with this byte and goes on with this text.
fn said(mark: u8, text: &[u8]) -> Option<PeerLine<'_>>
    ensures { MatchOption result ((line : Line) → Says (mark ∷ text.now) line →
        ⊥) (λ line. Says (mark ∷ text.now) (line_of line)) }
{
    if mark == b'+' {
        return Some(PeerLine::Status(text));
    }
    if mark == b'-' {
        return Some(PeerLine::Refusal(text));
    }
    if mark != b'$' {
        return None;
    }
    let length = read_offset(text)?;
    Some(PeerLine::Length(length))
}

/// Reads the line at the front of the input. It looks no further than a line's end may stand.
pub fn next_line(input: &[u8]) -> PeerLineScan<'_>
    ensures { ReadsLine input.now result }
{
    let end = match front_of(input) {
        Front::Ends { end } => end,
        Front::More => return PeerLineScan::More,
        Front::Bad => return PeerLineScan::Bad,
    };
    match said(input[0], &input[1..end]) {
        Some(line) => PeerLineScan::Whole {
            line,
            used: end + 2,
        },
        None => PeerLineScan::Bad,
    }
}
