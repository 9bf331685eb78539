// Scores and their texts.
ghost use Rattle.std.specs.Prelude.{◌≡◌, ◌==◌, ◌<◌, IfSome, length, position, option_copied};
ghost use Rattle.std.specs.List.{list_all};
ghost use Rattle.mr_score.specs.Score.{is_score};
ghost use Rattle.mr_score.specs.Texts.{are_zeros, score_of, whole_part, within_limit};

use mr_bytes::read_i64;

/// The greatest score. The least is its negative. A double holds each whole number between them.
pub const MOST: i64 = 1 << 53;

/// Whether a number is a score: from -2^53 to 2^53.
pub fn is_score(number: i64) -> bool
    ensures { result ≡ is_score number }
{
    (-MOST..=MOST).contains(&number)
}

/// The score that a text spells: a whole number as `read_i64` takes it, after which a point and
/// zeros may stand. A number that isn't a score is none. It takes no memory.
pub fn read_score(text: &[u8]) -> Option<i64>
    ensures { result ≡ score_of text.now }
{
    within_limit(read_i64(whole_part(text)?)?)
}

/// The number, if it is a score.
fn within_limit(number: i64) -> Option<i64>
    ensures { result ≡ within_limit number }
{
    if is_score(number) { Some(number) } else { None }
}

/// The text in front of its first point, if only zeros stand behind that, one at least. Without a point it is the whole
/// text.
fn whole_part(text: &[u8]) -> Option<&[u8]>
    ensures { option_copied result ≡ whole_part text.now }
{
    let Some(point) = first_point(text) else {
        return Some(text);
    };
    if are_zeros(&text[point + 1..]) {
        Some(&text[..point])
    } else {
        None
    }
}

/// The place of the first point, if there is one.
fn first_point(text: &[u8]) -> Option<usize>
    ensures place { result ≡ position (λ b. b == 46) text.now }
    ensures within { IfSome result (λ place. place < length text.now) }
{
    text.iter().position(|byte| *byte == b'.')
}

/// Whether a text is one or more zeros.
fn are_zeros(text: &[u8]) -> bool
    ensures { result ≡ are_zeros text.now }
{
    !text.is_empty() && has_only_zeros(text)
}

/// Whether each byte of a text is a zero.
fn has_only_zeros(text: &[u8]) -> bool
    ensures { result ≡ list_all (λ d. d == 48) text.now }
{
    text.iter().all(|byte| *byte == b'0')
}
