// The head of a reply: a line, or a word with its length, or the count of a list.
ghost use Rattle.std.specs.Prelude.{◌≡◌, ◌≢◌, ◌↔◌, ◌<◌, ◌^◌, ℕ, IsTrue, IfSome, IfNone, decimal};
ghost use Rattle.mr_resp.specs.Spelling.{line_end};
ghost use Rattle.mr_trio_script.specs.Heads.{IsFirst, IsListHead, IsWordBehind, NoListHead, NoneIsFirst, NoWordBehind, is_text_form, none_text};

use crate::reply_line::first_line;
use mr_bytes::read_i64;

/// What stands in the place of a length or a count where there is no word or no list.
const NONE: &[u8] = b"-1";

const LINE_END: &[u8] = b"\r\n";

/// A head at the front of bytes.
#[derive(Clone, Copy)]
pub(crate) struct Head {
    /// How many bytes it has.
    pub(crate) len: usize,
    /// How many replies are to follow it as its parts.
    pub(crate) opens: usize,
}

/// The head that begins the bytes, where it is whole.
pub(crate) fn head_at(bytes: &[u8]) -> Option<Head>
    ensures some { IfSome result (IsFirst bytes.now) }
    ensures none { IfNone result (NoneIsFirst bytes.now) }
{
    let Some(line) = first_line(bytes) else {
        return None;
    };
    let len = bytes.len() - line.rest.len();
    if is_text_form(line.form) {
        return Some(Head { len, opens: 0 });
    }
    if line.form == b'$' {
        return match word_len(line.text, line.rest) {
            Some(more) => Some(Head {
                len: len + more,
                opens: 0,
            }),
            None => None,
        };
    }
    if line.form == b'*' {
        return match list_len(line.text) {
            Some(opens) => Some(Head { len, opens }),
            None => None,
        };
    }
    None
}

/// Whether a line of this form is a reply by itself.
fn is_text_form(form: u8) -> bool
    ensures { result ≡ is_text_form form }
{
    form == b'+' || (form == b'-' || form == b':')
}

/// How many bytes behind the line of its length a word has, with its line end. None where it isn't whole.
fn word_len(text: &[u8], rest: &[u8]) -> Option<usize>
    ensures some { IfSome result (IsWordBehind text.now rest.now) }
    ensures none { IfNone result (NoWordBehind text.now rest.now) }
{
    if is_none(text) {
        return Some(0);
    }
    let Some(count) = count_of(text) else {
        return None;
    };
    if rest.len() < 2 {
        return None;
    }
    if rest.len() - 2 < count {
        return None;
    }
    let end = &rest[count..count + 2];
    if !is_line_end(end) {
        return None;
    }
    Some(count + 2)
}

/// How many replies a list has.
fn list_len(text: &[u8]) -> Option<usize>
    ensures some { IfSome result (IsListHead text.now) }
    ensures none { IfNone result (NoListHead text.now) }
{
    if is_none(text) {
        return Some(0);
    }
    count_of(text)
}

/// Whether a text stands for no word and no list.
fn is_none(text: &[u8]) -> bool
    ensures { IsTrue result ↔ (text.now ≡ none_text) }
{
    text == NONE
}

/// Whether these bytes are a line end.
fn is_line_end(bytes: &[u8]) -> bool
    ensures { IsTrue result ↔ (bytes.now ≡ line_end) }
{
    bytes == LINE_END
}

/// The number from 0 on that a text spells.
fn count_of(text: &[u8]) -> Option<usize>
    ensures some { IfSome result (λ n. text.now ≡ decimal n) }
    ensures within { IfSome result (λ n. n < 2 ^ 63) }
    ensures none { IfNone result ((n : ℕ) → n < 2 ^ 63 → text.now ≢ decimal n) }
{
    usize::try_from(read_i64(text)?).ok()
}
