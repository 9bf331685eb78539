// The first line of some bytes.
ghost use Rattle.std.specs.Prelude.{◌≡◌, ◌==◌, ℕ, List, IfSome, IfNone, position};
ghost use Rattle.mr_trio_script.specs.ReplyLines.{BeginsWith, IsFeedOf};

/// A line at the front of bytes: a byte, a text without a line feed, and its line end.
#[derive(Clone, Copy)]
pub(crate) struct Line<'a> {
    pub(crate) form: u8,
    pub(crate) text: &'a [u8],
    /// What stands behind it.
    pub(crate) rest: &'a [u8],
}

/// The line that begins the bytes, where it is whole.
pub(crate) fn first_line(bytes: &[u8]) -> Option<Line<'_>>
    ensures some { IfSome result (λ line.
        BeginsWith bytes.now line.form line.text.now line.rest.now) }
    ensures none { IfNone result ((form : ℕ) (text rest : List ℕ) →
        BeginsWith bytes.now form text rest → ⊥) }
{
    let Some(feed) = feed_of(bytes) else {
        return None;
    };
    let Some((form, behind)) = bytes[..feed].split_first() else {
        return None;
    };
    let Some((last, text)) = behind.split_last() else {
        return None;
    };
    if *last != b'\r' {
        return None;
    }
    Some(Line {
        form: *form,
        text,
        rest: &bytes[feed + 1..],
    })
}

/// The place of the first line feed.
fn feed_of(bytes: &[u8]) -> Option<usize>
    ensures { IsFeedOf bytes.now result }
{
    feed_place(bytes)
}

/// The place of the first line feed, if there is one.
fn feed_place(bytes: &[u8]) -> Option<usize>
    ensures { result ≡ position (λ b. b == 10) bytes.now }
{
    bytes.iter().position(|byte| *byte == b'\n')
}
