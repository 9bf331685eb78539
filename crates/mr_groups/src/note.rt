// Notes, which stand between the groups of a file.
ghost use Rattle.std.specs.Prelude.{◌≡◌, ◌<◌, ◌≤◌, ◌∷◌, All, length, slice_index, take};
ghost use Rattle.mr_inline.specs.Bytes.{line_feed};
ghost use Rattle.mr_groups.specs.Notes.{IsNoFeed, ReadsNote, mark};

use memchr::memchr;

/// The byte that begins a note.
const MARK: u8 = b'#';

/// The most bytes of a note between its mark and its line feed.
const NOTE_LIMIT: usize = 65_536;

/// What a note is at the front of bytes.
#[derive(Clone, Copy)]
pub(crate) enum Note {
    /// The first so many bytes are a note's text.
    Whole(usize),
    /// They are a beginning of one, whose line feed may come.
    Open,
    /// There is none, and none will come, however they go on.
    No,
}

/// How many bytes stand in front of the first line feed, or at all where there is none.
fn line_len(bytes: &[u8]) -> usize
    ensures within { result ≤ length bytes.now }
    ensures none { All IsNoFeed (take result bytes.now) }
    ensures feed { result < length bytes.now → slice_index bytes.now result ≡ line_feed }
{
    match memchr(b'\n', bytes) {
        Some(place) => place,
        None => bytes.len(),
    }
}

/// The note that begins with a mark and these bytes.
fn note_behind(behind: &[u8]) -> Note
    ensures { ReadsNote (mark ∷ behind.now) result }
{
    let line = line_len(&behind[..behind.len().min(NOTE_LIMIT + 1)]);
    if line > NOTE_LIMIT {
        return Note::No;
    }
    if line == behind.len() {
        return Note::Open;
    }
    Note::Whole(line + 2)
}

/// The note at the front of bytes. No more of them is read than a note has at most.
pub(crate) fn note_at(bytes: &[u8]) -> Note
    ensures { ReadsNote bytes.now result }
{
    let Some((first, behind)) = bytes.split_first() else {
        return Note::Open;
    };
    if *first != MARK {
        return Note::No;
    }
    note_behind(behind)
}
