ghost use Rattle.std.specs.Prelude.{◌≡◌, ◌≢◌, ◌≤◌, ◌==◌, if◌then◌else◌, slice_index, slice_range, length, All};
ghost use Rattle.mr_inline.specs.Bytes.{star};
ghost use Rattle.mr_inline.specs.Parts.{Measures, IsUnmarked};
ghost use Rattle.mr_inline.specs.Resumed.{Agrees};

use crate::fault::LineFault;
use crate::place::{Kind, Place, Turn};
use crate::progress::LineProgress;
use memchr::memchr3;

/// What stands at the front of the input, before its words are listed.
#[derive(Clone, Copy)]
pub(crate) enum Measured {
    /// A line, with its length.
    Whole(usize),
    More,
    Bad(LineFault),
}

/// The fault of a byte that can't be followed to a line.
fn fault_at(limit: usize, at: usize) -> LineFault
    ensures { result ≡ (if at == limit then LineFault.TooBig else LineFault.UnbalancedQuotes) }
{
    if at == limit {
        LineFault::TooBig
    } else {
        LineFault::UnbalancedQuotes
    }
}

/// Where the first quote or line feed from `at` up to `stop` stands, or else `stop`.
fn unmarked_end(input: &[u8], at: usize, stop: usize) -> usize
    requires order { at ≤ stop }
    requires inside { stop ≤ length input.now }
    ensures forward { at ≤ result }
    ensures within { result ≤ stop }
    ensures none { All IsUnmarked (slice_range input.now at result) }
{
    match memchr3(b'"', b'\'', b'\n', &input[at..stop]) {
        Some(count) => at + count,
        None => stop,
    }
}

/// Goes on over bytes that stand outside quotes and aren't the line's end.
fn skip_unquoted(limit: usize, input: &[u8], progress: LineProgress) -> LineProgress
    requires { Agrees limit progress input.now }
    ensures { Agrees limit result input.now }
{
    match progress.place {
        Place::Between | Place::Plain => {
            let end = unmarked_end(input, progress.at, input.len().min(limit));
            if end == progress.at {
                return progress;
            }
            let place = match Kind::of(input[end - 1]) {
                Kind::Separator => Place::Between,
                _ => Place::Plain,
            };
            LineProgress { at: end, place }
        }
        _ => progress,
    }
}

/// Reads the line at the front of the input up to its line feed, from where `progress` stands.
pub(crate) fn measure(limit: usize, input: &[u8], progress: &mut LineProgress) -> Measured
    requires agrees { Agrees limit progress.old input.now }
    requires no_array { slice_index input.now 0 ≢ star }
    ensures found { Measures limit input.now result }
    ensures kept { Agrees limit progress.new input.now }
{
    let start = skip_unquoted(limit, input, *progress);
    let mut at = start.at;
    let mut place = start.place;
    while at < input.len() {
        let next = match place.turn(Kind::of(input[at])) {
            Turn::Ends => return Measured::Whole(at + 1),
            Turn::Breaks => return Measured::Bad(fault_at(limit, at)),
            Turn::Goes(next) => next,
        };
        if limit - at <= next.need() {
            return Measured::Bad(fault_at(limit, at));
        }
        place = next;
        at += 1;
    }
    progress.at = at;
    progress.place = place;
    Measured::More
}
