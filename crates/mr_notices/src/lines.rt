// Lines on their way out.
ghost use Rattle.std.specs.Prelude.{◌≡◌, ◌≤◌, ◌<◌, ◌++◌, [], length, map, true, false, IfOk};
ghost use Rattle.mr_notices.specs.Lines.{CatchesUp, Says, count_text, line_of, missed, plain_byte};

use crate::outlet::Outlet;
use itoa::Buffer;
use std::alloc::{AllocError, Global};
use std::marker::Model;

/// A line has no more bytes, with its end: so many a pipe takes whole or not at all.
pub const MOST_LINE: usize = 4_096;

/// What follows the count of the lines that were dropped.
const DROPPED: &[u8] = b" lines were dropped since nobody read them";

/// What stands in the place of a byte that would end a line, or move what stands on a terminal.
const NO_TEXT: u8 = b'?';

/// The last byte that may be one of those.
const LAST_CONTROL: u8 = 31;

const DELETE: u8 = 127;

/// Lines on their way to an outlet that may take nothing now: what is left of the one that it took in part, and how many were dropped
/// and aren't told of yet.
#[derive(Drop)]
pub struct Lines {
    line: Vec<u8>,
    gone: usize,
    dropped: u64,
}

impl Model for Lines {
    ghost use Rattle.std.specs.Prelude.{◌≤◌, drop, length};
    ghost use Rattle.mr_notices.specs.Lines.{LinesState, lines_code};

    ghost Value = { LinesState };

    ghost coded = { lines_code };

    ghost view = { λ l. record { rest = drop l.gone l.line.items; dropped = l.dropped } };

    ghost invariant = { λ l. l.gone ≤ length l.line.items };
}

impl Lines {
    /// No lines.
    pub fn new(alloc: Global) -> Lines
        ensures { result ≡ record { rest = []; dropped = 0 } }
    {
        Lines {
            line: Vec::new(alloc),
            gone: 0,
            dropped: 0,
        }
    }

    /// Whether lines were dropped of which nothing is told yet, or one is left that goes out in part.
    pub fn is_behind(&self) -> bool {
        self.dropped > 0 || self.gone < self.line.len()
    }

    /// Has what is left of a line go out. It answers whether all of it did.
    fn finish<O: Outlet>(&mut self, out: &mut O) -> bool
        ensures went { O.tells ≡ true →
            O.taken out.new ++ self.new.rest ≡ O.taken out.old ++ self.old.rest }
        ensures all { result ≡ true → self.new.rest ≡ [] }
        ensures dropped { self.new.dropped ≡ self.old.dropped }
    {
        let count = out.take(&self.line[self.gone..]);
        self.gone += count;
        self.gone == self.line.len()
    }

    /// A line begins to go out, behind one that is out as a whole. It answers whether any of it does: else it isn't kept.
    fn begin<O: Outlet>(&mut self, out: &mut O, line: Vec<u8>) -> bool
        requires { self.old.rest ≡ [] }
        ensures went { result ≡ true → O.tells ≡ true →
            O.taken out.new ++ self.new.rest ≡ O.taken out.old ++ line.items }
        ensures none { result ≡ false → O.tells ≡ true →
            O.taken out.new ≡ O.taken out.old }
        ensures left { result ≡ false → self.new.rest ≡ [] }
        ensures dropped { self.new.dropped ≡ self.old.dropped }
    {
        let count = out.take(line.as_slice());
        if count == 0 {
            return false;
        }
        self.line = line;
        self.gone = count;
        true
    }

    /// One more line is dropped.
    pub fn miss(&mut self)
        ensures { self.new ≡ missed self.old }
    {
        self.dropped = self.dropped.saturating_add(1);
    }

    /// Has go out what is left of a line, and behind it, with this text in front, how many were dropped, if some were. It answers
    /// whether a line may go out behind that.
    pub fn catch_up<O: Outlet>(&mut self, alloc: Global, out: &mut O, stamp: &[u8]) -> bool
        ensures { CatchesUp O.tells result stamp.now (O.taken out.old) self.old (O.taken out.new)
            self.new }
    {
        if !self.finish(out) {
            return false;
        }
        if self.dropped == 0 {
            return true;
        }
        let Ok(line) = count_line(alloc, stamp, self.dropped) else {
            return false;
        };
        if !self.begin(out, line) {
            return false;
        }
        self.dropped = 0;
        self.finish(out)
    }

    /// Has a line go out, behind what is left to go out before: these two texts and a line's end, without what would end it before, and
    /// cut where it has more than 4,096 bytes. Where that can't be done at once, or memory is lacking, it is dropped and counted. It
    /// answers whether it goes out.
    pub fn say<O: Outlet>(&mut self, alloc: Global, out: &mut O, stamp: &[u8], text: &[u8]) -> bool
        ensures { Says O.tells result stamp.now text.now (O.taken out.old) self.old
            (O.taken out.new) self.new }
    {
        if !self.catch_up(alloc, out, stamp) {
            self.miss();
            return false;
        }
        let Ok(line) = line_of(alloc, stamp, text) else {
            self.miss();
            return false;
        };
        if !self.begin(out, line) {
            self.miss();
            return false;
        }
        true
    }
}

/// The line that says how many were dropped.
fn count_line(alloc: Global, stamp: &[u8], count: u64) -> Result<Vec<u8>, AllocError>
    ensures { IfOk result (λ line. line.items ≡ line_of stamp.now (count_text count)) }
{
    let mut buffer = Buffer::new();
    let mut text = Vec::from_slice(alloc, buffer.format(count).as_bytes())?;
    text.extend_from_slice(DROPPED)?;
    line_of(alloc, stamp, text.as_slice())
}

/// These two texts as a line.
fn line_of(alloc: Global, stamp: &[u8], text: &[u8]) -> Result<Vec<u8>, AllocError>
    ensures { IfOk result (λ line. line.items ≡ line_of stamp.now text.now) }
{
    let mut front = Vec::from_slice(alloc, stamp)?;
    front.extend_from_slice(text)?;
    front.truncate(MOST_LINE - 1);
    let mut line = plain(alloc, front.as_slice())?;
    line.push(b'\n')?;
    Ok(line)
}

/// These bytes, without those that would end a line.
fn plain(alloc: Global, bytes: &[u8]) -> Result<Vec<u8>, AllocError>
    ensures { IfOk result (λ plain. plain.items ≡ map plain_byte bytes.now) }
{
    bytes.iter().map(|byte| plain_byte(*byte)).collect(alloc)
}

/// A byte that ends no line.
fn plain_byte(byte: u8) -> u8
    ensures { result ≡ plain_byte byte }
{
    if byte <= LAST_CONTROL || byte == DELETE {
        NO_TEXT
    } else {
        byte
    }
}
