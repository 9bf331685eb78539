// Command texts of few words, read without memory.
ghost use Rattle.std.specs.Prelude.{ℕ, ◌≡◌, ◌<◌, ◌≤◌, ◌++◌, ◌∷◌, [], IfSome, None, length, map, take};
ghost use Rattle.std.specs.Cow.{cow_slice_items};
ghost use Rattle.mr_resp.specs.Array.{IsArray};
ghost use Rattle.mr_resp.specs.Command.{BeginsWithCommand, IsCommand};
ghost use Rattle.mr_resp.specs.Few.{few};
ghost use Rattle.mr_resp.specs.Parts.{IsMeasured};
ghost use Rattle.mr_resp.specs.Usual.{commands};

use crate::limits::Limits;
use crate::scan::{ArrayProgress, Measured, measure};
use crate::word::{Piece, word_at};
use std::borrow::CowSlice;
use std::marker::Model;

/// How many words are few.
const FEW: usize = 5;

/// A few words that lie elsewhere, seen as a list of byte strings.
#[derive(Drop)]
pub struct FewWords<'a> {
    items: [&'a [u8]; 5],
    count: usize,
}

impl<'a> Model for FewWords<'a> {
    ghost use Rattle.std.specs.Prelude.{List, ℕ, ◌≤◌, map, take};

    ghost Value = { List (List ℕ) };

    ghost view = { λ a. take a.count (map (λ w. w.now) a.items) };

    ghost invariant = { λ a. a.count ≤ 5 };
}

impl<'a> FewWords<'a> {
    /// No word.
    fn new() -> FewWords<'a>
        ensures { result ≡ [] }
    {
        FewWords {
            items: [&[]; 5],
            count: 0,
        }
    }

    /// Puts a word behind the others.
    fn push(&mut self, word: &'a [u8])
        requires { length self.old < few }
        ensures { self.new ≡ self.old ++ word.now ∷ [] }
    {
        self.items[self.count] = word;
        self.count += 1;
    }

    /// How many there are.
    pub fn len(&self) -> usize
        ensures { result ≡ length self.now }
    {
        self.count
    }

    /// The words, and empty ones behind them.
    pub fn padded(&self) -> [CowSlice<'a, u8>; 5]
        ensures { take (length self.now) (map cow_slice_items result) ≡ self.now }
    {
        let [a, b, c, d, e] = self.items;
        [
            CowSlice::Borrowed(a),
            CowSlice::Borrowed(b),
            CowSlice::Borrowed(c),
            CowSlice::Borrowed(d),
            CowSlice::Borrowed(e),
        ]
    }
}

/// A command of few words, and the length of its text.
#[derive(Drop)]
pub struct ShortCommand<'a> {
    pub words: FewWords<'a>,
    pub used: usize,
}

/// The words of a command text that was measured.
fn few_words_of<'a>(limits: &Limits, input: &'a [u8], first: usize, count: usize) -> FewWords<'a>
    requires measured { (used : ℕ) × IsMeasured limits.now input.now count first used }
    requires few { count ≤ few }
    ensures { (used : ℕ) → IsMeasured limits.now input.now count first used
        → IsArray limits.now (take used input.now) result }
{
    let mut words = FewWords::new();
    let mut at = first;
    for _ in 0..count {
        match word_at(input, at, limits.word, limits.text) {
            Piece::Word { start, end } => {
                words.push(&input[start..end]);
                at = end + 2;
            }
            Piece::More | Piece::Bad(_) => unreachable!(),
        }
    }
    words
}

/// Reads the command text that begins the input, where its words are few. It takes no memory: so where the words of a text found
/// none, as `next_command_from` tells, they are more.
pub fn short_command<'a>(input: &'a [u8]) -> Option<ShortCommand<'a>>
    requires { BeginsWithCommand commands input.now }
    ensures found { IfSome result (λ short. (short.used ≤ length input.now)
        × IsCommand commands (take short.used input.now) short.words) }
    ensures many { result ≡ None → (found : BeginsWithCommand commands input.now)
        → few < length found.words }
{
    let limits = Limits::commands();
    match measure(&limits, input, &mut ArrayProgress::new()) {
        Measured::Whole { count, first, used } if count <= FEW => Some(ShortCommand {
            words: few_words_of(&limits, input, first, count),
            used,
        }),
        _ => None,
    }
}
