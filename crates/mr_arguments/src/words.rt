// Words of a request that stay where they lie.
ghost use Rattle.std.specs.Prelude.{◌≡◌, ◌<◌, ◌^◌, map, length};
ghost use Rattle.std.specs.Cow.{cow_slice_items};
ghost use Rattle.std.specs.Iterator.{YieldsFirstBy, item_count};
ghost use Rattle.mr_arguments.specs.Pairing.{are_pairs, pairs_of, read_pair};

use std::borrow::CowSlice;
use std::marker::Model;

/// The words behind a command's name.
pub type Arguments<'a, 't> = &'a [CowSlice<'t, u8>];

/// A word of a request, seen as a byte string.
#[derive(Drop)]
pub struct Argument<'a> {
    bytes: &'a [u8],
}

impl<'a> Model for Argument<'a> {
    ghost use Rattle.std.specs.Prelude.{ℕ, List};

    ghost Value = { List ℕ };

    ghost view = { λ a. a.bytes.now };
}

impl<'a> Argument<'a> {
    /// This word, which is not copied.
    pub fn new(bytes: &'a [u8]) -> Argument<'a>
        ensures { result ≡ bytes.now }
    {
        Argument { bytes }
    }

    /// This word, which is not copied.
    pub fn of(word: &'a CowSlice<'_, u8>) -> Argument<'a>
        ensures { result ≡ cow_slice_items word.now }
    {
        Argument::new(word.as_slice())
    }

    /// The bytes of the word.
    pub fn as_slice(&self) -> &'a [u8]
        ensures { result.now ≡ self.now }
    {
        self.bytes
    }
}

/// Words that follow one another in a request, seen as a list of byte strings. `'t` is the request's text.
#[derive(Drop)]
pub struct Words<'a, 't> {
    items: &'a [CowSlice<'t, u8>],
}

impl<'a, 't> Model for Words<'a, 't> {
    ghost use Rattle.std.specs.Prelude.{ℕ, List, map};
    ghost use Rattle.std.specs.Cow.{cow_slice_items};

    ghost Value = { List (List ℕ) };

    ghost view = { λ a. map cow_slice_items a.items.now };
}

impl<'a, 't> Words<'a, 't> {
    /// These words, which are not copied.
    pub fn new(items: &'a [CowSlice<'t, u8>]) -> Words<'a, 't>
        ensures { result ≡ map cow_slice_items items.now }
    {
        Words { items }
    }

    /// The words, in the order of the request.
    pub fn as_slice(&self) -> &'a [CowSlice<'t, u8>]
        ensures { map cow_slice_items result.now ≡ self.now }
    {
        self.items
    }
}

/// Words that follow one another in a request, taken two by two: fields with their values.
#[derive(Drop)]
pub struct WordPairs<'a, 't> {
    words: &'a [CowSlice<'t, u8>],
}

impl<'a, 't> Model for WordPairs<'a, 't> {
    ghost use Rattle.std.specs.Prelude.{ℕ, List, map};
    ghost use Rattle.std.specs.Cow.{cow_slice_items};
    ghost use Rattle.mr_arguments.specs.Pairing.{paired};

    ghost Value = { List (List ℕ × List ℕ) };

    ghost view = { λ a. paired (map cow_slice_items a.words.now) };
}

impl<'a, 't> WordPairs<'a, 't> {
    /// These words as pairs, if no word is left over. They are not copied.
    pub fn of(words: &'a [CowSlice<'t, u8>]) -> Option<WordPairs<'a, 't>>
        ensures { result ≡ pairs_of (map cow_slice_items words.now) }
    {
        if are_pairs(words) {
            Some(WordPairs { words })
        } else {
            None
        }
    }

    /// How many there are.
    pub fn len(&self) -> usize
        ensures len { result ≡ length self.now }
        ensures small { result < 2 ^ 63 }
    {
        self.words.len() / 2
    }

    /// The pairs, in the order of the request.
    pub fn iter(&self) -> WordPairsIter<'a, 't>
        ensures { result ≡ self.now }
    {
        WordPairsIter { words: self.words }
    }
}

/// Whether words come in pairs, with none left over.
fn are_pairs(words: &[CowSlice<'_, u8>]) -> bool
    ensures { result ≡ are_pairs (map cow_slice_items words.now) }
{
    words.len() % 2 == 0
}

/// The pairs that are still to come, seen as a list.
#[derive(Drop)]
pub struct WordPairsIter<'a, 't> {
    words: &'a [CowSlice<'t, u8>],
}

impl<'a, 't> Model for WordPairsIter<'a, 't> {
    ghost use Rattle.std.specs.Prelude.{ℕ, List, map};
    ghost use Rattle.std.specs.Cow.{cow_slice_items};
    ghost use Rattle.mr_arguments.specs.Pairing.{paired};

    ghost Value = { List (List ℕ × List ℕ) };

    ghost view = { λ a. paired (map cow_slice_items a.words.now) };
}

impl<'a, 't> Iterator for WordPairsIter<'a, 't> {
    type Item = (&'a [u8], &'a [u8]);

    ghost next_gives = { YieldsFirstBy read_pair (λ s. s) };

    ghost remaining = { item_count (λ s. s) };

    fn next(&mut self) -> Option<(&'a [u8], &'a [u8])> {
        match self.words {
            [field, value, rest @ ..] => {
                self.words = rest;
                Some((field.as_slice(), value.as_slice()))
            }
            _ => None,
        }
    }
}
