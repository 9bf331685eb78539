// A word, borrowed or owned.
ghost use Rattle.std.specs.Prelude.{◌≡◌, IfOk};
ghost use Rattle.mr_bytes.specs.Words.{fits};

use crate::bytes::Bytes;
use mr_inline::WORD_LIMIT;
use mr_map::ShortKey;
use std::alloc::{AllocError, Global};
use std::marker::Model;

// Where the bytes lie.
#[derive(Drop)]
enum Text<'a> {
    Borrowed(&'a [u8]),
    Short(ShortKey),
    Long(Vec<u8>),
}

/// A word of a request or an effect, borrowed or owned, seen as a list. Few bytes that it owns lie in it, more have memory of
/// their own.
pub struct Word<'a> {
    text: Text<'a>,
}

// By hand, so that it is one call wherever a value goes (docs/PROVING.md).
impl Drop for Word<'_> {
    fn drop(self) {
        let Word { text: _ } = self;
    }
}

impl<'a> Model for Word<'a> {
    ghost use Rattle.std.specs.Prelude.{List, ℕ};
    ghost use Rattle.mr_bytes.specs.Words.{word_bytes};

    ghost Value = { List ℕ };

    ghost view = { λ a. word_bytes a.text };
}

impl<'a> Word<'a> {
    /// A word that lies elsewhere.
    pub fn borrowed(bytes: &'a [u8]) -> Word<'a>
        ensures { result ≡ bytes.now }
    {
        Word {
            text: Text::Borrowed(bytes),
        }
    }

    /// A word that owns a copy of the bytes. Few bytes take no memory.
    pub fn copied(alloc: Global, bytes: &[u8]) -> Result<Word<'a>, AllocError>
        ensures { IfOk result (λ w. w ≡ bytes.now) }
    {
        let text = match ShortKey::of(bytes) {
            Some(short) => Text::Short(short),
            None => Text::Long(Vec::from_slice(alloc, bytes)?),
        };
        Ok(Word { text })
    }

    /// The bytes.
    pub fn as_slice(&self) -> &[u8]
        ensures { result.now ≡ self.now }
    {
        match &self.text {
            Text::Borrowed(bytes) => bytes,
            Text::Short(short) => short.as_slice(),
            Text::Long(bytes) => bytes.as_slice(),
        }
    }

    /// The word's bytes with memory of their own: moved where they had it before, copied where the word borrows them or they
    /// lie in it.
    pub fn into_bytes(self, alloc: Global) -> Result<Bytes, AllocError>
        ensures { IfOk result (λ b. b ≡ self.entry) }
    {
        let Word { text } = self;
        match text {
            Text::Borrowed(bytes) => Bytes::from_slice(alloc, bytes),
            Text::Short(short) => Bytes::from_slice(alloc, short.as_slice()),
            Text::Long(bytes) => Ok(Bytes::from_vec(bytes)),
        }
    }
}

/// Whether a word is within the limit of 512 MiB.
pub fn fits(word: &[u8]) -> bool
    ensures { result ≡ fits word.now }
{
    word.len() <= WORD_LIMIT
}
