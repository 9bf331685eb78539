// A request as it goes out.
ghost use Rattle.std.specs.Prelude.{◌≡◌, map, IfOk};
ghost use Rattle.std.specs.Cow.{cow_slice_items};
ghost use Rattle.mr_resp.specs.Spelling.{array};

use mr_resp::{push_word, push_word_count};
use std::alloc::{AllocError, Global};
use std::borrow::CowSlice;

/// The array form of the words.
pub(crate) fn request_of(alloc: Global, words: &[CowSlice<'_, u8>]) -> Result<Vec<u8>, AllocError>
    ensures { IfOk result (λ text. text.items ≡ array (map cow_slice_items words.now)) }
{
    let mut text = Vec::new(alloc);
    push_word_count(&mut text, words.len())?;
    for word in words {
        push_word(&mut text, word.as_slice())?;
    }
    Ok(text)
}
