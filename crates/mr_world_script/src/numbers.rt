// Words that are numbers, moments and ids.
ghost use Rattle.std.specs.Prelude.{◌≡◌, option_map};
ghost use Rattle.std.specs.Cow.{cow_slice_items};
ghost use Rattle.mr_world_script.specs.Reading.{given_of, parts_of};
ghost use Rattle.mr_world_script.specs.Words.{count_of, id_of};

use itoa::Buffer;
use mr_bytes::read_i64;
use mr_data::Given;
use mr_repl::ReplId;

/// The number that a word spells: digits without a sign and without leading zeros.
pub(crate) fn read_count(word: &[u8]) -> Option<usize>
    ensures { result ≡ count_of word.now }
{
    let Ok(text) = str::from_utf8(word) else {
        return None;
    };
    let Ok(number) = text.parse::<usize>() else {
        return None;
    };
    let mut buffer = Buffer::new();
    if buffer.format(number).as_bytes() == word {
        return Some(number);
    }
    None
}

/// The moment that a word spells, with this word of chance.
pub(crate) fn read_given(now: &[u8], chance: usize) -> Option<Given>
    ensures { option_map parts_of result ≡ given_of now.now chance }
{
    Given::new(read_i64(now)?, chance as u64)
}

/// The id that a word names: by its forty digits, or by one digit that stands for forty of it.
pub(crate) fn read_id(word: &[u8]) -> Option<ReplId>
    ensures { result ≡ id_of word.now }
{
    if word.len() == 1 {
        let digits = [word[0]; 40];
        return ReplId::read(digits.as_slice());
    }
    ReplId::read(word)
}
