// The sides of a link.
ghost use Rattle.std.specs.Prelude.{◌≡◌};
ghost use Rattle.mr_world_script.specs.Words.{side_of};

use mr_links::Side;

/// The side that a word names.
#[tactic(auto, unfolding(crate::specs::Words::side_of))]
pub(crate) fn read_side(word: &[u8]) -> Option<Side>
    ensures { result ≡ side_of word.now }
{
    if word == b"a".as_slice() {
        return Some(Side::Opener);
    }
    if word == b"b".as_slice() {
        return Some(Side::Server);
    }
    None
}
