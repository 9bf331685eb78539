// A request that names a node of the three.
ghost use Rattle.std.specs.Prelude.{◌≡◌, ◌++◌, ◌∷◌, [], IfOk, IfSome, IfNone, IsTrue, ◌↔◌, map, take, decimal};
ghost use Rattle.std.specs.Cow.{cow_slice_items};
ghost use Rattle.mr_trio_script.specs.Naming.{host, is_follow, NamesNode, node_word};
ghost use Rattle.mr_trio_script.specs.declared.place.Place.{Place as PlaceValue};

use crate::place::Place;
use itoa::Buffer;
use std::alloc::{AllocError, Global};
use std::borrow::CowSlice;

/// The host of all three.
pub const HOST: &[u8] = b"127.0.0.1";

/// What stands in a request before the number of the node that it names.
const NODE: &[u8] = b"node";

/// The node that a request to follow names in place of an address.
pub fn node_named(words: &[CowSlice<'_, u8>]) -> Option<Place>
    ensures some { IfSome result (λ place. NamesNode (map cow_slice_items words.now) place) }
    ensures none { IfNone result ((place : PlaceValue) →
        ¬ (NamesNode (map cow_slice_items words.now) place)) }
{
    match words {
        [name, what, which] => {
            if !is_follow(name.as_slice()) {
                return None;
            }
            if !is_node(what.as_slice()) {
                return None;
            }
            Place::named(which.as_slice())
        }
        _ => None,
    }
}

/// Whether a word is a command's that names a master, in letters of either case.
fn is_follow(word: &[u8]) -> bool
    ensures { result ≡ is_follow word.now }
{
    word.eq_ignore_ascii_case(b"REPLICAOF") || word.eq_ignore_ascii_case(b"SLAVEOF")
}

/// Whether a word is the one that stands before the number of a node.
fn is_node(word: &[u8]) -> bool
    ensures { IsTrue result ↔ (word.now ≡ node_word) }
{
    word == NODE
}

/// The first of the words, and an address at the host of all three in the place of those behind it.
pub fn with_address<'a>(
    alloc: Global,
    mut words: Vec<CowSlice<'a, u8>>,
    port: u16,
) -> Result<Vec<CowSlice<'a, u8>>, AllocError>
    ensures { IfOk result (λ sent.
        map cow_slice_items sent.items ≡
        take 1 (map cow_slice_items words.entry.items) ++ host ∷ decimal port ∷ []) }
{
    let mut digits = Buffer::new();
    let port = Vec::from_slice(alloc, digits.format(port).as_bytes())?;
    words.truncate(1);
    words.push(CowSlice::Borrowed(HOST))?;
    words.push(CowSlice::Owned(port))?;
    Ok(words)
}
