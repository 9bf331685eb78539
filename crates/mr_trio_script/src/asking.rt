// What a line asks.
ghost use Rattle.std.specs.Prelude.{◌≡◌, ◌<◌, IfOk, IfSome, IfNone, drop, length, map};
ghost use Rattle.std.specs.Cow.{cow_slice_items};
ghost use Rattle.mr_trio_script.specs.Asking.{IsAsked, IsBehind, IsPlaced};
ghost use Rattle.mr_trio_script.specs.declared.place.Place.{Place as PlaceValue};

use crate::line::{ScriptLine, script_line};
use crate::place::Place;
use std::alloc::{AllocError, Global};
use std::borrow::CowSlice;

/// What a line asks.
#[derive(Drop)]
pub(crate) enum Asked<'a> {
    /// Nothing: it has no words.
    Nothing,
    /// The words behind the first are a request to the node that it names.
    Request {
        place: Place,
        words: Vec<CowSlice<'a, u8>>,
    },
    /// It is no line of a script.
    Bad,
}

/// Reads what a line asks, with its line feed.
pub(crate) fn read_asked<'a>(alloc: Global, line: &'a [u8]) -> Result<Asked<'a>, AllocError>
    ensures { IfOk result (λ it. IsAsked line.now it) }
{
    match script_line(alloc, line)? {
        ScriptLine::Blank => Ok(Asked::Nothing),
        ScriptLine::Bad => Ok(Asked::Bad),
        ScriptLine::Words(words) => Ok(request(words)),
    }
}

/// The request of these words.
fn request<'a>(words: Vec<CowSlice<'a, u8>>) -> Asked<'a>
    ensures { IsBehind (map cow_slice_items words.entry.items) result }
{
    let Some(place) = first_place(words.as_slice()) else {
        return Asked::Bad;
    };
    Asked::Request {
        place,
        words: behind_first(words),
    }
}

/// The words behind the first.
fn behind_first<'a>(mut words: Vec<CowSlice<'a, u8>>) -> Vec<CowSlice<'a, u8>>
    requires { 0 < length words.items }
    ensures { map cow_slice_items result.items ≡ drop 1 (map cow_slice_items words.entry.items) }
{
    let _number = words.remove(0);
    words
}

/// The node that the first word names, where there are others behind it.
fn first_place(words: &[CowSlice<'_, u8>]) -> Option<Place>
    ensures some { IfSome result (IsPlaced (map cow_slice_items words.now)) }
    ensures none { IfNone result ((place : PlaceValue) →
        ¬ (IsPlaced (map cow_slice_items words.now) place)) }
{
    match words {
        [first, _, ..] => Place::named(first.as_slice()),
        _ => None,
    }
}
