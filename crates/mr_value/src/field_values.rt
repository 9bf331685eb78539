// The fields of a hash, and its values under their fields, in byte order.
ghost use Rattle.std.specs.Prelude.{◌≡◌, map};
ghost use Rattle.std.specs.Iterator.{YieldsFirstBy, YieldsFirstRef, item_count};
ghost use Rattle.mr_map.specs.Bytes.{deref_pair};
ghost use Rattle.mr_value.specs.Walks.{fields_left};

use crate::compact_bytes::CompactBytes;
use crate::named_values::NamedValues;
use mr_packed::TwoByTwo;
use std::marker::Model;

/// What finds the next field: packed pairs where there are few, and else the map by name.
#[derive(Drop)]
pub(crate) enum FieldWalk<'a> {
    Few(TwoByTwo<'a>),
    Many(NamedValues<'a, CompactBytes>),
}

/// The fields that are still to come with their values, seen as a list.
#[derive(Drop)]
pub struct FieldValues<'a> {
    walk: FieldWalk<'a>,
}

impl<'a> Model for FieldValues<'a> {
    ghost use Rattle.std.specs.Prelude.{ℕ, List};
    ghost use Rattle.mr_value.specs.Walks.{fields_left};

    ghost Value = { List (List ℕ × List ℕ) };

    ghost view = { λ a. fields_left a.walk };
}

impl<'a> FieldValues<'a> {
    /// The fields that a walk is still to give, with their values.
    pub(crate) fn new(walk: FieldWalk<'a>) -> Self
        ensures { result ≡ fields_left walk.entry }
    {
        FieldValues { walk }
    }
}

impl<'a> Iterator for FieldValues<'a> {
    type Item = (&'a [u8], &'a [u8]);

    ghost next_gives = { YieldsFirstBy deref_pair (λ s. s) };

    ghost remaining = { item_count (λ s. s) };

    fn next(&mut self) -> Option<(&'a [u8], &'a [u8])> {
        match &mut self.walk {
            FieldWalk::Few(pairs) => pairs.next(),
            FieldWalk::Many(named) => match named.next() {
                Some((field, value)) => Some((field, value.as_slice())),
                None => None,
            },
        }
    }
}

/// The fields that are still to come, seen as a list.
#[derive(Drop)]
pub struct Fields<'a> {
    values: FieldValues<'a>,
}

impl<'a> Model for Fields<'a> {
    ghost use Rattle.std.specs.Prelude.{ℕ, List, map};

    ghost Value = { List (List ℕ) };

    ghost view = { λ a. map (λ e. e.0) a.values };
}

impl<'a> Fields<'a> {
    /// The fields of what is still to come.
    pub(crate) fn new(values: FieldValues<'a>) -> Self
        ensures { result ≡ map (λ e. e.0) values.entry }
    {
        Fields { values }
    }
}

impl<'a> Iterator for Fields<'a> {
    type Item = &'a [u8];

    ghost next_gives = { YieldsFirstRef (λ s. s) };

    ghost remaining = { item_count (λ s. s) };

    fn next(&mut self) -> Option<&'a [u8]> {
        match self.values.next() {
            Some((field, _)) => Some(field),
            None => None,
        }
    }
}
