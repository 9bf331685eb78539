// What a replica says of itself, as it stands in a request.
ghost use Rattle.std.specs.Prelude.{◌≡◌, map};
ghost use Rattle.std.specs.Cow.{cow_slice_items};
ghost use Rattle.std.specs.Iterator.{YieldsFirstBy, item_count};
ghost use Rattle.mr_cmd_node.specs.Options.{all_tell, read_told, told_by};

use crate::node_ask::ReplicaOption;
use std::borrow::CowSlice;
use std::marker::Model;

/// What a replica says of itself: options with their values, seen as a list. They stay where they lie.
#[derive(Drop)]
pub struct Told<'a, 't> {
    words: &'a [CowSlice<'t, u8>],
}

impl<'a, 't> Model for Told<'a, 't> {
    ghost use Rattle.std.specs.Prelude.{ℕ, List, map};
    ghost use Rattle.std.specs.Cow.{cow_slice_items};
    ghost use Rattle.mr_cmd_node.specs.Options.{told};
    ghost use Rattle.mr_cmd_node.specs.declared.node_ask.ReplicaOption.{ReplicaOption};

    ghost Value = { List (ReplicaOption × List ℕ) };

    ghost view = { λ a. told (map cow_slice_items a.words.now) };
}

impl<'a, 't> Told<'a, 't> {
    /// These words as options with their values, if each option is one and no word is left over.
    pub fn of(words: &'a [CowSlice<'t, u8>]) -> Option<Told<'a, 't>>
        ensures { result ≡ told_by (map cow_slice_items words.now) }
    {
        if all_tell(words) {
            Some(Told { words })
        } else {
            None
        }
    }

    /// The options with their values, in the order of the request.
    pub fn iter(&self) -> ToldIter<'a, 't>
        ensures { result ≡ self.now }
    {
        ToldIter { words: self.words }
    }
}

/// Whether the words are options, each with a value.
fn all_tell(words: &[CowSlice<'_, u8>]) -> bool
    ensures { result ≡ all_tell (map cow_slice_items words.now) }
{
    let mut left = words;
    while let [option, _value, rest @ ..] = left {
        if ReplicaOption::of(option.as_slice()).is_none() {
            return false;
        }
        left = rest;
    }
    left.is_empty()
}

/// The options that are still to come, with their values, seen as a list.
#[derive(Drop)]
pub struct ToldIter<'a, 't> {
    words: &'a [CowSlice<'t, u8>],
}

impl<'a, 't> Model for ToldIter<'a, 't> {
    ghost use Rattle.std.specs.Prelude.{ℕ, List, map};
    ghost use Rattle.std.specs.Cow.{cow_slice_items};
    ghost use Rattle.mr_cmd_node.specs.Options.{told};
    ghost use Rattle.mr_cmd_node.specs.declared.node_ask.ReplicaOption.{ReplicaOption};

    ghost Value = { List (ReplicaOption × List ℕ) };

    ghost view = { λ a. told (map cow_slice_items a.words.now) };
}

impl<'a, 't> Iterator for ToldIter<'a, 't> {
    type Item = (ReplicaOption, &'a [u8]);

    ghost next_gives = { YieldsFirstBy read_told (λ s. s) };

    ghost remaining = { item_count (λ s. s) };

    fn next(&mut self) -> Option<(ReplicaOption, &'a [u8])> {
        match self.words {
            [option, value, rest @ ..] => {
                let option = ReplicaOption::of(option.as_slice())?;
                self.words = rest;
                Some((option, value.as_slice()))
            }
            _ => None,
        }
    }
}
