// The members of a sorted set with their scores, in byte order.
ghost use Rattle.std.specs.Prelude.{◌≡◌};
ghost use Rattle.std.specs.Iterator.{YieldsFirstBy, item_count};
ghost use Rattle.mr_map.specs.Bytes.{deref_pair};
ghost use Rattle.mr_zset.specs.Walks.{left_of};

use crate::few_scores::FewScores;
use mr_value::NamedValues;
use std::marker::Model;

/// What finds the next member: nothing where there is none, scans where there are few, and else the map by name.
#[derive(Drop)]
pub(crate) enum Walk<'a> {
    Nobody,
    Few(FewScores<'a>),
    Named(NamedValues<'a, i64>),
}

/// The members that are still to come with their scores, seen as a list.
#[derive(Drop)]
pub struct MemberScores<'a> {
    walk: Walk<'a>,
}

impl<'a> Model for MemberScores<'a> {
    ghost use Rattle.std.specs.Prelude.{ℕ, ℤ, List};
    ghost use Rattle.mr_zset.specs.Walks.{left_of};

    ghost Value = { List (List ℕ × ℤ) };

    ghost view = { λ a. left_of a.walk };
}

impl<'a> MemberScores<'a> {
    /// The members that a walk is still to give, with their scores.
    pub(crate) fn new(walk: Walk<'a>) -> Self
        ensures { result ≡ left_of walk.entry }
    {
        MemberScores { walk }
    }
}

impl<'a> Iterator for MemberScores<'a> {
    type Item = (&'a [u8], &'a i64);

    ghost next_gives = { YieldsFirstBy deref_pair (λ s. s) };

    ghost remaining = { item_count (λ s. s) };

    fn next(&mut self) -> Option<(&'a [u8], &'a i64)> {
        match &mut self.walk {
            Walk::Nobody => None,
            Walk::Few(scores) => scores.next(),
            Walk::Named(scores) => scores.next(),
        }
    }
}
