// The members of a small sorted set with their scores, in byte order.
ghost use Rattle.std.specs.Prelude.{◌≡◌};
ghost use Rattle.std.specs.FinMap.{entries};
ghost use Rattle.std.specs.Iterator.{YieldsFirstBy, item_count};
ghost use Rattle.mr_map.specs.Bytes.{deref_pair};
ghost use Rattle.mr_zset.specs.Stored.{scores_of};

use crate::entry::Entry;
use crate::scan::first_behind;
use mr_order::Ordered;
use std::marker::Model;

/// The members that are still to come with their scores, seen as a list. Each is found by a scan, so that it takes no memory.
#[derive(Drop)]
pub(crate) struct FewScores<'a> {
    pairs: &'a Ordered<Entry>,
    last: Option<&'a [u8]>,
}

impl<'a> Model for FewScores<'a> {
    ghost use Rattle.std.specs.Prelude.{ℕ, ℤ, List, option_copied};
    ghost use Rattle.std.specs.FinMap.{entries};
    ghost use Rattle.mr_zset.specs.Few.{behind};
    ghost use Rattle.mr_zset.specs.Stored.{scores_of};

    ghost Value = { List (List ℕ × ℤ) };

    ghost view = { λ a. behind (option_copied a.last) (entries (scores_of a.pairs.now)) };
}

impl<'a> FewScores<'a> {
    /// All members with their scores.
    pub(crate) fn new(pairs: &'a Ordered<Entry>) -> Self
        ensures { result ≡ entries (scores_of pairs.now) }
    {
        FewScores { pairs, last: None }
    }
}

impl<'a> Iterator for FewScores<'a> {
    type Item = (&'a [u8], &'a i64);

    ghost next_gives = { YieldsFirstBy deref_pair (λ s. s) };

    ghost remaining = { item_count (λ s. s) };

    fn next(&mut self) -> Option<(&'a [u8], &'a i64)> {
        let entry = first_behind(self.pairs, self.last)?;
        let member = entry.member.as_slice();
        self.last = Some(member);
        Some((member, &entry.score))
    }
}
