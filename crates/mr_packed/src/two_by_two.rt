// The pairs that are still to come.
ghost use Rattle.std.specs.Prelude.{◌≡◌};
ghost use Rattle.std.specs.Iterator.{YieldsFirstBy, YieldsLastBy, item_count};
ghost use Rattle.mr_packed.specs.Pairs.{ArePairs, pairs_in, read_both};

use crate::strings::Strings;
use std::marker::Model;

/// The pairs that are still to come, seen as a list.
#[derive(Drop)]
pub struct TwoByTwo<'a> {
    strings: Strings<'a>,
}

impl<'a> Model for TwoByTwo<'a> {
    ghost use Rattle.std.specs.Prelude.{ℕ, List};
    ghost use Rattle.mr_packed.specs.Pairs.{ArePairs, pairs_in};

    ghost Value = { List (List ℕ × List ℕ) };

    ghost view = { λ p. pairs_in p.strings };

    ghost invariant = { λ p. ArePairs p.strings };
}

impl<'a> TwoByTwo<'a> {
    /// The pairs that strings are.
    pub(crate) fn new(strings: Strings<'a>) -> Self
        requires { ArePairs strings }
        ensures { result ≡ pairs_in strings.entry }
    {
        TwoByTwo { strings }
    }
}

impl<'a> Iterator for TwoByTwo<'a> {
    type Item = (&'a [u8], &'a [u8]);

    ghost next_gives = { YieldsFirstBy read_both (λ s. s) };

    ghost remaining = { item_count (λ s. s) };

    fn next(&mut self) -> Option<(&'a [u8], &'a [u8])> {
        let first = self.strings.next()?;
        let second = self.strings.next()?;
        Some((first, second))
    }
}

impl<'a> DoubleEndedIterator for TwoByTwo<'a> {
    ghost next_back_gives = { YieldsLastBy read_both (λ s. s) };

    fn next_back(&mut self) -> Option<(&'a [u8], &'a [u8])> {
        let second = self.strings.next_back()?;
        let first = self.strings.next_back()?;
        Some((first, second))
    }
}
