// What the nodes are given from outside.
ghost use Rattle.std.specs.Prelude.{◌≡◌, ◌≢◌, ◌≤◌, ◌≤ℤ◌, pos};
ghost use Rattle.mr_repl.specs.ReplId.{id_of_number, zero_id};
ghost use Rattle.mr_data.specs.Given.{IsMoment};
ghost use Rattle.mr_source.specs.Drawn.{drawn_at};
ghost use Rattle.mr_trio.specs.Numbers.{plus};

use mr_repl::ReplId;
use mr_source::Source;

/// A clock that stands at 0, words that are all 0, and ids by their numbers. In a turn each id is that of the next number, from the
/// first on that no turn before has used.
#[derive(Drop)]
pub(crate) struct NumberedSource {
    /// The first number that no turn has used.
    next: u64,
    /// How many ids were drawn since the turn began.
    drawn: u64,
    ghost some: { 1 ≤ next },
}

impl NumberedSource {
    /// No number is used yet.
    pub(crate) fn new() -> NumberedSource
        ensures next { result.next ≡ 1 }
        ensures drawn { result.drawn ≡ 0 }
    {
        NumberedSource { next: 1, drawn: 0 }
    }

    /// A turn ended that used so many of the ids that were drawn in it: those behind them are drawn again.
    pub(crate) fn end_turn(&mut self, used: u64)
        ensures next { self.new.next ≡ plus self.old.next used }
        ensures drawn { self.new.drawn ≡ 0 }
    {
        self.next = self.next.saturating_add(used);
        self.drawn = 0;
    }
}

impl Source for NumberedSource {
    /// In the next turn ids are drawn again that a turn didn't use: it tells none.
    ghost drawn = { λ _. drawn_at (pos 0) };

    fn now(&mut self) -> i64
        ensures moment { IsMoment result }
        ensures zero { result ≡ pos 0 }
        ensures forward { pos 0 ≤ℤ result }
        ensures drawn { drawn_at (pos 0) ≡ drawn_at result }
        ensures same { self.new ≡ self.old }
    {
        0
    }

    fn word(&mut self) -> u64
        ensures zero { result ≡ 0 }
        ensures same { self.new ≡ self.old }
    {
        0
    }

    fn id(&mut self) -> ReplId
        ensures some { result ≢ zero_id }
        ensures id { result ≡ id_of_number (plus self.old.next self.old.drawn) }
        ensures next { self.new.next ≡ self.old.next }
        ensures drawn { self.new.drawn ≡ plus self.old.drawn 1 }
    {
        let number = self.next.saturating_add(self.drawn);
        self.drawn = self.drawn.saturating_add(1);
        ReplId::numbered(number)
    }
}
