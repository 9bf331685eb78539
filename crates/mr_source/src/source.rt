ghost use Rattle.std.specs.Prelude.{◌≡◌, ◌≢◌, ◌≤ℤ◌};
ghost use Rattle.mr_repl.specs.ReplId.{zero_id};
ghost use Rattle.mr_data.specs.Given.{IsMoment};
ghost use Rattle.mr_source.specs.Drawn.{DrawnState, with_id, with_moment};

use mr_repl::ReplId;

/// What a node is given from outside.
pub trait Source {
    /// The moment that it told last, and, of one that tells them, the moments and the ids that it gave, in order.
    ghost drawn: { Self → DrawnState };

    /// The time in milliseconds since the beginning of 1970, from 0 to 2^61. It never goes back.
    fn now(&mut self) -> i64
        ensures moment { IsMoment result }
        ensures forward { (drawn self.old).clock ≤ℤ result }
        ensures drawn { drawn self.new ≡ with_moment result (drawn self.old) };

    /// A word of chance.
    fn word(&mut self) -> u64
        ensures { drawn self.new ≡ drawn self.old };

    /// An id for a stream, which isn't that of zeros. That it was never drawn before is left to chance.
    fn id(&mut self) -> ReplId
        ensures some { result ≢ zero_id }
        ensures drawn { drawn self.new ≡ with_id result (drawn self.old) };
}
