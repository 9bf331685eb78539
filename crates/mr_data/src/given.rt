// What a step is given from outside.
ghost use Rattle.std.specs.Prelude.{◌≡◌, ◌↔◌, IsSome, IfSome, IsTrue};
ghost use Rattle.mr_data.specs.Given.{IsMoment};

/// What a step is given from outside: the clock and chance.
#[derive(Clone, Copy)]
pub struct Given {
    now: i64,
    word: u64,
    pub ghost in_range: { IsMoment now },
}

/// No moment is later, in milliseconds.
pub const LAST_MOMENT: i64 = 1 << 61;

impl Given {
    /// A moment in milliseconds, from 0 to the last one, and a random word.
    pub fn new(now: i64, word: u64) -> Option<Given>
        ensures valid { IsSome result ↔ IsMoment now }
        ensures now { IfSome result (λ given. given.now ≡ now) }
        ensures word { IfSome result (λ given. given.word ≡ word) }
    {
        if now < 0 || now > LAST_MOMENT {
            return None;
        }
        Some(Given { now, word })
    }

    /// The moment of the step, in milliseconds.
    pub fn now(self) -> i64
        ensures now { result ≡ self.now }
        ensures in_range { IsMoment result }
    {
        self.now
    }

    /// A random word.
    pub fn word(self) -> u64
        ensures { result ≡ self.word }
    {
        self.word
    }
}
