ghost use Rattle.std.specs.Prelude.{◌≡◌};
ghost use Rattle.mr_wire.specs.Wire.{WaitsOnce};

/// How often a wire was asked to wait, up to the greatest count, and for how many milliseconds last.
#[derive(Clone, Copy, Debug, PartialEq, Eq)]
pub struct Waited {
    pub times: u64,
    pub millis: u64,
}

impl Waited {
    /// It wasn't asked yet.
    pub(crate) fn never() -> Waited
        ensures times { result.times ≡ 0 }
    {
        Waited {
            times: 0,
            millis: 0,
        }
    }

    /// It is asked once more, for so many milliseconds.
    pub(crate) fn once_more(&mut self, millis: u64)
        ensures { WaitsOnce millis self.old self.new }
    {
        self.times = self.times.saturating_add(1);
        self.millis = millis;
    }
}
