//! What a dial is among histories, at once or in two events. No function here does anything: each is the law that it ensures.
ghost use Rattle.mr_world.specs.DialEvents.{AcceptsAreEvents, ConnectsAreEvents, DialsAreEvents};

/// A dial, as it is taken, is an event of histories.
pub fn dials_are_events()
    ensures { DialsAreEvents }
{}

/// So is a connect, as it is taken, and an accept, each by itself, and whatever happens between them.
pub fn connects_and_accepts_are_events()
    ensures connects { ConnectsAreEvents }
    ensures accepts { AcceptsAreEvents }
{}
