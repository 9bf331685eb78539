// What the steps of a turn are given, and what was counted in it so far.
ghost use Rattle.std.specs.Prelude.{◌≡◌, ◌≤ℤ◌, ◌+◌};
ghost use Rattle.mr_source.specs.Drawn.{with_id, with_moment};
ghost use Rattle.mr_loop.specs.Counting.{counted, heard_if, nothing_counted};

use crate::followed::News;
use crate::told::Turn;
use mr_data::Given;
use mr_repl::ReplId;
use mr_source::Source;

/// An id that was never drawn before, and what was counted in the turn so far.
#[derive(Drop)]
pub(crate) struct Moment {
    /// When the turn began, in milliseconds.
    pub(crate) begun: i64,
    fresh: ReplId,
    turn: Turn,
}

impl Moment {
    /// A turn begins: nothing is counted yet.
    pub(crate) fn begun<S: Source>(source: &mut S) -> Moment
        ensures turn { result.turn ≡ nothing_counted }
        ensures forward { (S.drawn source.old).clock ≤ℤ result.begun }
        ensures drawn { S.drawn source.new ≡
            with_moment result.begun (with_id result.fresh (S.drawn source.old)) }
    {
        let fresh = source.id();
        let begun = source.now();
        let turn = Turn::begun();
        Moment { begun, fresh, turn }
    }

    /// The id that the next step may take.
    pub(crate) fn fresh(&self) -> ReplId
        ensures { result ≡ self.now.fresh }
    {
        self.fresh
    }

    /// What was counted.
    pub(crate) fn turn(&self) -> Turn
        ensures { result ≡ self.now.turn }
    {
        self.turn
    }

    /// The fresh id was taken: that is counted, and there is another.
    pub(crate) fn renew(&mut self, fresh: ReplId)
        ensures turn { self.new.turn ≡
            record self.old.turn { used = counted (self.old.turn.used + 1) } }
        ensures fresh { self.new.fresh ≡ fresh }
    {
        self.turn.count_id();
        self.fresh = fresh;
    }

    /// Counts a step that the node is asked for.
    pub(crate) fn count_step(&mut self)
        ensures turn { self.new.turn ≡
            record self.old.turn { steps = counted (self.old.turn.steps + 1) } }
        ensures fresh { self.new.fresh ≡ self.old.fresh }
    {
        self.turn.count_step();
    }

    /// Counts that such a step used something.
    pub(crate) fn count_use(&mut self)
        ensures turn { self.new.turn ≡
            record self.old.turn { done = counted (self.old.turn.done + 1) } }
        ensures fresh { self.new.fresh ≡ self.old.fresh }
    {
        self.turn.count_use();
    }

    /// Counts what a step came to between a replica and its master, if there is something.
    pub(crate) fn hear(&mut self, news: Option<News>)
        ensures turn { self.new.turn ≡
            record self.old.turn { followed = heard_if news self.old.turn.followed } }
        ensures fresh { self.new.fresh ≡ self.old.fresh }
    {
        self.turn.hear(news);
    }

    /// Counts a client that is given up since it left too much unread.
    pub(crate) fn count_deaf(&mut self)
        ensures turn { self.new.turn ≡
            record self.old.turn { deaf = counted (self.old.turn.deaf + 1) } }
        ensures fresh { self.new.fresh ≡ self.old.fresh }
    {
        self.turn.count_deaf();
    }
}

/// What a step or a tick is given: the time at which it is made, and a random word.
pub(crate) fn given<S: Source>(source: &mut S) -> Given
    ensures forward { (S.drawn source.old).clock ≤ℤ result.now }
    ensures drawn { S.drawn source.new ≡ with_moment result.now (S.drawn source.old) }
{
    let now = source.now();
    match Given::new(now, source.word()) {
        Some(given) => given,
        None => unreachable!(),
    }
}
