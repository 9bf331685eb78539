//! Who may go on from where a node stands.
use crate::kind::{Kind, play};
use crate::step::Step;
use mr_repl::{PsyncAnswer, ReplId, Standing, decide};
use rehearse_shared::{RehearsalFault, count_of, id_of, number_of, tell, tell_shown};
use std::alloc::Global;

/// Where a node stands: at first under the id of zeros, before any byte.
#[derive(Drop)]
struct Place {
    standing: Standing,
}

/// Plays steps on a place.
pub fn play_place(alloc: Global, steps: &str, out: &mut Vec<u8>) -> Result<(), RehearsalFault> {
    let standing = Standing {
        id: ReplId::zeros(),
        offset: 0,
        second: None,
        first: 1,
    };
    play(alloc, Place { standing }, steps, out)
}

impl Kind for Place {
    fn make(
        &mut self,
        alloc: Global,
        step: Step<'_>,
        out: &mut Vec<u8>,
    ) -> Result<(), RehearsalFault> {
        match step.name {
            "stands" => {
                self.standing.id = id_of(step.first)?;
                self.standing.offset = count_of(step.second)?;
                self.standing.first = count_of(step.third)?;
                tell(out, "stands")
            }
            "second" => {
                self.standing.second = Some((id_of(step.first)?, count_of(step.second)?));
                tell(out, "stands")
            }
            "asks" => ask(alloc, &self.standing, step, out),
            _ => Err(RehearsalFault::Line),
        }
    }
}

/// How a replica is answered that asks, under the id that a text is, from an offset on.
fn ask(
    alloc: Global,
    standing: &Standing,
    step: Step<'_>,
    out: &mut Vec<u8>,
) -> Result<(), RehearsalFault> {
    let answer = decide(step.first.as_bytes(), number_of(step.second)?, standing);
    tell_answer(alloc, answer, out)
}

/// How a replica is answered that asks to go on.
pub fn tell_answer(
    alloc: Global,
    answer: PsyncAnswer,
    out: &mut Vec<u8>,
) -> Result<(), RehearsalFault> {
    match answer {
        PsyncAnswer::Full => tell(out, "full"),
        PsyncAnswer::Continue(from) => {
            tell(out, "continue")?;
            tell_shown(alloc, from, out)
        }
    }
}
