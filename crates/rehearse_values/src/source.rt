//! What the system gives.
use crate::ids::tell_id;
use crate::kind::Kind;
use crate::step::Step;
use mr_source::{Source, SystemSource};
use rehearse_shared::{RehearsalFault, tell, tell_shown};
use std::alloc::Global;

impl Kind for SystemSource {
    fn make(
        &mut self,
        alloc: Global,
        step: Step<'_>,
        out: &mut Vec<u8>,
    ) -> Result<(), RehearsalFault> {
        match step.name {
            "now" => {
                tell(out, "now")?;
                tell_shown(alloc, self.now(), out)
            }
            "word" => {
                tell(out, "word")?;
                tell_shown(alloc, self.word(), out)
            }
            "id" => tell_id(alloc, self.id(), out),
            _ => Err(RehearsalFault::Line),
        }
    }
}
