//! What waits to be sent on a link.
use crate::kind::Kind;
use crate::step::Step;
use crate::telling::tell_whether;
use mr_unsent::Unsent;
use rehearse_shared::{RehearsalFault, bytes_of, count_of, tell, tell_bytes, tell_shown};
use std::alloc::Global;
use std::rc::Rc;

/// No more zeros wait by one step.
const MOST: u64 = 1 << 30;

impl Kind for Unsent {
    fn make(
        &mut self,
        alloc: Global,
        step: Step<'_>,
        out: &mut Vec<u8>,
    ) -> Result<(), RehearsalFault> {
        match step.name {
            "push" => {
                let bytes = bytes_of(alloc, step.first)?;
                push(self, bytes.as_slice(), out)
            }
            "fill" => fill(alloc, self, step, out),
            "advance" => advance(self, step, out),
            "clear" => {
                self.clear();
                tell(out, "cleared")
            }
            "share" => {
                let text = bytes_of(alloc, step.first)?;
                self.push_shared(Rc::new(alloc, text)?)?;
                tell(out, "shared")
            }
            "front" => {
                tell(out, "front")?;
                tell_bytes(alloc, self.front(), out)
            }
            "shows" => tell_length(alloc, self, out),
            _ => Err(RehearsalFault::Line),
        }
    }
}

/// Puts bytes behind what waits.
fn push(unsent: &mut Unsent, bytes: &[u8], out: &mut Vec<u8>) -> Result<(), RehearsalFault> {
    unsent.push(bytes)?;
    tell(out, "pushed")
}

/// Puts so many zeros behind what waits.
fn fill(
    alloc: Global,
    unsent: &mut Unsent,
    step: Step<'_>,
    out: &mut Vec<u8>,
) -> Result<(), RehearsalFault> {
    let count = count_of(step.first)?;
    if count > MOST {
        return Err(RehearsalFault::Line);
    }
    let zeros = Vec::from_elem(alloc, 0u8, count as usize)?;
    push(unsent, zeros.as_slice(), out)
}

/// So many bytes were sent. Fails where fewer wait.
fn advance(unsent: &mut Unsent, step: Step<'_>, out: &mut Vec<u8>) -> Result<(), RehearsalFault> {
    let count = count_of(step.first)? as usize;
    if count > 0 && !unsent.is_more_than(count - 1) {
        return Err(RehearsalFault::Line);
    }
    unsent.advance(count);
    tell(out, "advanced")
}

/// How many bytes are in front, whether none waits, and whether more wait than a client may leave unread.
fn tell_length(alloc: Global, unsent: &Unsent, out: &mut Vec<u8>) -> Result<(), RehearsalFault> {
    tell(out, "shows")?;
    tell_shown(alloc, unsent.front().len(), out)?;
    tell_whether(out, unsent.is_empty(), " empty", "")?;
    tell_whether(out, unsent.is_too_much(), " too much", "")
}
