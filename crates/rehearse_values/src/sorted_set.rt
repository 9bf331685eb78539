//! Sorted sets.
use crate::kind::Kind;
use crate::step::Step;
use crate::telling::tell_before;
use mr_bytes::Bytes;
use mr_score::is_score;
use mr_zset::ZSet;
use rehearse_shared::{RehearsalFault, bytes_of, number_of, tell, tell_bytes, tell_shown};
use std::alloc::Global;

impl Kind for ZSet {
    fn make(
        &mut self,
        alloc: Global,
        step: Step<'_>,
        out: &mut Vec<u8>,
    ) -> Result<(), RehearsalFault> {
        match step.name {
            "put" => put(alloc, self, step, out),
            "min" => tell_pair(alloc, self.pop_min()?, out),
            "max" => tell_pair(alloc, self.pop_max()?, out),
            "pairs" => tell_pairs(alloc, self, out),
            _ => Err(RehearsalFault::Line),
        }
    }
}

/// Sets the score of a member, and tells the one before. Fails outside the limits of scores.
fn put(
    alloc: Global,
    set: &mut ZSet,
    step: Step<'_>,
    out: &mut Vec<u8>,
) -> Result<(), RehearsalFault> {
    let member = bytes_of(alloc, step.first)?;
    let score = number_of(step.second)?;
    if !is_score(score) {
        return Err(RehearsalFault::Line);
    }
    tell_before(alloc, set.put(member.as_slice(), score)?, out)
}

/// The pair that was taken, if one was.
fn tell_pair(
    alloc: Global,
    taken: Option<(Bytes, i64)>,
    out: &mut Vec<u8>,
) -> Result<(), RehearsalFault> {
    match taken {
        Some((member, score)) => {
            tell(out, "taken")?;
            tell_bytes(alloc, member.as_slice(), out)?;
            tell_shown(alloc, score, out)
        }
        None => tell(out, "none"),
    }
}

/// How many pairs there are, and each of them, in the order of their members' bytes.
fn tell_pairs(alloc: Global, set: &ZSet, out: &mut Vec<u8>) -> Result<(), RehearsalFault> {
    tell(out, "pairs")?;
    tell_shown(alloc, set.len(), out)?;
    for (member, score) in set.iter() {
        tell_bytes(alloc, member, out)?;
        tell_shown(alloc, *score, out)?;
    }
    Ok(())
}
