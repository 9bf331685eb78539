ghost use Rattle.std.specs.Prelude.{◌↔◌, ◌+◌, ◌≤◌, IsTrue};
ghost use Rattle.mr_repl.specs.Standing.{IsAnswer, IsKnown};

use crate::Standing;

/// How a master answers a replica that asks to go on.
#[derive(Clone, Copy, Debug, PartialEq, Eq)]
pub enum PsyncAnswer {
    /// By a whole snapshot.
    Full,
    /// By the stream from this offset on.
    Continue(u64),
}

/// The answer to `PSYNC id wanted`, where `id` is the word as it was sent and `wanted` the offset of the first
/// byte asked for.
pub fn decide(id: &[u8], wanted: i64, standing: &Standing) -> PsyncAnswer
    ensures { IsAnswer result standing.now id.now wanted }
{
    let Ok(from) = u64::try_from(wanted) else {
        return PsyncAnswer::Full;
    };
    if is_held(from, standing) && is_known(id, from, standing) {
        PsyncAnswer::Continue(from)
    } else {
        PsyncAnswer::Full
    }
}

/// Whether the backlog holds the byte at this offset and all after it, or it is the next byte.
fn is_held(from: u64, standing: &Standing) -> bool
    ensures { IsTrue result ↔
        ((standing.now.first ≤ from) × (from ≤ standing.now.offset + 1)) }
{
    standing.first <= from && from.saturating_sub(1) <= standing.offset
}

/// Whether a stream under this id, up to the byte before this offset, is the node's own.
fn is_known(id: &[u8], from: u64, standing: &Standing) -> bool
    ensures { IsTrue result ↔ IsKnown standing.now id.now from }
{
    if id == standing.id.digits().as_slice() {
        return true;
    }
    match &standing.second {
        Some((second, limit)) => from <= *limit && id == second.digits().as_slice(),
        None => false,
    }
}
