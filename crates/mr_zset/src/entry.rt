// A pair as a sorted set keeps it.

use mr_value::CompactBytes;

/// A member with its score, which owns its bytes: few of them lie in it. Entries are in the order of pairs.
#[derive(PartialEq, Eq, PartialOrd, Ord, Drop)]
pub(crate) struct Entry {
    pub score: i64,
    pub member: CompactBytes,
}
