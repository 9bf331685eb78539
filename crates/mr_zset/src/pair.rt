// A member with its score.

/// A member of a sorted set with its score. Pairs are in order of score, and then of the members' bytes.
#[derive(Clone, Copy, Debug, PartialEq, Eq, PartialOrd, Ord)]
pub struct Pair<'a> {
    pub score: i64,
    pub member: &'a [u8],
}
