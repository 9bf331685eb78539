// What the options of commands on sorted sets choose.

/// Which members a score is set for.
#[derive(Clone, Copy, Debug, PartialEq, Eq)]
pub enum ScoreCondition {
    /// One that isn't there (`NX`).
    Absent,
    /// One that is there (`XX`).
    Present,
}

/// Which score takes the place of the one that is there.
#[derive(Clone, Copy, Debug, PartialEq, Eq)]
pub enum Comparison {
    /// A greater one (`GT`).
    Greater,
    /// A lesser one (`LT`).
    Less,
}

/// What is counted where scores were set.
#[derive(Clone, Copy, Debug, PartialEq, Eq)]
pub enum ScoresReply {
    /// The members that are new.
    Added,
    /// Those, and the members whose scores changed (`CH`).
    Changed,
}

/// The order in which pairs stand.
#[derive(Clone, Copy, Debug, PartialEq, Eq)]
pub enum Order {
    /// The least pair first.
    Ascending,
    /// The greatest pair first.
    Descending,
}

/// What a range answers of its pairs.
#[derive(Clone, Copy, Debug, PartialEq, Eq)]
pub enum RangeReply {
    Members,
    /// Each member, and behind it its score.
    WithScores,
}

/// The part of a range that is answered.
#[derive(Clone, Copy, Debug, PartialEq, Eq)]
pub struct Limit {
    /// How many pairs are passed over. Below 0 none is answered.
    pub offset: i64,
    /// How many pairs are answered at most. Below 0 all are.
    pub count: i64,
}
