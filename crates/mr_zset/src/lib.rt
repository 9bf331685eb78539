//! Sorted sets: each member once, with a whole number as its score. A set is a finite map from member to score, and its
//! pairs stand in order of score and then of the members' bytes.
#![tactic(auto)]

mod bound;
mod by_score;
mod entry;
mod few_scores;
mod laws;
mod leaving;
mod member_scores;
mod names;
mod pair;
mod query;
mod ranked;
mod scan;
mod sorted_set;
mod stored;

pub use bound::{Bound, read_bound};
pub use laws::{all_pairs_in_order, bound_texts};
pub use member_scores::MemberScores;
pub use mr_order::Steps;
pub use pair::Pair;
pub use sorted_set::ZSet;
