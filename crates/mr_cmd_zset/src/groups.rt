// Members in groups, each of which goes into one effect.
mod members;
mod scores;

pub use members::{MemberGroup, end_members};
pub use scores::{ScoreGroup, end_scores};

/// The most items of a group.
pub const MOST_ITEMS: usize = 64;
