// Fields in groups, each of which goes into one effect.
mod fields;
mod pairs;

pub use fields::{FieldGroup, end_fields};
pub use pairs::{PairGroup, end_pairs};

/// The most items of a group.
pub const MOST_ITEMS: usize = 64;
