//! The collections that a key may hold: lists, hashes and sets, and what they are made of.
#![tactic(auto)]

mod by_name;
mod compact_bytes;
mod few_fields;
mod field_values;
mod hash;
mod items;
mod kept_fields;
mod laws;
mod list_value;
mod matching;
mod members;
mod named;
mod named_values;
mod removing;
mod room;
mod set_value;

pub use by_name::ByName;
pub use compact_bytes::CompactBytes;
pub use field_values::{FieldValues, Fields};
pub use hash::Hash;
pub use items::Items;
pub use laws::{removals_mirrored, uniform_lists};
pub use list_value::ListValue;
pub use members::Members;
pub use named_values::NamedValues;
pub use set_value::SetValue;
