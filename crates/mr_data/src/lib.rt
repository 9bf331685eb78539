//! The dataset: keys with their values and deadlines, and what the effects do to it.
#![tactic(auto)]

mod dataset;
mod due;
mod given;
mod laws;
mod plan;
mod rebuilding;

pub use dataset::Dataset;
pub use due::DueKey;
pub use given::{Given, LAST_MOMENT};
pub use laws::{
    effects_come_in_parts, rebuilding_has_command_texts, rebuilding_makes_the_dataset,
    renaming_to_itself_changes_nothing, seen_is_what_is_not_expired, texts_are_set_in_order,
};
pub use mr_bytes::{End, Side};
pub use mr_effect::{Effect, EffectPairs, EffectWords, Scores, decode, encode, encode_all};
pub use mr_keyspace::{ApplyFault, Entry, Value};
pub use plan::Plan;
