//! Effects: what writes do to a dataset, and their one spelling.
#![tactic(auto)]

mod deadline;
mod decoding;
mod effect;
mod encoding;
mod laws;
mod name;
mod reading;
mod words;

pub use deadline::{LAST_DEADLINE, is_deadline};
pub use decoding::decode;
pub use effect::Effect;
pub use encoding::{encode, encode_all};
pub use laws::{effects_are_command_texts, effects_are_told_apart, texts_come_in_parts};
pub use name::EffectName;
pub use words::{EffectPairs, EffectWords, Scores};
