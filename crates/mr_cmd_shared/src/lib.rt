//! What planners of commands share: the keys that a command names, the live entries there, and effects that own their words.
#![tactic(auto)]

mod choosing;
mod effects;
mod looking;
mod replies;
mod sequels;
mod taken;

pub use choosing::{expired_keys_stand_once, items_are_cut_in_groups};
pub use effects::Effects;
pub use looking::{is_all_live, look, push_dels, see};
pub use replies::{bulk, count, done, integer, wrong_kind};
pub use sequels::what_is_left_is_seen;
