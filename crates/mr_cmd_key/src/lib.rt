//! Commands on keys whatever they hold: their words, what is answered, and which effects they have.
#![tactic(auto)]

pub mod arguments;
mod counting;
mod expiring;
mod key_ask;
mod kinds;
mod listing;
mod option_law;
mod options;
mod parts;
mod planning;
mod renaming;

pub use key_ask::{Cursor, Databases, ExpireCondition, KeyAsk, KindName, Timing};
pub use option_law::options_stand_in_any_order;
pub use planning::plan;
