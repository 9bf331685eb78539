//! Commands on sorted sets: their words, what is answered, and which effects they have.
#![tactic(auto)]

mod adding;
pub mod arguments;
mod grouping;
mod groups;
mod place_law;
mod planning;
mod ranges;
mod removing;
mod replies;
mod rules;
mod telling;
mod zset_ask;

pub use place_law::members_stand_at_their_places;
pub use planning::plan;
pub use zset_ask::ZSetAsk;
