//! Commands on hashes: their words, what is answered, and which effects they have.
#![tactic(auto)]

pub mod arguments;
mod groups;
mod hash_ask;
mod planning;
mod reading;
mod removing;
mod replies;
mod sequels;
mod setting;

pub use hash_ask::{FieldsReply, HashAsk, HashPart};
pub use planning::plan;
pub use sequels::{
    hmget_is_hget_of_each, what_is_increased_is_read, what_is_removed_is_counted,
    what_is_set_is_counted_and_read,
};
