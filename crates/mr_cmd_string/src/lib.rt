//! Commands on strings: their words, what is answered, and which effects they have.
#![tactic(auto)]

pub mod arguments;
mod changing;
mod deadlines;
mod option_law;
mod options;
mod parts;
mod planning;
mod replies;
mod sequels;
mod setting;
mod setting_all;
mod text_ask;
mod texts;

pub use option_law::options_stand_in_any_order;
pub use planning::plan;
pub use sequels::{
    mget_is_get_of_each, mset_has_an_effect_no_longer_than_it, what_is_appended_is_read,
    what_is_increased_is_read, what_is_put_at_an_offset_is_read,
};
pub use text_ask::{Amount, Lifetime, SetCondition, SetReply, TextAsk};
