//! The options of commands on sorted sets, which stand in any order, with the scores and bounds beside them.
#![tactic(auto)]

mod add_options;
mod choices;
mod laws;
mod parts;
mod range_options;
mod scored;

pub use add_options::{AddOption, AddOptions, cut_options};
pub use choices::{Comparison, Limit, Order, RangeReply, ScoreCondition, ScoresReply};
pub use laws::{options_stand_in_any_order, range_options_are_read};
pub use parts::{bound, bounds, limit_if_any, score};
pub use range_options::{LimitWords, RangeBy, RangeOption, RangeOptions};
pub use scored::{ScoredMembers, ScoredMembersIter};
