//! Groups of effects: all of one or nothing, in a stream, in a file and on a dataset. In a file notes may stand between them.
#![tactic(auto)]

mod applying;
mod encoding;
mod front;
mod laws;
mod loading;
mod note;
mod owning;
mod part;
mod reader;
mod reading;
mod replay;
mod replaying;
mod trying;

pub use applying::{GroupFault, apply_group, apply_group_owned};
pub use encoding::{FRAME, encode_group, exec_text, multi_text};
pub use front::Rest;
pub use laws::{
    answer_is_one, groups_are_told_apart, notes_do_nothing, reading_goes_on,
    single_effects_are_groups, torn_groups_do_nothing,
};
pub use loading::{Loaded, load_groups};
pub use part::begins_frame;
pub use reader::Reader;
pub use reading::{Next, next_group};
pub use replay::GroupReplay;
pub use replaying::{Halt, Replayed, replay_front};
pub use trying::{Tried, try_words};
