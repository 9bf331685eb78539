//! Patterns over byte strings, as KEYS and SCAN take them.
#![tactic(auto)]

mod pattern;

pub use pattern::{
    any_bytes_match, glob, parts_match_in_turn, plain_bytes_match_themselves,
    ranges_match_either_way, taken_bytes_match_themselves,
};
