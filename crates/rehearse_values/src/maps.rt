//! Maps under byte keys.
use crate::kind::Kind;
use crate::step::Step;
use crate::telling::{tell_before, tell_whether};
use mr_map::{KeyedMap, SliceMap};
use rehearse_shared::{RehearsalFault, bytes_of, count_of};
use std::alloc::Global;

impl Kind for KeyedMap<u64> {
    fn make(
        &mut self,
        alloc: Global,
        step: Step<'_>,
        out: &mut Vec<u8>,
    ) -> Result<(), RehearsalFault> {
        match step.name {
            "insert" => {
                let key = bytes_of(alloc, step.first)?;
                tell_before(alloc, self.insert(key, count_of(step.second)?)?, out)
            }
            "empty" => tell_whether(out, self.is_empty(), "empty", "not empty"),
            _ => Err(RehearsalFault::Line),
        }
    }
}

// Its one key is the letter k, which outlives every map.
impl Kind for SliceMap<'static, u64> {
    fn make(
        &mut self,
        alloc: Global,
        step: Step<'_>,
        out: &mut Vec<u8>,
    ) -> Result<(), RehearsalFault> {
        match step.name {
            "insert" => tell_before(alloc, self.insert(b"k", count_of(step.first)?)?, out),
            "empty" => tell_whether(out, self.is_empty(), "empty", "not empty"),
            _ => Err(RehearsalFault::Line),
        }
    }
}
