//! Lists.
use crate::kind::Kind;
use crate::step::Step;
use crate::telling::tell_whether;
use mr_bytes::Bytes;
use mr_value::{CompactBytes, ListValue};
use rehearse_shared::{RehearsalFault, bytes_of, tell, tell_bytes};
use std::alloc::Global;

impl Kind for ListValue {
    fn make(
        &mut self,
        alloc: Global,
        step: Step<'_>,
        out: &mut Vec<u8>,
    ) -> Result<(), RehearsalFault> {
        match step.name {
            "push" => push(alloc, self, step, out),
            "before" => insert_before(alloc, self, step, out),
            "after" => insert_after(alloc, self, step, out),
            "items" => tell_items(alloc, self, out),
            _ => Err(RehearsalFault::Line),
        }
    }
}

/// Puts an item behind the others.
fn push(
    alloc: Global,
    list: &mut ListValue,
    step: Step<'_>,
    out: &mut Vec<u8>,
) -> Result<(), RehearsalFault> {
    list.push_back(item_of(alloc, step.first)?)?;
    tell(out, "pushed")
}

/// Puts an item in front of the first that equals the pivot, and tells whether there is one.
fn insert_before(
    alloc: Global,
    list: &mut ListValue,
    step: Step<'_>,
    out: &mut Vec<u8>,
) -> Result<(), RehearsalFault> {
    let pivot = bytes_of(alloc, step.first)?;
    let item = item_of(alloc, step.second)?;
    let inserted = list.insert_before(pivot.as_slice(), item)?;
    tell_whether(out, inserted, "inserted", "no pivot")
}

/// Puts an item behind the first that equals the pivot, and tells whether there is one.
fn insert_after(
    alloc: Global,
    list: &mut ListValue,
    step: Step<'_>,
    out: &mut Vec<u8>,
) -> Result<(), RehearsalFault> {
    let pivot = bytes_of(alloc, step.first)?;
    let item = item_of(alloc, step.second)?;
    let inserted = list.insert_after(pivot.as_slice(), item)?;
    tell_whether(out, inserted, "inserted", "no pivot")
}

/// The bytes that a word of a step spells, as an item.
fn item_of(alloc: Global, word: &str) -> Result<CompactBytes, RehearsalFault> {
    let bytes = Bytes::from_vec(bytes_of(alloc, word)?);
    Ok(CompactBytes::from_bytes(bytes))
}

/// The items, in order.
fn tell_items(alloc: Global, list: &ListValue, out: &mut Vec<u8>) -> Result<(), RehearsalFault> {
    tell(out, "items")?;
    for item in list.iter() {
        tell_bytes(alloc, item, out)?;
    }
    Ok(())
}
