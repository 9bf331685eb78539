//! The steps of a line.
use mr_links::LinkId;
use rehearse_shared::{RehearsalFault, count_of};

/// A step: the name of a call, and its arguments. Those that aren't there are empty.
#[derive(Clone, Copy)]
pub struct Step<'a> {
    pub name: &'a str,
    pub first: &'a str,
    pub second: &'a str,
    pub third: &'a str,
}

impl<'a> Step<'a> {
    /// The words of a step.
    pub fn read(text: &'a str) -> Step<'a> {
        let mut words = text.split(' ');
        let name = words.next().unwrap_or("");
        let first = words.next().unwrap_or("");
        let second = words.next().unwrap_or("");
        let third = words.next().unwrap_or("");
        Step {
            name,
            first,
            second,
            third,
        }
    }
}

/// The name of a link that stands in front of a step's other arguments: its place, and how many links were opened before it.
pub fn link_of(step: Step<'_>) -> Result<LinkId, RehearsalFault> {
    Ok(LinkId {
        index: count_of(step.first)? as usize,
        generation: count_of(step.second)?,
    })
}
