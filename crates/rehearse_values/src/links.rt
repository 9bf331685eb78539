//! Links under their ids, each a number.
use crate::kind::Kind;
use crate::step::{Step, link_of};
use crate::telling::{tell_before, tell_whether};
use mr_links::{LINKS_LIMIT, LinkId, Links};
use rehearse_shared::{RehearsalFault, count_of, tell, tell_shown};
use std::alloc::Global;

impl Kind for Links<u64> {
    fn make(
        &mut self,
        alloc: Global,
        step: Step<'_>,
        out: &mut Vec<u8>,
    ) -> Result<(), RehearsalFault> {
        match step.name {
            "insert" => insert(alloc, self, step, out),
            "shows" => tell_links(alloc, self, out),
            "ids" => tell_ids(alloc, self, out),
            _ => on_link(alloc, self, link_of(step)?, step, out),
        }
    }
}

/// Makes the call on the link of this id that a step names.
fn on_link(
    alloc: Global,
    links: &mut Links<u64>,
    id: LinkId,
    step: Step<'_>,
    out: &mut Vec<u8>,
) -> Result<(), RehearsalFault> {
    match step.name {
        "get" => tell_before(alloc, links.get(id).copied(), out),
        "contains" => tell_whether(out, links.contains(id), "open", "gone"),
        "set" => set(links, id, count_of(step.third)?, out),
        "replace" => replace(alloc, links, id, count_of(step.third)?, out),
        "remove" => tell_before(alloc, links.remove(id), out),
        _ => Err(RehearsalFault::Line),
    }
}

/// Opens a link, and tells its id. Fails where as many were opened as may be.
fn insert(
    alloc: Global,
    links: &mut Links<u64>,
    step: Step<'_>,
    out: &mut Vec<u8>,
) -> Result<(), RehearsalFault> {
    let link = count_of(step.first)?;
    if links.opened() >= LINKS_LIMIT {
        return Err(RehearsalFault::Line);
    }
    let id = links.insert(link)?;
    tell(out, "id")?;
    tell_id(alloc, id, out)
}

/// Changes the link of this id in its place, if it is open, and tells whether it is.
fn set(
    links: &mut Links<u64>,
    id: LinkId,
    link: u64,
    out: &mut Vec<u8>,
) -> Result<(), RehearsalFault> {
    match links.get_mut(id) {
        Some(place) => {
            *place = link;
            tell(out, "set")
        }
        None => tell(out, "none"),
    }
}

/// Puts another link in the place of the one of this id, if it is open, and tells the one before.
fn replace(
    alloc: Global,
    links: &mut Links<u64>,
    id: LinkId,
    link: u64,
    out: &mut Vec<u8>,
) -> Result<(), RehearsalFault> {
    if !links.contains(id) {
        return tell(out, "none");
    }
    tell_before(alloc, Some(links.replace(id, link)), out)
}

/// An id: a place, and how many links were opened before.
fn tell_id(alloc: Global, id: LinkId, out: &mut Vec<u8>) -> Result<(), RehearsalFault> {
    tell_shown(alloc, id.index, out)?;
    tell_shown(alloc, id.generation, out)
}

/// How many links were opened and how many are, whether none is, and each with its id.
fn tell_links(alloc: Global, links: &Links<u64>, out: &mut Vec<u8>) -> Result<(), RehearsalFault> {
    tell(out, "shows")?;
    tell_shown(alloc, links.opened(), out)?;
    tell_shown(alloc, links.len(), out)?;
    tell_whether(out, links.is_empty(), " empty", "")?;
    for (id, link) in links.iter() {
        tell_id(alloc, id, out)?;
        tell_shown(alloc, *link, out)?;
    }
    Ok(())
}

/// The ids of the open links, in order.
fn tell_ids(alloc: Global, links: &Links<u64>, out: &mut Vec<u8>) -> Result<(), RehearsalFault> {
    tell(out, "ids")?;
    for id in links.ids() {
        tell_id(alloc, id, out)?;
    }
    Ok(())
}
