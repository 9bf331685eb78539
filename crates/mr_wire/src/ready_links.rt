use mr_links::LinkId;
use std::alloc::{AllocError, Global};
use std::collections::VecDeque;

/// The link that was opened last at a place of the wire.
#[derive(Clone, Copy)]
struct Place {
    name: LinkId,
    /// The place is in the queue.
    queued: bool,
}

/// The links that may be ready, in the order in which they became so. What is queued are their places, each once, so that the room
/// that is taken as a link is opened lasts. Those that were named stay at the front until the next wait.
#[derive(Drop)]
pub(crate) struct ReadyLinks {
    places: Vec<Place>,
    queue: VecDeque<usize>,
    named: usize,
}

impl ReadyLinks {
    /// None.
    pub(crate) fn new(alloc: Global) -> ReadyLinks {
        ReadyLinks {
            places: Vec::new(alloc),
            queue: VecDeque::new(alloc),
            named: 0,
        }
    }

    /// Takes the room for a link that was opened, and keeps its name at its place.
    pub(crate) fn make_room(&mut self, link: LinkId) -> Result<(), AllocError> {
        let opened = Place {
            name: link,
            queued: false,
        };
        for _ in self.places.len()..=link.index {
            self.places.push(opened)?;
        }
        if let Some(place) = self.places.get_mut(link.index) {
            place.name = link;
        }
        self.queue.reserve(self.places.len())
    }

    /// The link that was opened last at a place.
    pub(crate) fn at(&self, index: usize) -> Option<LinkId> {
        match self.places.get(index) {
            Some(place) => Some(place.name),
            None => None,
        }
    }

    /// The link at a place may be ready. Its room was taken as it was opened.
    pub(crate) fn push(&mut self, index: usize) {
        let Some(place) = self.places.get_mut(index) else {
            return;
        };
        if place.queued {
            return;
        }
        place.queued = true;
        let _pushed = self.queue.push_back(index);
    }

    /// Names the next link.
    pub(crate) fn name_next(&mut self) -> Option<LinkId> {
        let index = self.queue.get(self.named).copied()?;
        self.named += 1;
        self.at(index)
    }

    /// Takes the first link that was named out of the queue.
    pub(crate) fn pop_named(&mut self) -> Option<LinkId> {
        if self.named == 0 {
            return None;
        }
        self.named -= 1;
        let index = self.queue.pop_front()?;
        let place = self.places.get_mut(index)?;
        place.queued = false;
        Some(place.name)
    }

    /// How many links were named.
    pub(crate) fn named(&self) -> usize {
        self.named
    }

    /// How many links are queued, named ones too.
    pub(crate) fn len(&self) -> usize {
        self.queue.len()
    }

    /// Whether no link is queued.
    pub(crate) fn is_empty(&self) -> bool {
        self.queue.is_empty()
    }
}
