//! A slab of links, each beside the generation of its id, seen as a map from ids to links.
ghost use Rattle.std.specs.Prelude.{◌≡◌, Some, None, IfOk, IfErr, OnErr, IsSome, option_copied};
ghost use Rattle.std.specs.FinMap as map;
ghost use Rattle.mr_links.specs.LinkId.{link_id};

use crate::{Iter, LinkId};
use slab::Slab;
use std::alloc::{AllocFailed, Allocator};
use std::marker::Model;

#[derive(Drop)]
pub struct Row<T> {
    pub generation: u64,
    pub link: T,
}

impl<T> Row<T> {
    ghost use Rattle.std.specs.Borrow.{sem};
    ghost use Rattle.mr_links.specs.Lends.{lends_link_of};

    /// The id of this row at this place.
    pub fn id_at(&self, index: usize) -> LinkId
        ensures { result ≡ link_id index self.now.generation }
    {
        LinkId {
            index,
            generation: self.generation,
        }
    }

    /// The link, to be changed in place.
    pub fn link_mut(&mut self) -> &mut T
        ensures* writes_back { sem 𝓛 (lends_link_of T.row self.entry result) }
        ensures value { result.now ≡ self.old.link }
    {
        &mut self.link
    }
}

#[derive(Drop)]
pub struct Rows<T, A: Allocator> {
    slab: Slab<Row<T>, A>,
}

impl<T, A: Allocator> Model for Rows<T, A> {
    ghost use Rattle.std.specs.FinMap as map;
    ghost use Rattle.mr_links.specs.LinkId.{id_cmp, coded_id};

    ghost Value = { map.FinMap id_cmp T };

    ghost coded = { map.code coded_id T.code };

    ghost use Rattle.mr_links.specs.Rows.{links_of};

    ghost view = { λ r. links_of r.slab.slots };
}

impl<T, A: Allocator> Rows<T, A> {
    ghost use Rattle.std.specs.Borrow.{sem};
    ghost use Rattle.mr_links.specs.Lends.{lends_row};

    /// No links.
    pub fn new(alloc: A) -> Self
        ensures { result ≡ map.empty }
    {
        Rows {
            slab: Slab::new(alloc),
        }
    }

    /// Adds a link under this generation.
    pub fn insert(&mut self, generation: u64, link: T) -> Result<LinkId, AllocFailed<T>>
        ensures generation { IfOk result (λ id. id.generation ≡ generation) }
        ensures absent { IfOk result (λ id. map.get self.old id ≡ None) }
        ensures inserted { IfOk result (λ id. self.new ≡ map.insert self.old id link) }
        ensures err { OnErr result (self.new ≡ self.old) }
        ensures value_returned { IfErr result (λ failed. failed.value ≡ link) }
    {
        if self.slab.reserve(1).is_err() {
            return Err(AllocFailed { value: link });
        }
        let index = self.slab.insert_reserved(Row { generation, link });
        Ok(LinkId { index, generation })
    }

    /// The link under this id, if it is there.
    pub fn get(&self, id: LinkId) -> Option<&T>
        ensures { option_copied result ≡ map.get self.now id }
    {
        match self.slab.get(id.index) {
            Some(row) => {
                if row.generation == id.generation {
                    Some(&row.link)
                } else {
                    None
                }
            }
            None => None,
        }
    }

    /// A link that is there, to be changed in place.
    pub fn link_mut(&mut self, id: LinkId) -> &mut T
        requires { IsSome (map.get self.old id) }
        ensures* writes_back { sem 𝓛 (lends_row T.row A.row A.Allocator self.entry id result) }
        ensures value { map.get self.old id ≡ Some result.now }
    {
        self.slab[id.index].link_mut()
    }

    /// Takes the link under this id out, if it is there.
    pub fn remove(&mut self, id: LinkId) -> Option<T>
        ensures value { result ≡ map.get self.old id }
        ensures removed { self.new ≡ map.remove self.old id }
    {
        match self.slab.get(id.index) {
            Some(row) => {
                if row.generation != id.generation {
                    return None;
                }
            }
            None => return None,
        }
        let Row {
            generation: _,
            link,
        } = self.slab.remove(id.index);
        Some(link)
    }

    /// How many links there are.
    pub fn len(&self) -> usize
        ensures { result ≡ map.len self.now }
    {
        self.slab.len()
    }

    /// The links with their ids, in the order of the ids.
    pub fn iter(&self) -> Iter<'_, T>
        ensures { result ≡ map.entries self.now }
    {
        Iter::new(self.slab.iter())
    }
}
