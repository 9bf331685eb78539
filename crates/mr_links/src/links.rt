ghost use Rattle.std.specs.Prelude.{◌≡◌, ◌+◌, ◌<◌, ◌↔◌, Some, None, IfOk, IfErr, OnOk, OnErr, IsSome, IsTrue, option_copied};
ghost use Rattle.std.specs.Option.{option_copied_mut};
ghost use Rattle.std.specs.FinMap as map;
ghost use Rattle.mr_links.specs.Links.{AreBelow, links_limit};

use crate::rows::Rows;
use crate::{Ids, Iter, LinkId};
use std::alloc::{AllocFailed, Allocator, Global};
use std::marker::Model;
use std::mem;

/// At most so many links are ever opened.
pub const LINKS_LIMIT: u64 = 1 << 62;

/// Open links by their ids. Each link that was ever opened has an id of its own, which is not used again once the
/// link is removed; one that is taken back counts as never opened. Only `insert` takes memory.
#[derive(Drop)]
pub struct Links<T, A: Allocator = Global> {
    rows: Rows<T, A>,
    opened: u64,
}

impl<T, A: Allocator> Model for Links<T, A> {
    ghost use Rattle.mr_links.specs.Links.{Links, links_code, AreNumbered};

    ghost Value = { Links T };

    ghost coded = { links_code T.code };

    ghost view = { λ l. record { open_links = l.rows; opened = l.opened } };

    ghost invariant = { λ l. AreNumbered l.opened l.rows };
}

impl<T, A: Allocator> Links<T, A> {
    ghost use Rattle.std.specs.Borrow.{sem};
    ghost use Rattle.mr_links.specs.LinksLends.{lends_link, lends_link_if_open};

    /// No links.
    pub fn new(alloc: A) -> Self
        ensures none { result.open_links ≡ map.empty }
        ensures opened { result.opened ≡ 0 }
    {
        Links {
            rows: Rows::new(alloc),
            opened: 0,
        }
    }

    /// How many links were ever opened. The generation of each open link's id is below this number.
    pub fn opened(&self) -> u64
        ensures opened { result ≡ self.now.opened }
        ensures below { AreBelow result self.now.open_links }
    {
        self.opened
    }

    /// Opens a link under a new id, whose generation is the number of links that were opened before.
    pub fn insert(&mut self, link: T) -> Result<LinkId, AllocFailed<T>>
        requires { self.old.opened < links_limit }
        ensures generation { IfOk result (λ id. id.generation ≡ self.old.opened) }
        ensures fresh { IfOk result (λ id. map.get self.old.open_links id ≡ None) }
        ensures inserted { IfOk result (λ id.
            self.new.open_links ≡ map.insert self.old.open_links id link) }
        ensures opened { OnOk result (self.new.opened ≡ self.old.opened + 1) }
        ensures err { OnErr result (self.new ≡ self.old) }
        ensures value_returned { IfErr result (λ failed. failed.value ≡ link) }
    {
        let id = self.rows.insert(self.opened, link)?;
        self.opened += 1;
        Ok(id)
    }

    /// The link under this id, if it is open.
    pub fn get(&self, id: LinkId) -> Option<&T>
        ensures { option_copied result ≡ map.get self.now.open_links id }
    {
        self.rows.get(id)
    }

    /// The link under this id, if it is open, to be changed in place.
    pub fn get_mut(&mut self, id: LinkId) -> Option<&mut T>
        ensures* writes_back { sem 𝓛
            (lends_link_if_open T.row A.row A.Allocator self.entry id result) }
        ensures value { option_copied_mut result ≡ map.get self.old.open_links id }
    {
        if self.contains(id) {
            Some(self.link_mut(id))
        } else {
            None
        }
    }

    /// The open link under this id, to be changed in place.
    fn link_mut(&mut self, id: LinkId) -> &mut T
        requires { IsSome (map.get self.old.open_links id) }
        ensures* writes_back { sem 𝓛 (lends_link T.row A.row A.Allocator self.entry id result) }
        ensures value { map.get self.old.open_links id ≡ Some result.now }
    {
        self.rows.link_mut(id)
    }

    /// Whether the link under this id is open.
    pub fn contains(&self, id: LinkId) -> bool
        ensures { IsTrue result ↔ IsSome (map.get self.now.open_links id) }
    {
        self.rows.get(id).is_some()
    }

    /// Takes the link under this id out, if it is open.
    pub fn remove(&mut self, id: LinkId) -> Option<T>
        ensures value { result ≡ map.get self.old.open_links id }
        ensures removed { self.new.open_links ≡ map.remove self.old.open_links id }
        ensures opened { self.new.opened ≡ self.old.opened }
    {
        self.rows.remove(id)
    }

    /// Undoes `insert`: takes out the link that was opened last, and counts it no more. What is left are the links from which
    /// `insert` made these, so the id may be given again: nobody is to keep it.
    pub fn take_back(&mut self, id: LinkId) -> T
        requires open { IsSome (map.get self.old.open_links id) }
        requires last { self.old.opened ≡ id.generation + 1 }
        ensures generation { id.generation ≡ self.new.opened }
        ensures fresh { map.get self.new.open_links id ≡ None }
        ensures inserted { self.old.open_links ≡ map.insert self.new.open_links id result }
        ensures opened { self.old.opened ≡ self.new.opened + 1 }
    {
        let Some(link) = self.rows.remove(id) else {
            unreachable!()
        };
        self.opened -= 1;
        link
    }

    /// Puts another link in the place of an open one, which is returned.
    pub fn replace(&mut self, id: LinkId, link: T) -> T
        requires { IsSome (map.get self.old.open_links id) }
        ensures before { map.get self.old.open_links id ≡ Some result }
        ensures replaced { self.new.open_links ≡ map.insert self.old.open_links id link }
        ensures opened { self.new.opened ≡ self.old.opened }
    {
        match self.get_mut(id) {
            Some(place) => mem::replace(place, link),
            None => unreachable!(),
        }
    }

    /// How many links are open.
    pub fn len(&self) -> usize
        ensures { result ≡ map.len self.now.open_links }
    {
        self.rows.len()
    }

    /// Whether no link is open.
    pub fn is_empty(&self) -> bool
        ensures { IsTrue result ↔ (map.len self.now.open_links ≡ 0) }
    {
        self.rows.len() == 0
    }

    /// The open links with their ids, in the order of the ids.
    pub fn iter(&self) -> Iter<'_, T>
        ensures { result ≡ map.entries self.now.open_links }
    {
        self.rows.iter()
    }

    /// The ids of the open links, in order.
    pub fn ids(&self) -> Ids<'_, T>
        ensures { result ≡ map.keys self.now.open_links }
    {
        Ids::new(self.rows.iter())
    }
}
