// Sets of byte strings.
ghost use Rattle.std.specs.Prelude.{◌≡◌, ◌==◌, ◌<◌, ◌^◌, not, drop, slice_get, IfOk, OnOk, OnErr, option_copied};
ghost use Rattle.std.specs.FinMap as map;
ghost use Rattle.mr_map.specs.Bytes.{bytes_cmp};
ghost use Rattle.mr_order.specs.Changes.{IsTaken};

use crate::compact_bytes::CompactBytes;
use crate::members::Members;
use mr_bytes::{Bytes, Word};
use mr_map::ShortKey;
use mr_order::Ordered;
use std::alloc::{AllocError, Global};
use std::marker::Model;

/// A set of byte strings, seen as a finite set: a finite map with nothing at each member.
///
/// The members stand in byte order, each at its place: a look-up compares about log2 of the number of members, and a member
/// is found by its place without a walk over those in front. Where memory runs out, a set is as it was.
#[derive(Drop)]
pub struct SetValue {
    members: Ordered<CompactBytes>,
}

impl Model for SetValue {
    ghost use Rattle.std.specs.FinSet as set;
    ghost use Rattle.std.specs.Coded.{coded_ℕ, coded_list};
    ghost use Rattle.mr_map.specs.Bytes.{bytes_cmp};
    ghost use Rattle.mr_value.specs.Members.{set_of};

    ghost Value = { set.FinSet bytes_cmp };

    ghost coded = { set.code (coded_list coded_ℕ) };

    ghost view = { λ a. set_of a.members };
}

impl SetValue {
    /// An empty set. It takes no memory.
    pub fn new(alloc: Global) -> SetValue
        ensures { result ≡ map.empty }
    {
        SetValue {
            members: Ordered::new(alloc),
        }
    }

    /// How many members there are.
    pub fn len(&self) -> usize
        ensures len { result ≡ map.len self.now }
        ensures small { result < 2 ^ 63 }
    {
        self.members.len()
    }

    /// Whether there is no member.
    pub fn is_empty(&self) -> bool
        ensures { result ≡ (map.len self.now == 0) }
    {
        self.len() == 0
    }

    /// Whether these bytes are a member.
    pub fn contains(&self, member: &[u8]) -> bool
        ensures { result ≡ map.contains_key self.now member.now }
    {
        match ShortKey::of(member) {
            Some(short) => self.members.contains(&short),
            None => self.members.contains(member),
        }
    }

    /// The members, in byte order. It takes no memory.
    pub fn members(&self) -> Members<'_>
        ensures { result ≡ map.keys self.now }
    {
        self.members_from(0)
    }

    /// The members from a place in byte order on, counted from 0. It takes no memory.
    pub fn members_from(&self, place: usize) -> Members<'_>
        ensures { result ≡ drop place (map.keys self.now) }
    {
        let members = &self.members;
        let from = place.min(members.len());
        Members::new(members.iter_from(from))
    }

    /// The member at a place in byte order, counted from 0.
    pub fn nth(&self, place: usize) -> Option<&[u8]>
        ensures { option_copied result ≡ slice_get (map.keys self.now) place }
    {
        self.members_from(place).next()
    }

    /// Adds a member, and answers whether it is new.
    pub fn insert(&mut self, member: Bytes) -> Result<bool, AllocError>
        ensures new { IfOk result (λ new. new ≡ not (map.contains_key self.old member)) }
        ensures ok { OnOk result (self.new ≡ map.insert self.old member tt) }
        ensures err { OnErr result (self.new ≡ self.old) }
    {
        self.put(CompactBytes::from_bytes(member))
    }

    /// Adds a word as a member, and answers whether it is new. A word of few bytes takes no memory of its own.
    pub fn insert_word(&mut self, alloc: Global, member: Word<'_>) -> Result<bool, AllocError>
        ensures new { IfOk result (λ new. new ≡ not (map.contains_key self.old member.entry)) }
        ensures ok { OnOk result (self.new ≡ map.insert self.old member.entry tt) }
        ensures err { OnErr result (self.new ≡ self.old) }
    {
        self.put(CompactBytes::from_word(alloc, member)?)
    }

    /// Adds a member, and answers whether it is new. Where memory runs out, the set stays.
    fn put(&mut self, member: CompactBytes) -> Result<bool, AllocError>
        ensures new { IfOk result (λ new. new ≡ not (map.contains_key self.old member)) }
        ensures ok { OnOk result (self.new ≡ map.insert self.old member tt) }
        ensures err { OnErr result (self.new ≡ self.old) }
    {
        let before = self.members.len();
        self.members.insert(member)?;
        Ok(before < self.members.len())
    }

    /// Removes a member, and answers whether it was one.
    pub fn remove(&mut self, member: &[u8]) -> bool
        ensures removed { result ≡ map.contains_key self.old member.now }
        ensures rest { self.new ≡ map.remove self.old member.now }
    {
        take_out(&mut self.members, member).is_some()
    }
}

/// Takes a member out, if it is there.
fn take_out(members: &mut Ordered<CompactBytes>, member: &[u8]) -> Option<CompactBytes>
    ensures { IsTaken (bytes_cmp member.now) members.old result members.new }
{
    match ShortKey::of(member) {
        Some(short) => members.take(&short),
        None => members.take(member),
    }
}
