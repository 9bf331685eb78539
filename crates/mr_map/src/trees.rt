// Two trees in byte order as one map, short keys apart.
ghost use Rattle.std.specs.Prelude.{◌≡◌, ◌<◌, ◌≤◌, ◌^◌, OnOk, OnErr, IfOk, length, option_copied};
ghost use Rattle.std.specs.FinMap as map;
ghost use Rattle.std.specs.Option.{option_copied_mut};
ghost use Rattle.mr_map.specs.Short.{room};

use crate::pairs::Pairs;
use crate::short_key::ShortKey;
use std::alloc::{AllocError, Global};
use std::collections::BTreeMap;
use std::marker::Model;

// No more keys are taken than an isize counts. Each tree keeps to it, and both together do too.
pub(crate) const MOST: usize = 0x7fff_ffff_ffff_ffff;

/// Two ordered trees. A key of at most 23 bytes lies in its tree itself, so that it takes no memory of its own, and a
/// comparison touches no other.
#[derive(Drop)]
pub(crate) struct Trees<V> {
    short: BTreeMap<ShortKey, V>,
    long: BTreeMap<Vec<u8>, V>,
}

impl<V> Model for Trees<V> {
    ghost use Rattle.std.specs.FinMap as map;
    ghost use Rattle.std.specs.Coded.{coded_ℕ, coded_list};
    ghost use Rattle.mr_map.specs.Bytes.{bytes_cmp, map_of};
    ghost use Rattle.mr_map.specs.Merged.{joined, map_of_short, AreParted};

    ghost Value = { map.FinMap bytes_cmp V };

    ghost coded = { map.code (coded_list coded_ℕ) V.code };

    ghost view = { λ a. joined (map_of_short a.short.entries) (map_of a.long.entries) };

    ghost invariant = { λ a. AreParted (map_of_short a.short.entries) (map_of a.long.entries) };
}

impl<V> Trees<V> {
    /// An empty map. It takes no memory.
    pub(crate) fn new(alloc: Global) -> Self
        ensures { result ≡ map.empty }
    {
        Trees {
            short: BTreeMap::new(alloc),
            long: BTreeMap::new(alloc),
        }
    }

    /// How many keys there are.
    pub(crate) fn len(&self) -> usize
        ensures len { result ≡ map.len self.now }
        ensures small { result < 2 ^ 63 }
    {
        self.short.len() + self.long.len()
    }

    /// The keys with their values, in byte order. It takes no memory.
    pub(crate) fn iter(&self) -> Pairs<'_, V>
        ensures { result ≡ map.entries self.now }
    {
        Pairs::new(Some(self.short.iter()), Some(self.long.iter()))
    }

    /// The value of a key.
    pub(crate) fn get(&self, key: &[u8]) -> Option<&V>
        ensures { option_copied result ≡ map.get self.now key.now }
    {
        match ShortKey::of(key) {
            Some(short) => self.short.get(&short),
            None => self.long.get(key),
        }
    }
}

impl<V> Trees<V> {
    ghost use Rattle.std.specs.Borrow.{sem};
    ghost use Rattle.mr_map.specs.Lends.{lends_in_trees};

    /// The value of a key, to be changed in place.
    pub(crate) fn get_mut(&mut self, key: &[u8]) -> Option<&mut V>
        ensures* writes_back { sem 𝓛 (lends_in_trees V.row self.entry key.now result) }
        ensures value { option_copied_mut result ≡ map.get self.old key.now }
    {
        match ShortKey::of(key) {
            Some(short) => match self.short.get_mut(&short) {
                Some(value) => Some(value),
                None => None,
            },
            None => match self.long.get_mut(key) {
                Some(value) => Some(value),
                None => None,
            },
        }
    }
}

impl<V: Drop> Trees<V> {
    /// Sets the value of a short key, and answers the one that it had. Where memory runs out, or as many keys are there
    /// as a map has at most, nothing changes.
    fn insert_short(&mut self, key: ShortKey, value: V) -> Result<Option<V>, AllocError>
        requires { length key ≤ room }
        ensures before { IfOk result (λ before. before ≡ map.get self.old key) }
        ensures ok { OnOk result (self.new ≡ map.insert self.old key value) }
        ensures err { OnErr result (self.new ≡ self.old) }
    {
        if self.len() >= MOST {
            return Err(AllocError);
        }
        Ok(self.short.insert(key, value)?)
    }

    /// Sets the value of a longer key, and answers the one that it had. Where memory runs out, or as many keys are
    /// there as a map has at most, nothing changes.
    fn insert_long(&mut self, key: Vec<u8>, value: V) -> Result<Option<V>, AllocError>
        requires { room < length key.items }
        ensures before { IfOk result (λ before. before ≡ map.get self.old key.items) }
        ensures ok { OnOk result (self.new ≡ map.insert self.old key.items value) }
        ensures err { OnErr result (self.new ≡ self.old) }
    {
        if self.len() >= MOST {
            return Err(AllocError);
        }
        Ok(self.long.insert(key, value)?)
    }

    /// Sets the value of a key, and answers the one before. The map is as it was where memory runs out.
    pub(crate) fn insert(&mut self, key: Vec<u8>, value: V) -> Result<Option<V>, AllocError>
        ensures before { IfOk result (λ before. before ≡ map.get self.old key.items) }
        ensures ok { OnOk result (self.new ≡ map.insert self.old key.items value) }
        ensures err { OnErr result (self.new ≡ self.old) }
    {
        match ShortKey::of(key.as_slice()) {
            Some(short) => self.insert_short(short, value),
            None => self.insert_long(key, value),
        }
    }

    /// The same with a key that lies elsewhere: only a long one is copied into memory of its own.
    pub(crate) fn insert_copy(
        &mut self,
        alloc: Global,
        key: &[u8],
        value: V,
    ) -> Result<Option<V>, AllocError>
        ensures before { IfOk result (λ before. before ≡ map.get self.old key.now) }
        ensures ok { OnOk result (self.new ≡ map.insert self.old key.now value) }
        ensures err { OnErr result (self.new ≡ self.old) }
    {
        match ShortKey::of(key) {
            Some(short) => self.insert_short(short, value),
            None => {
                let long = Vec::from_slice(alloc, key)?;
                self.insert_long(long, value)
            }
        }
    }

    /// Removes a key, and answers its value.
    pub(crate) fn remove(&mut self, key: &[u8]) -> Option<V>
        ensures before { result ≡ map.get self.old key.now }
        ensures removed { self.new ≡ map.remove self.old key.now }
    {
        match ShortKey::of(key) {
            Some(short) => self.short.remove(&short),
            None => self.long.remove(key),
        }
    }
}
