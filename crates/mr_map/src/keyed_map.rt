// A map from byte strings by a seeded hash, with its keys in byte order beside it.
ghost use Rattle.std.specs.Prelude.{◌≡◌, ◌==◌, ◌<◌, ◌^◌, length, OnOk, OnErr, IfOk, IfSome, option_copied, option_map};
ghost use Rattle.std.specs.FinMap as map;
ghost use Rattle.std.specs.Option.{option_copied_mut};
ghost use Rattle.mr_map.specs.Bytes.{held_bytes};
ghost use Rattle.mr_map.specs.Short.{room};

use crate::byte_map::ByteMap;
use crate::hashing::KeySeed;
use crate::held_key::HeldKey;
use crate::keys::Keys;
use crate::short_key::ShortKey;
use crate::tables::Tables;
use crate::trees::MOST;
use std::alloc::{AllocError, Global};
use std::hash::RandomState;
use std::marker::Model;

/// A finite map from byte strings: looked up by a seeded hash, and gone over in byte order. Each key is kept twice; one of at
/// most 23 bytes takes no memory of its own.
#[derive(Drop)]
pub struct KeyedMap<V> {
    tables: Tables<V>,
    order: ByteMap<()>,
}

impl<V> Model for KeyedMap<V> {
    ghost use Rattle.std.specs.FinMap as map;
    ghost use Rattle.std.specs.Coded.{coded_ℕ, coded_list};
    ghost use Rattle.mr_map.specs.Bytes.{bytes_cmp, HaveSameKeys};

    ghost Value = { map.FinMap bytes_cmp V };

    ghost coded = { map.code (coded_list coded_ℕ) V.code };

    ghost view = { λ a. a.tables };

    ghost invariant = { λ a. HaveSameKeys a.order a.tables };
}

impl<V> KeyedMap<V> {
    /// An empty map, whose hash has this seed. It takes no memory.
    pub fn new(alloc: Global, seed: RandomState) -> Self
        ensures { result ≡ map.empty }
    {
        KeyedMap {
            tables: Tables::new(alloc, KeySeed::of(seed)),
            order: ByteMap::new(alloc),
        }
    }

    /// How many keys there are.
    pub fn len(&self) -> usize
        ensures len { result ≡ map.len self.now }
        ensures small { result < 2 ^ 63 }
    {
        self.tables.len()
    }

    /// Whether there is no key.
    pub fn is_empty(&self) -> bool
        ensures { result ≡ (map.len self.now == 0) }
    {
        self.len() == 0
    }

    /// The keys, in byte order. It takes no memory.
    pub fn keys(&self) -> Keys<'_, ()>
        ensures { result ≡ map.keys self.now }
    {
        self.order.keys()
    }

    /// The value of a key.
    pub fn get(&self, key: &[u8]) -> Option<&V>
        ensures { option_copied result ≡ map.get self.now key.now }
    {
        self.tables.get(key)
    }

    /// Whether a key has a value.
    pub fn contains_key(&self, key: &[u8]) -> bool
        ensures { result ≡ map.contains_key self.now key.now }
    {
        self.get(key).is_some()
    }
}

impl<V> KeyedMap<V> {
    ghost use Rattle.std.specs.Borrow.{sem};
    ghost use Rattle.mr_map.specs.Lends.{lends_keyed};

    /// The value of a key, to be changed in place.
    pub fn get_mut(&mut self, key: &[u8]) -> Option<&mut V>
        ensures* writes_back { sem 𝓛 (lends_keyed V.row self.entry key.now result) }
        ensures value { option_copied_mut result ≡ map.get self.old key.now }
    {
        match self.tables.get_mut(key) {
            Some(value) => Some(value),
            None => None,
        }
    }
}

impl<V: Drop> KeyedMap<V> {
    /// Sets the value of a key, and answers the one before. Where memory runs out, the map is as it was. It is made for new
    /// keys, which it puts into the order without looking them up first: the value of a key that is there is changed through
    /// `get_mut`.
    pub fn insert(&mut self, key: Vec<u8>, value: V) -> Result<Option<V>, AllocError>
        ensures before { IfOk result (λ before. before ≡ map.get self.old key.items) }
        ensures ok { OnOk result (self.new ≡ map.insert self.old key.items value) }
        ensures err { OnErr result (self.new ≡ self.old) }
    {
        match ShortKey::of(key.as_slice()) {
            Some(short) => self.insert_short(short, value),
            None => self.insert_long(key, value),
        }
    }

    /// The same of a short key.
    pub fn insert_short(&mut self, key: ShortKey, value: V) -> Result<Option<V>, AllocError>
        ensures before { IfOk result (λ before. before ≡ map.get self.old key) }
        ensures ok { OnOk result (self.new ≡ map.insert self.old key value) }
        ensures err { OnErr result (self.new ≡ self.old) }
    {
        if self.len() >= MOST {
            return Err(AllocError);
        }
        self.order.insert_copy(key.as_slice(), ())?;
        match self.tables.insert_short(key, value) {
            Ok(before) => Ok(before),
            Err(refused) => {
                let (short, _value) = refused.value;
                let _ = self.order.remove(short.as_slice());
                Err(AllocError)
            }
        }
    }

    /// The same of a longer key.
    fn insert_long(&mut self, key: Vec<u8>, value: V) -> Result<Option<V>, AllocError>
        requires { room < length key.items }
        ensures before { IfOk result (λ before. before ≡ map.get self.old key.items) }
        ensures ok { OnOk result (self.new ≡ map.insert self.old key.items value) }
        ensures err { OnErr result (self.new ≡ self.old) }
    {
        if self.len() >= MOST {
            return Err(AllocError);
        }
        self.order.insert_copy(key.as_slice(), ())?;
        match self.tables.insert_long(key, value) {
            Ok(before) => Ok(before),
            Err(refused) => {
                let (long, _value) = refused.value;
                let _ = self.order.remove(long.as_slice());
                Err(AllocError)
            }
        }
    }

    /// Removes a key, and answers its value. It takes no memory.
    pub fn remove(&mut self, key: &[u8]) -> Option<V>
        ensures before { result ≡ map.get self.old key.now }
        ensures removed { self.new ≡ map.remove self.old key.now }
    {
        let (_, value) = self.remove_entry(key)?;
        Some(value)
    }

    /// Removes a key, and answers its bytes with its value. It takes no memory.
    pub fn remove_entry(&mut self, key: &[u8]) -> Option<(HeldKey, V)>
        ensures before { option_map (λ e. e.1) result ≡ map.get self.old key.now }
        ensures key { IfSome result (λ e. held_bytes e.0 ≡ key.now) }
        ensures removed { self.new ≡ map.remove self.old key.now }
    {
        let before = self.tables.remove_entry(key)?;
        let _ = self.order.remove(key);
        Some(before)
    }
}
