// Two tables by hash as one map, short keys apart.
ghost use Rattle.std.specs.Prelude.{◌≡◌, ◌+◌, ◌<◌, ◌≤◌, ◌^◌, None, OnOk, OnErr, IfErr, IfOk, IfSome, length, option_copied, option_map};
ghost use Rattle.std.specs.FinMap as map;
ghost use Rattle.std.specs.Option.{option_copied_mut};
ghost use Rattle.mr_map.specs.Bytes.{held_bytes};
ghost use Rattle.mr_map.specs.Short.{room};

use crate::hashing::KeySeed;
use crate::held_key::HeldKey;
use crate::short_key::ShortKey;
use std::alloc::{AllocFailed, Global};
use std::collections::HashMap;
use std::marker::Model;

/// Two tables by a seeded hash. A key of at most 23 bytes lies in its table itself, so that it takes no memory of its own, and
/// a look-up goes to no other.
#[derive(Drop)]
pub(crate) struct Tables<V> {
    short: HashMap<ShortKey, V, KeySeed>,
    long: HashMap<Vec<u8>, V, KeySeed>,
}

impl<V> Model for Tables<V> {
    ghost use Rattle.std.specs.FinMap as map;
    ghost use Rattle.std.specs.Coded.{coded_ℕ, coded_list};
    ghost use Rattle.mr_map.specs.Bytes.{bytes_cmp, map_of};
    ghost use Rattle.mr_map.specs.Merged.{joined, map_of_short, AreParted};

    ghost Value = { map.FinMap bytes_cmp V };

    ghost coded = { map.code (coded_list coded_ℕ) V.code };

    ghost view = { λ a. joined (map_of_short a.short.entries) (map_of a.long.entries) };

    ghost invariant = { λ a. AreParted (map_of_short a.short.entries) (map_of a.long.entries) };
}

impl<V> Tables<V> {
    /// An empty map, whose hash has this seed. It takes no memory.
    pub(crate) fn new(alloc: Global, seed: KeySeed) -> Self
        ensures { result ≡ map.empty }
    {
        Tables {
            short: HashMap::with_hasher(alloc, seed),
            long: HashMap::with_hasher(alloc, seed),
        }
    }

    /// How many keys there are.
    pub(crate) fn len(&self) -> usize
        ensures len { result ≡ map.len self.now }
        ensures small { result < 2 ^ 63 }
    {
        self.short.len() + self.long.len()
    }

    /// The value of a key.
    pub(crate) fn get(&self, key: &[u8]) -> Option<&V>
        ensures { option_copied result ≡ map.get self.now key.now }
    {
        match ShortKey::of(key) {
            Some(short) => self.short.get(&short),
            None => self.long.get(key),
        }
    }
}

impl<V> Tables<V> {
    ghost use Rattle.std.specs.Borrow.{sem};
    ghost use Rattle.mr_map.specs.Lends.{lends_in_tables};

    /// The value of a key, to be changed in place.
    pub(crate) fn get_mut(&mut self, key: &[u8]) -> Option<&mut V>
        ensures* writes_back { sem 𝓛 (lends_in_tables V.row self.entry key.now result) }
        ensures value { option_copied_mut result ≡ map.get self.old key.now }
    {
        match ShortKey::of(key) {
            Some(short) => match self.short.get_mut(&short) {
                Some(value) => Some(value),
                None => None,
            },
            None => match self.long.get_mut(key) {
                Some(value) => Some(value),
                None => None,
            },
        }
    }
}

impl<V: Drop> Tables<V> {
    /// Sets the value of a short key, and answers the one that it had. Where memory runs out nothing changes, and it had none.
    pub(crate) fn insert_short(
        &mut self,
        key: ShortKey,
        value: V,
    ) -> Result<Option<V>, AllocFailed<(ShortKey, V)>>
        requires short { length key ≤ room }
        requires few { map.len self.old + 1 < 2 ^ 63 }
        ensures before { IfOk result (λ before. before ≡ map.get self.old key) }
        ensures ok { OnOk result (self.new ≡ map.insert self.old key value) }
        ensures back { IfErr result (λ refused. refused.value ≡ (key, value)) }
        ensures err { OnErr result (self.new ≡ self.old) }
        ensures absent { OnErr result (map.get self.old key ≡ None) }
    {
        Ok(self.short.insert(key, value)?)
    }

    /// The same of a longer key.
    pub(crate) fn insert_long(
        &mut self,
        key: Vec<u8>,
        value: V,
    ) -> Result<Option<V>, AllocFailed<(Vec<u8>, V)>>
        requires long { room < length key.items }
        requires few { map.len self.old + 1 < 2 ^ 63 }
        ensures before { IfOk result (λ before. before ≡ map.get self.old key.items) }
        ensures ok { OnOk result (self.new ≡ map.insert self.old key.items value) }
        ensures back { IfErr result (λ refused. refused.value ≡ (key, value)) }
        ensures err { OnErr result (self.new ≡ self.old) }
        ensures absent { OnErr result (map.get self.old key.items ≡ None) }
    {
        Ok(self.long.insert(key, value)?)
    }

    /// Removes a key, and answers its bytes with its value. It takes no memory.
    pub(crate) fn remove_entry(&mut self, key: &[u8]) -> Option<(HeldKey, V)>
        ensures before { option_map (λ e. e.1) result ≡ map.get self.old key.now }
        ensures key { IfSome result (λ e. held_bytes e.0 ≡ key.now) }
        ensures removed { self.new ≡ map.remove self.old key.now }
    {
        match ShortKey::of(key) {
            Some(short) => {
                let (held, value) = self.short.remove_entry(&short)?;
                Some((HeldKey::Short(held), value))
            }
            None => {
                let (held, value) = self.long.remove_entry(key)?;
                Some((HeldKey::Long(held), value))
            }
        }
    }
}
