// A map from byte strings that lie elsewhere.
ghost use Rattle.std.specs.Prelude.{◌≡◌, ◌==◌, ◌<◌, ◌^◌, OnOk, OnErr, IfOk, option_copied};
ghost use Rattle.std.specs.FinMap as map;

use crate::slice_pairs::SlicePairs;
use std::alloc::{AllocError, Global};
use std::collections::BTreeMap;
use std::marker::Model;

/// A finite map from byte strings that lie elsewhere and are not copied: an ordered tree. It puts what a request names
/// in order, each once.
#[derive(Drop)]
pub struct SliceMap<'a, V> {
    tree: BTreeMap<&'a [u8], V>,
}

impl<'a, V> Model for SliceMap<'a, V> {
    ghost use Rattle.std.specs.FinMap as map;
    ghost use Rattle.std.specs.Coded.{coded_ℕ, coded_list};
    ghost use Rattle.mr_map.specs.Bytes.{bytes_cmp, map_by, slice_of};

    ghost Value = { map.FinMap bytes_cmp V };

    ghost coded = { map.code (coded_list coded_ℕ) V.code };

    ghost view = { λ a. map_by slice_of a.tree.entries };
}

impl<'a, V> SliceMap<'a, V> {
    /// An empty map. It takes no memory.
    pub fn new(alloc: Global) -> Self
        ensures { result ≡ map.empty }
    {
        SliceMap {
            tree: BTreeMap::new(alloc),
        }
    }

    /// How many keys there are.
    pub fn len(&self) -> usize
        ensures len { result ≡ map.len self.now }
        ensures small { result < 2 ^ 63 }
    {
        self.tree.len()
    }

    /// Whether there is no key.
    pub fn is_empty(&self) -> bool
        ensures { result ≡ (map.len self.now == 0) }
    {
        self.len() == 0
    }

    /// The value of a key. It takes no memory.
    pub fn get(&self, key: &[u8]) -> Option<&V>
        ensures { option_copied result ≡ map.get self.now key.now }
    {
        self.tree.get(key)
    }

    /// The keys with their values, in byte order. It takes no memory.
    pub fn iter<'m>(&'m self) -> SlicePairs<'m, 'a, V>
        ensures { result ≡ map.entries self.now }
    {
        SlicePairs::new(self.tree.iter())
    }
}

impl<'a, V: Drop> SliceMap<'a, V> {
    /// Sets the value of a key, and answers the one before. The map is as it was where memory runs out.
    pub fn insert(&mut self, key: &'a [u8], value: V) -> Result<Option<V>, AllocError>
        ensures before { IfOk result (λ before. before ≡ map.get self.old key.now) }
        ensures ok { OnOk result (self.new ≡ map.insert self.old key.now value) }
        ensures err { OnErr result (self.new ≡ self.old) }
    {
        Ok(self.tree.insert(key, value)?)
    }
}
