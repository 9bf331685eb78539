// A map from byte strings, in byte order.
ghost use Rattle.std.specs.Prelude.{◌≡◌, ◌==◌, ◌<◌, ◌^◌, OnOk, OnErr, IfOk, is_some, option_copied};
ghost use Rattle.std.specs.FinMap as map;
ghost use Rattle.std.specs.Option.{option_copied_mut};

use crate::keys::Keys;
use crate::pairs::Pairs;
use crate::trees::Trees;
use std::alloc::{AllocError, Global};
use std::marker::Model;

/// A finite map from byte strings: ordered trees, in which short keys lie themselves. A look-up compares about log2 of the
/// number of keys. The map itself is a pointer, and the trees come with the first key, so that what holds it is no larger for
/// them.
pub struct ByteMap<V> {
    alloc: Global,
    trees: Option<Box<Trees<V>>>,
}

// By hand, so that it is one call wherever a value goes (docs/PROVING.md).
impl<V: Drop> Drop for ByteMap<V> {
    fn drop(self) {
        let ByteMap { alloc: _, trees: _ } = self;
    }
}

impl<V> Model for ByteMap<V> {
    ghost use Rattle.std.specs.FinMap as map;
    ghost use Rattle.std.specs.Coded.{coded_ℕ, coded_list};
    ghost use Rattle.mr_map.specs.Bytes.{bytes_cmp};
    ghost use Rattle.mr_map.specs.Merged.{held};

    ghost Value = { map.FinMap bytes_cmp V };

    ghost coded = { map.code (coded_list coded_ℕ) V.code };

    ghost view = { λ a. held a.trees };
}

impl<V> ByteMap<V> {
    /// An empty map. It takes no memory.
    pub fn new(alloc: Global) -> Self
        ensures { result ≡ map.empty }
    {
        ByteMap { alloc, trees: None }
    }

    /// How many keys there are.
    pub fn len(&self) -> usize
        ensures len { result ≡ map.len self.now }
        ensures small { result < 2 ^ 63 }
    {
        match &self.trees {
            Some(trees) => trees.len(),
            None => 0,
        }
    }

    /// Whether there is no key.
    pub fn is_empty(&self) -> bool
        ensures { result ≡ (map.len self.now == 0) }
    {
        self.len() == 0
    }

    /// The keys, in byte order. It takes no memory.
    pub fn keys(&self) -> Keys<'_, V>
        ensures { result ≡ map.keys self.now }
    {
        Keys::new(self.iter())
    }

    /// The keys with their values, in byte order. It takes no memory.
    pub fn iter(&self) -> Pairs<'_, V>
        ensures { result ≡ map.entries self.now }
    {
        match &self.trees {
            Some(trees) => trees.iter(),
            None => Pairs::new(None, None),
        }
    }

    /// The value of a key.
    pub fn get(&self, key: &[u8]) -> Option<&V>
        ensures { option_copied result ≡ map.get self.now key.now }
    {
        match &self.trees {
            Some(trees) => trees.get(key),
            None => None,
        }
    }

    /// Whether a key has a value.
    pub fn contains_key(&self, key: &[u8]) -> bool
        ensures { result ≡ map.contains_key self.now key.now }
    {
        self.get(key).is_some()
    }
}

impl<V> ByteMap<V> {
    ghost use Rattle.std.specs.Borrow.{sem};
    ghost use Rattle.mr_map.specs.Lends.{lends_value};

    /// The value of a key, to be changed in place.
    pub fn get_mut(&mut self, key: &[u8]) -> Option<&mut V>
        ensures* writes_back { sem 𝓛 (lends_value V.row self.entry key.now result) }
        ensures value { option_copied_mut result ≡ map.get self.old key.now }
    {
        match &mut self.trees {
            Some(trees) => match trees.as_mut().get_mut(key) {
                Some(value) => Some(value),
                None => None,
            },
            None => None,
        }
    }
}

impl<V: Drop> ByteMap<V> {
    /// Sets the value of a key, and answers the one before. The map is as it was where memory runs out.
    pub fn insert(&mut self, key: Vec<u8>, value: V) -> Result<Option<V>, AllocError>
        ensures before { IfOk result (λ before. before ≡ map.get self.old key.items) }
        ensures ok { OnOk result (self.new ≡ map.insert self.old key.items value) }
        ensures err { OnErr result (self.new ≡ self.old) }
    {
        if let Some(trees) = &mut self.trees {
            return trees.insert(key, value);
        }
        let mut trees = Trees::new(self.alloc);
        let before = trees.insert(key, value)?;
        self.trees = Some(Box::new(self.alloc, trees)?);
        Ok(before)
    }

    /// The same with a key that lies elsewhere: only a long one is copied into memory of its own.
    pub fn insert_copy(&mut self, key: &[u8], value: V) -> Result<Option<V>, AllocError>
        ensures before { IfOk result (λ before. before ≡ map.get self.old key.now) }
        ensures ok { OnOk result (self.new ≡ map.insert self.old key.now value) }
        ensures err { OnErr result (self.new ≡ self.old) }
    {
        if let Some(trees) = &mut self.trees {
            return trees.insert_copy(self.alloc, key, value);
        }
        let mut trees = Trees::new(self.alloc);
        let before = trees.insert_copy(self.alloc, key, value)?;
        self.trees = Some(Box::new(self.alloc, trees)?);
        Ok(before)
    }

    /// Removes a key, and answers its value.
    pub fn remove(&mut self, key: &[u8]) -> Option<V>
        ensures before { result ≡ map.get self.old key.now }
        ensures removed { self.new ≡ map.remove self.old key.now }
    {
        if let Some(trees) = &mut self.trees {
            return trees.remove(key);
        }
        None
    }
}
