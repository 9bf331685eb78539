// The dataset: entries by key.
ghost use Rattle.std.specs.Prelude.{◌≡◌, ◌==◌, ◌<◌, ◌^◌, map as each, option_copied};
ghost use Rattle.std.specs.Option.{option_map, option_and_then};
ghost use Rattle.std.specs.FinMap as map;
ghost use Rattle.mr_keyspace.specs.TimedKeys.{count_come, timed_keys, dated};

mod applying;
mod together;
mod whole;

use mr_keyspace::{Entries, Entry, TimedKey, Value};
use mr_map::Keys;
use mr_order::Iter;
use std::alloc::Global;
use std::hash::RandomState;
use std::marker::Model;

/// Values and deadlines by key, seen as a finite map from keys to entries.
#[derive(Drop)]
pub struct Dataset {
    entries: Entries,
}

impl Model for Dataset {
    ghost use Rattle.std.specs.FinMap as map;
    ghost use Rattle.std.specs.Coded.{coded_ℕ, coded_list};
    ghost use Rattle.mr_map.specs.Bytes.{bytes_cmp};
    ghost use Rattle.mr_keyspace.specs.declared.value.Entry.{Entry as Item};
    ghost use Rattle.mr_keyspace.specs.contracts.value.Entry as item;
    ghost use Rattle.mr_data.specs.Dataset.{IsDataset};

    ghost Value = { map.FinMap bytes_cmp Item };

    ghost coded = { map.code (coded_list coded_ℕ) item.the_row.coded };

    ghost view = { λ a. a.entries };

    ghost invariant = { λ a. IsDataset a.entries };
}

impl Dataset {
    ghost use Rattle.mr_data.specs.Dataset.{IsDataset};

    /// An empty dataset. Its look-ups go by a hash with this seed, which changes no answer. It takes no memory.
    pub fn new(alloc: Global, seed: RandomState) -> Self
        ensures { result ≡ map.empty }
    {
        Dataset {
            entries: Entries::new(alloc, seed),
        }
    }

    /// How many keys there are, expired ones included.
    pub fn len(&self) -> usize
        ensures len { result ≡ map.len self.now }
        ensures small { result < 2 ^ 63 }
    {
        self.entries.len()
    }

    /// Whether there is no key.
    pub fn is_empty(&self) -> bool
        ensures { result ≡ (map.len self.now == 0) }
    {
        self.len() == 0
    }

    /// The keys, expired ones included, in byte order.
    pub fn keys(&self) -> Keys<'_, ()>
        ensures { result ≡ map.keys self.now }
    {
        self.entries.keys()
    }

    /// What a key has, expired or not.
    pub fn entry(&self, key: &[u8]) -> Option<&Entry>
        ensures entry { option_copied result ≡ map.get self.now key.now }
        ensures kept { IsDataset self.now }
    {
        self.entries.get(key)
    }

    /// The value of a key, expired or not.
    pub fn value(&self, key: &[u8]) -> Option<&Value>
        ensures value { option_copied result ≡
            option_map (λ e. e.value) (map.get self.now key.now) }
        ensures kept { IsDataset self.now }
    {
        match self.entry(key) {
            Some(entry) => Some(&entry.value),
            None => None,
        }
    }

    /// The deadline of a key, where it is there and has one.
    pub fn deadline(&self, key: &[u8]) -> Option<i64>
        ensures { result ≡ option_and_then (λ e. e.deadline) (map.get self.now key.now) }
    {
        self.entry(key)?.deadline
    }

    /// The keys that have a deadline with it, in order of deadline and then of bytes, expired or not.
    pub(crate) fn timed_keys(&self) -> Iter<'_, TimedKey>
        ensures all { each dated result ≡ timed_keys self.now }
        ensures kept { IsDataset self.now }
    {
        self.entries.timed_keys()
    }

    /// How many keys have a deadline that has come at a moment.
    pub(crate) fn count_come(&self, now: i64) -> usize
        ensures count { result ≡ count_come now (timed_keys self.now) }
    {
        self.entries.count_come(now)
    }
}
