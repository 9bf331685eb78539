// Entries by key, whatever they hold.
ghost use Rattle.std.specs.Prelude.{◌≡◌, ◌≢◌, ◌<◌, ◌^◌, map as each, option_copied, OnOk, Err};
ghost use Rattle.std.specs.FinMap as map;
ghost use Rattle.mr_keyspace.specs.TimedKeys.{count_come, timed_keys, dated};
ghost use Rattle.mr_keyspace.specs.Steps.{without_deadline};

mod copying;
mod deadlines;
mod hashes;
mod lists;
mod looking;
mod moves;
mod running;
mod sets;
mod sorted_sets;
mod texts;
mod whole;

use crate::fault::ApplyFault;
use crate::keyspace::Keyspace;
use crate::timed_key::TimedKey;
use crate::value::{Entry, Value};
use mr_bytes::Word;
use mr_map::Keys;
use mr_order::Iter;
use std::alloc::Global;
use std::hash::RandomState;
use std::marker::Model;

/// Entries by key, seen as a finite map. What a dataset keeps is not asked of it.
#[derive(Drop)]
pub struct Entries {
    alloc: Global,
    by_key: Keyspace,
}

impl Model for Entries {
    ghost use Rattle.std.specs.FinMap as map;
    ghost use Rattle.std.specs.Coded.{coded_ℕ, coded_list};
    ghost use Rattle.mr_map.specs.Bytes.{bytes_cmp};
    ghost use Rattle.mr_keyspace.specs.declared.value.Entry.{Entry as Item};
    ghost use Rattle.mr_keyspace.specs.contracts.value.Entry as item;

    ghost Value = { map.FinMap bytes_cmp Item };

    ghost coded = { map.code (coded_list coded_ℕ) item.the_row.coded };

    ghost view = { λ a. a.by_key };
}

impl Entries {
    /// No entry. It takes no memory.
    pub fn new(alloc: Global, seed: RandomState) -> Self
        ensures { result ≡ map.empty }
    {
        Entries {
            alloc,
            by_key: Keyspace::new(alloc, seed),
        }
    }

    /// How many keys there are.
    pub fn len(&self) -> usize
        ensures len { result ≡ map.len self.now }
        ensures small { result < 2 ^ 63 }
    {
        self.by_key.len()
    }

    /// The keys, in byte order.
    pub fn keys(&self) -> Keys<'_, ()>
        ensures { result ≡ map.keys self.now }
    {
        self.by_key.keys()
    }

    /// What a key has.
    pub fn get(&self, key: &[u8]) -> Option<&Entry>
        ensures { option_copied result ≡ map.get self.now key.now }
    {
        self.by_key.get(key)
    }

    /// The keys that have a deadline with it, in order of deadline and then of bytes.
    pub fn timed_keys(&self) -> Iter<'_, TimedKey>
        ensures { each dated result ≡ timed_keys self.now }
    {
        self.by_key.timed_keys()
    }

    /// How many keys have a deadline that has come at a moment, in milliseconds. Its time grows with the number of digits of the number
    /// of deadlines. It takes no memory.
    pub fn count_come(&self, now: i64) -> usize
        ensures count { result ≡ count_come now (timed_keys self.now) }
        ensures small { result < 2 ^ 63 }
    {
        self.by_key.count_come(now)
    }

    /// Empties entries for which memory ran out.
    pub fn settle(&mut self, outcome: &Result<(), ApplyFault>)
        ensures spent { outcome.now ≡ Err ApplyFault.Memory → self.new ≡ map.empty }
        ensures kept { outcome.now ≢ Err ApplyFault.Memory → self.new ≡ self.old }
    {
        match outcome {
            Ok(()) => {}
            Err(ApplyFault::Refused) => {}
            Err(ApplyFault::Memory) => self.by_key.clear(),
        }
    }

    /// Sets what a key has, without a deadline. A key that is there is written over in its place.
    fn create(&mut self, key: Word<'_>, value: Value) -> Result<(), ApplyFault>
        ensures ok { OnOk result (self.new ≡
            map.insert self.old key.entry (without_deadline value)) }
        ensures refused { result ≢ Err ApplyFault.Refused }
    {
        let entry = Entry {
            value,
            deadline: None,
        };
        self.by_key.put(key, entry)?;
        Ok(())
    }
}
