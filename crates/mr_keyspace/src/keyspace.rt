// Entries by key, with an index of their deadlines.
ghost use Rattle.std.specs.Prelude.{◌≡◌, ◌≢◌, ◌<◌, ◌^◌, None, Some, map as each, option_copied, option_map, Err, OnOk, OnErr};
ghost use Rattle.std.specs.FinMap as map;
ghost use Rattle.std.specs.Option.{option_copied_mut};
ghost use Rattle.mr_keyspace.specs.Changes.{at_key};
ghost use Rattle.mr_keyspace.specs.TimedKeys.{count_come, timed_keys, dated, IsDeadlineOf, Reindexes};
ghost use Rattle.mr_keyspace.specs.Outcome.{Applies};
ghost use Rattle.mr_keyspace.specs.Steps.{deadline_step};

use crate::deadlines::Deadlines;
use crate::fault::ApplyFault;
use crate::timed_key::TimedKey;
use crate::value::{Entry, Value};
use mr_bytes::Word;
use mr_map::{KeyedMap, Keys, ShortKey};
use mr_order::Iter;
use mr_value::CompactBytes;
use std::alloc::{AllocError, Global};
use std::hash::RandomState;
use std::marker::Model;

/// Entries by key, seen as a finite map, with an index of their deadlines beside them.
pub(crate) struct Keyspace {
    alloc: Global,
    seed: RandomState,
    by_key: KeyedMap<Entry>,
    // Exactly the deadlines of the entries.
    timed_keys: Deadlines,
}

// By hand, so that it is one call wherever a value goes (docs/PROVING.md).
impl Drop for Keyspace {
    fn drop(self) {
        let Keyspace {
            alloc: _,
            seed: _,
            by_key: _,
            timed_keys: _,
        } = self;
    }
}

impl Model for Keyspace {
    ghost use Rattle.std.specs.FinMap as map;
    ghost use Rattle.std.specs.Coded.{coded_ℕ, coded_list};
    ghost use Rattle.mr_map.specs.Bytes.{bytes_cmp};
    ghost use Rattle.mr_keyspace.specs.declared.value.Entry.{Entry as Item};
    ghost use Rattle.mr_keyspace.specs.contracts.value.Entry as item;
    ghost use Rattle.mr_keyspace.specs.TimedKeys.{IsIndex};

    ghost Value = { map.FinMap bytes_cmp Item };

    ghost coded = { map.code (coded_list coded_ℕ) item.the_row.coded };

    ghost view = { λ a. a.by_key };

    ghost invariant = { λ a. IsIndex a.by_key a.timed_keys };
}

impl Keyspace {
    /// No entry. It takes no memory.
    pub(crate) fn new(alloc: Global, seed: RandomState) -> Self
        ensures { result ≡ map.empty }
    {
        Keyspace {
            alloc,
            seed,
            by_key: KeyedMap::new(alloc, seed),
            timed_keys: Deadlines::new(alloc),
        }
    }

    /// How many keys there are.
    pub(crate) fn len(&self) -> usize
        ensures len { result ≡ map.len self.now }
        ensures small { result < 2 ^ 63 }
    {
        self.by_key.len()
    }

    /// The keys, in byte order.
    pub(crate) fn keys(&self) -> Keys<'_, ()>
        ensures { result ≡ map.keys self.now }
    {
        self.by_key.keys()
    }

    /// What a key has.
    pub(crate) fn get(&self, key: &[u8]) -> Option<&Entry>
        ensures { option_copied result ≡ map.get self.now key.now }
    {
        self.by_key.get(key)
    }

    /// Whether a key has an entry.
    pub(crate) fn contains_key(&self, key: &[u8]) -> bool
        ensures { result ≡ map.contains_key self.now key.now }
    {
        self.by_key.contains_key(key)
    }
}

impl Keyspace {
    ghost use Rattle.std.specs.Borrow.{sem};
    ghost use Rattle.mr_keyspace.specs.Lends.{lends_value};

    /// The value of a key, to be changed in place. Its deadline stays.
    pub(crate) fn value_mut(&mut self, key: &[u8]) -> Option<&mut Value>
        ensures* writes_back { sem 𝓛 (lends_value self.entry key.now result) }
        ensures value { option_copied_mut result ≡
            option_map (λ e. e.value) (map.get self.old key.now) }
    {
        match self.by_key.get_mut(key) {
            Some(entry) => Some(&mut entry.value),
            None => None,
        }
    }
}

impl Keyspace {
    /// Sets what a key has. A key that is there is written over in its place. Where memory runs out nothing has changed.
    pub(crate) fn put(&mut self, key: Word<'_>, entry: Entry) -> Result<(), AllocError>
        ensures ok { OnOk result (self.new ≡ map.insert self.old key.entry entry) }
        ensures err { OnErr result (self.new ≡ self.old) }
    {
        let Some(place) = self.by_key.get_mut(key.as_slice()) else {
            return self.create(key, entry);
        };
        if place.deadline == entry.deadline {
            *place = entry;
            return Ok(());
        }
        let name = CompactBytes::from_word(self.alloc, key)?;
        reindex(
            self.alloc,
            &mut self.timed_keys,
            name,
            place.deadline,
            entry.deadline,
        )?;
        *place = entry;
        Ok(())
    }

    /// Sets what a new key has. Where memory runs out nothing has changed.
    fn create(&mut self, key: Word<'_>, entry: Entry) -> Result<(), AllocError>
        requires { map.get self.old key ≡ None }
        ensures ok { OnOk result (self.new ≡ map.insert self.old key.entry entry) }
        ensures err { OnErr result (self.new ≡ self.old) }
    {
        let Some(deadline) = entry.deadline else {
            insert(self.alloc, &mut self.by_key, key, entry)?;
            return Ok(());
        };
        let name = CompactBytes::copied(self.alloc, key.as_slice())?;
        let again = CompactBytes::copied(self.alloc, key.as_slice())?;
        insert(self.alloc, &mut self.by_key, key, entry)?;
        let timed = TimedKey {
            deadline,
            key: name,
        };
        match self.timed_keys.insert(timed) {
            Ok(()) => Ok(()),
            Err(_refused) => {
                take_back(&mut self.by_key, &again);
                Err(AllocError)
            }
        }
    }

    /// Sets the deadline of a key, or takes it off. Where memory runs out nothing has changed.
    pub(crate) fn set_deadline(
        &mut self,
        key: Word<'_>,
        deadline: Option<i64>,
    ) -> Result<(), ApplyFault>
        ensures applies { Applies (at_key (deadline_step deadline) key.entry self.old) self.old
            result self.new }
        ensures memory { result ≡ Err ApplyFault.Memory → self.new ≡ self.old }
    {
        let Some(place) = self.by_key.get_mut(key.as_slice()) else {
            return Err(ApplyFault::Refused);
        };
        if place.deadline == deadline {
            return Ok(());
        }
        let name = CompactBytes::from_word(self.alloc, key)?;
        reindex(
            self.alloc,
            &mut self.timed_keys,
            name,
            place.deadline,
            deadline,
        )?;
        place.deadline = deadline;
        Ok(())
    }

    /// Removes a key, and answers what it had. It takes no memory.
    pub(crate) fn remove(&mut self, key: &[u8]) -> Option<Entry>
        ensures before { result ≡ map.get self.old key.now }
        ensures removed { self.new ≡ map.remove self.old key.now }
    {
        let (name, entry) = self.by_key.remove_entry(key)?;
        let name = CompactBytes::from_held(name);
        if let Some(deadline) = entry.deadline {
            unindex(&mut self.timed_keys, name, deadline);
        }
        Some(entry)
    }

    /// Removes every key, and lets go what memory they had. It takes no memory.
    pub(crate) fn clear(&mut self)
        ensures { self.new ≡ map.empty }
    {
        // Emptied in its place the hash would keep the table of all keys that it had.
        self.by_key = KeyedMap::new(self.alloc, self.seed);
        self.timed_keys.clear();
    }

    /// The keys that have a deadline with it, in order of deadline and then of bytes.
    pub(crate) fn timed_keys(&self) -> Iter<'_, TimedKey>
        ensures { each dated result ≡ timed_keys self.now }
    {
        self.timed_keys.iter()
    }

    /// How many keys have a deadline that has come at a moment. It takes no memory.
    pub(crate) fn count_come(&self, now: i64) -> usize
        ensures count { result ≡ count_come now (timed_keys self.now) }
        ensures small { result < 2 ^ 63 }
    {
        self.timed_keys.count_come(now)
    }
}

/// Sets what a new key has, apart from the index. Only a long key takes memory of its own. Where memory runs out nothing has
/// changed.
fn insert(
    alloc: Global,
    by_key: &mut KeyedMap<Entry>,
    key: Word<'_>,
    entry: Entry,
) -> Result<(), AllocError>
    ensures ok { OnOk result (by_key.new ≡ map.insert by_key.old key.entry entry) }
    ensures err { OnErr result (by_key.new ≡ by_key.old) }
{
    match ShortKey::of(key.as_slice()) {
        Some(short) => {
            let _ = by_key.insert_short(short, entry)?;
        }
        None => {
            let long = key.into_bytes(alloc)?.into_vec();
            let _ = by_key.insert(long, entry)?;
        }
    }
    Ok(())
}

/// Takes out a key that found no place in the index.
fn take_back(by_key: &mut KeyedMap<Entry>, key: &CompactBytes)
    ensures { by_key.new ≡ map.remove by_key.old key.now }
{
    let _ = by_key.remove(key.as_slice());
}

/// Makes this the deadline of a key in an index, in milliseconds, or none. Where memory runs out nothing has changed.
fn reindex(
    alloc: Global,
    timed_keys: &mut Deadlines,
    key: CompactBytes,
    before: Option<i64>,
    after: Option<i64>,
) -> Result<(), AllocError>
    requires { IsDeadlineOf key before timed_keys.old }
    ensures ok { OnOk result (Reindexes key after timed_keys.old timed_keys.new) }
    ensures err { OnErr result (timed_keys.new ≡ timed_keys.old) }
{
    match (before, after) {
        (None, None) => {}
        (None, Some(after)) => {
            timed_keys.insert(TimedKey {
                deadline: after,
                key,
            })?;
        }
        (Some(before), None) => unindex(timed_keys, key, before),
        (Some(before), Some(after)) => move_deadline(alloc, timed_keys, key, before, after)?,
    }
    Ok(())
}

/// Takes the deadline of a key out of an index.
fn unindex(timed_keys: &mut Deadlines, key: CompactBytes, deadline: i64)
    requires { IsDeadlineOf key (Some deadline) timed_keys.old }
    ensures { Reindexes key None timed_keys.old timed_keys.new }
{
    timed_keys.remove(&TimedKey { deadline, key });
}

/// Makes another moment the deadline of a key in an index. Where memory runs out nothing has changed.
fn move_deadline(
    alloc: Global,
    timed_keys: &mut Deadlines,
    key: CompactBytes,
    before: i64,
    after: i64,
) -> Result<(), AllocError>
    requires { IsDeadlineOf key (Some before) timed_keys.old }
    ensures ok { OnOk result (Reindexes key (Some after) timed_keys.old timed_keys.new) }
    ensures err { OnErr result (timed_keys.new ≡ timed_keys.old) }
{
    if before == after {
        return Ok(());
    }
    let name = CompactBytes::copied(alloc, key.as_slice())?;
    timed_keys.insert(TimedKey {
        deadline: after,
        key: name,
    })?;
    timed_keys.remove(&TimedKey {
        deadline: before,
        key,
    });
    Ok(())
}
