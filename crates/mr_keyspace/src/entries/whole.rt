// Effects on many keys, and on whole entries.
ghost use Rattle.std.specs.Prelude.{◌≡◌, ◌≢◌, Err, OnOk, Some};
ghost use Rattle.std.specs.FinMap as map;
ghost use Rattle.mr_keyspace.specs.Changes.{rename, with_texts};
ghost use Rattle.mr_keyspace.specs.Outcome.{Applies};

use crate::entries::Entries;
use crate::entries::copying::same;
use crate::fault::ApplyFault;
use crate::value::Entry;
use mr_bytes::Word;
use mr_effect::EffectPairs;

impl Entries {
    /// Sets keys to texts, one after another.
    pub(super) fn mset(&mut self, pairs: EffectPairs<'_>) -> Result<(), ApplyFault>
        ensures { Applies (Some (with_texts pairs.entry self.old)) self.old result self.new }
    {
        for (key, text) in pairs.into_vec() {
            self.set(key, text)?;
        }
        Ok(())
    }

    /// Sets keys to texts, one after another, which are copied.
    pub(super) fn copy_all(&mut self, pairs: &EffectPairs<'_>) -> Result<(), ApplyFault>
        ensures { Applies (Some (with_texts pairs.now self.old)) self.old result self.new }
    {
        for pair in pairs.as_slice() {
            self.set(same(&pair.0), same(&pair.1))?;
        }
        Ok(())
    }

    /// Moves what one key has to another, or to the same.
    pub(super) fn rename(&mut self, from: &[u8], to: Word<'_>) -> Result<(), ApplyFault>
        ensures { Applies (rename from.now to.entry self.old) self.old result self.new }
    {
        if from == to.as_slice() {
            return self.keep(from);
        }
        let Some(entry) = self.by_key.remove(from) else {
            return Err(ApplyFault::Refused);
        };
        self.put(to, entry)
    }

    /// Changes nothing. A key that isn't there is refused.
    fn keep(&mut self, key: &[u8]) -> Result<(), ApplyFault>
        ensures { Applies (rename key.now key.now self.old) self.old result self.new }
    {
        if !self.by_key.contains_key(key) {
            return Err(ApplyFault::Refused);
        }
        Ok(())
    }

    /// Sets what a key has. A key that is there is written over in its place.
    pub(super) fn put(&mut self, key: Word<'_>, entry: Entry) -> Result<(), ApplyFault>
        ensures ok { OnOk result (self.new ≡ map.insert self.old key.entry entry) }
        ensures refused { result ≢ Err ApplyFault.Refused }
    {
        self.by_key.put(key, entry)?;
        Ok(())
    }

    /// Removes every key. It takes no memory.
    pub(super) fn clear(&mut self)
        ensures { self.new ≡ map.empty }
    {
        self.by_key.clear();
    }
}
