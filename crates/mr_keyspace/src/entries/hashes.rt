// Effects on hashes.
ghost use Rattle.std.specs.Prelude.{◌≡◌, ◌≢◌, IsTrue, Err, OnOk};
ghost use Rattle.mr_effect.specs.Effects.{is_some_of};
ghost use Rattle.mr_keyspace.specs.Collections.{with_fields, without_fields};
ghost use Rattle.mr_keyspace.specs.Changes.{at_key};
ghost use Rattle.mr_keyspace.specs.Steps.{set_fields_step, remove_fields_step};
ghost use Rattle.mr_keyspace.specs.Outcome.{Applies};

use crate::entries::Entries;
use crate::fault::ApplyFault;
use crate::value::Value;
use mr_bytes::Word;
use mr_effect::EffectPairs;
use mr_value::{CompactBytes, Hash};
use std::alloc::{AllocError, Global};

impl Entries {
    /// Sets fields of the hash at a key.
    pub(super) fn set_fields(
        &mut self,
        key: Word<'_>,
        pairs: EffectPairs<'_>,
    ) -> Result<(), ApplyFault>
        requires { IsTrue (is_some_of pairs) }
        ensures { Applies (at_key (set_fields_step pairs.entry) key.entry self.old) self.old result
            self.new }
    {
        let alloc = self.alloc;
        let Some(value) = self.by_key.value_mut(key.as_slice()) else {
            let mut hash = Hash::new(alloc);
            put_fields(alloc, &mut hash, pairs)?;
            return self.create(key, Value::Hash(hash));
        };
        let Value::Hash(hash) = value else {
            return Err(ApplyFault::Refused);
        };
        put_fields(alloc, hash, pairs)?;
        Ok(())
    }

    /// Removes fields of the hash at a key, and the key with the last of them.
    pub(super) fn remove_fields(
        &mut self,
        key: &[u8],
        fields: &[Word<'_>],
    ) -> Result<(), ApplyFault>
        ensures applies { Applies (at_key (remove_fields_step fields.now) key.now self.old) self.old
            result self.new }
        ensures memory { result ≢ Err ApplyFault.Memory }
    {
        let Some(value) = self.by_key.value_mut(key) else {
            return Ok(());
        };
        let Value::Hash(hash) = value else {
            return Err(ApplyFault::Refused);
        };
        take_fields(hash, fields);
        if hash.is_empty() {
            let _ = self.by_key.remove(key);
            return Ok(());
        }
        Ok(())
    }
}

/// Sets fields of a hash, one after another.
fn put_fields(alloc: Global, hash: &mut Hash, pairs: EffectPairs<'_>) -> Result<(), AllocError>
    ensures { OnOk result (hash.new ≡ with_fields pairs.entry hash.old) }
{
    for (field, value) in pairs.into_vec() {
        let field = CompactBytes::from_word(alloc, field)?;
        let value = CompactBytes::from_word(alloc, value)?;
        hash.put(field, value)?;
    }
    Ok(())
}

/// Removes fields of a hash, where they are there.
fn take_fields(hash: &mut Hash, fields: &[Word<'_>])
    ensures { hash.new ≡ without_fields fields.now hash.old }
{
    for field in fields {
        let _ = hash.remove(field.as_slice());
    }
}
