// Effects on sets.
ghost use Rattle.std.specs.Prelude.{◌≡◌, ◌≢◌, IsTrue, Err, OnOk};
ghost use Rattle.mr_effect.specs.Effects.{is_some_of};
ghost use Rattle.mr_keyspace.specs.Collections.{with_members, without_members};
ghost use Rattle.mr_keyspace.specs.Changes.{at_key};
ghost use Rattle.mr_keyspace.specs.Steps.{add_members_step, remove_members_step};
ghost use Rattle.mr_keyspace.specs.Outcome.{Applies};

use crate::entries::Entries;
use crate::fault::ApplyFault;
use crate::value::Value;
use mr_bytes::Word;
use mr_effect::EffectWords;
use mr_value::SetValue;
use std::alloc::{AllocError, Global};

impl Entries {
    /// Adds members to the set at a key.
    pub(super) fn add_members(
        &mut self,
        key: Word<'_>,
        members: EffectWords<'_>,
    ) -> Result<(), ApplyFault>
        requires { IsTrue (is_some_of members) }
        ensures { Applies (at_key (add_members_step members.entry) key.entry self.old) self.old
            result self.new }
    {
        let alloc = self.alloc;
        let Some(value) = self.by_key.value_mut(key.as_slice()) else {
            let mut set = SetValue::new(alloc);
            put_members(alloc, &mut set, members)?;
            return self.create(key, Value::Set(set));
        };
        let Value::Set(set) = value else {
            return Err(ApplyFault::Refused);
        };
        put_members(alloc, set, members)?;
        Ok(())
    }

    /// Removes members of the set at a key, and the key with the last of them.
    pub(super) fn remove_members(
        &mut self,
        key: &[u8],
        members: &[Word<'_>],
    ) -> Result<(), ApplyFault>
        ensures applies { Applies (at_key (remove_members_step members.now) key.now self.old)
            self.old result self.new }
        ensures memory { result ≢ Err ApplyFault.Memory }
    {
        let Some(value) = self.by_key.value_mut(key) else {
            return Ok(());
        };
        let Value::Set(set) = value else {
            return Err(ApplyFault::Refused);
        };
        take_members(set, members);
        if set.is_empty() {
            let _ = self.by_key.remove(key);
            return Ok(());
        }
        Ok(())
    }
}

/// Adds members to a set, one after another.
fn put_members(
    alloc: Global,
    set: &mut SetValue,
    members: EffectWords<'_>,
) -> Result<(), AllocError>
    ensures { OnOk result (set.new ≡ with_members members.entry set.old) }
{
    for member in members.into_vec() {
        set.insert_word(alloc, member)?;
    }
    Ok(())
}

/// Removes members from a set, where they are there.
fn take_members(set: &mut SetValue, members: &[Word<'_>])
    ensures { set.new ≡ without_members members.now set.old }
{
    for member in members {
        let _ = set.remove(member.as_slice());
    }
}
