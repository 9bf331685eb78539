// Effects on sorted sets.
ghost use Rattle.std.specs.Prelude.{◌≡◌, ◌≢◌, IsTrue, Err, OnOk};
ghost use Rattle.std.specs.List.{list_all};
ghost use Rattle.mr_map.specs.Bytes.{lent};
ghost use Rattle.mr_effect.specs.Effects.{is_some_of, has_score};
ghost use Rattle.mr_keyspace.specs.Collections.{with_scores, without_scores};
ghost use Rattle.mr_keyspace.specs.Changes.{at_key};
ghost use Rattle.mr_keyspace.specs.Steps.{set_scores_step, remove_scores_step};
ghost use Rattle.mr_keyspace.specs.Outcome.{Applies};

use crate::entries::Entries;
use crate::fault::ApplyFault;
use crate::value::Value;
use mr_bytes::Word;
use mr_zset::ZSet;
use std::alloc::AllocError;

impl Entries {
    /// Sets scores of the sorted set at a key. New members are copied.
    pub(super) fn set_scores(
        &mut self,
        key: Word<'_>,
        scores: &[(Word<'_>, i64)],
    ) -> Result<(), ApplyFault>
        requires some { IsTrue (is_some_of scores.now) }
        requires within { IsTrue (list_all has_score scores.now) }
        ensures { Applies (at_key (set_scores_step scores.now) key.entry self.old) self.old result
            self.new }
    {
        let alloc = self.alloc;
        let Some(value) = self.by_key.value_mut(key.as_slice()) else {
            let mut set = ZSet::new(alloc);
            put_scores(&mut set, scores)?;
            return self.create(key, Value::SortedSet(set));
        };
        let Value::SortedSet(held) = value else {
            return Err(ApplyFault::Refused);
        };
        put_scores(held, scores)?;
        Ok(())
    }

    /// Removes members of the sorted set at a key, and the key with the last of them.
    pub(super) fn remove_scores(
        &mut self,
        key: &[u8],
        members: &[Word<'_>],
    ) -> Result<(), ApplyFault>
        ensures applies { Applies (at_key (remove_scores_step members.now) key.now self.old)
            self.old result self.new }
        ensures memory { result ≢ Err ApplyFault.Memory }
    {
        let Some(value) = self.by_key.value_mut(key) else {
            return Ok(());
        };
        let Value::SortedSet(set) = value else {
            return Err(ApplyFault::Refused);
        };
        take_scores(set, members);
        if set.is_empty() {
            let _ = self.by_key.remove(key);
            return Ok(());
        }
        Ok(())
    }

    /// Removes members of the sorted set at a key, many at once, and the key with the last of them. It takes memory, but needs none.
    pub fn remove_many(&mut self, key: &[u8], members: &[&[u8]]) -> Result<(), ApplyFault>
        ensures applies { Applies (at_key (remove_scores_step (lent members.now)) key.now self.old)
            self.old result self.new }
        ensures memory { result ≢ Err ApplyFault.Memory }
    {
        let Some(value) = self.by_key.value_mut(key) else {
            return Ok(());
        };
        let Value::SortedSet(set) = value else {
            return Err(ApplyFault::Refused);
        };
        take_many(set, members);
        if set.is_empty() {
            let _ = self.by_key.remove(key);
            return Ok(());
        }
        Ok(())
    }
}

/// Gives members of a sorted set these scores, one after another.
fn put_scores(set: &mut ZSet, scores: &[(Word<'_>, i64)]) -> Result<(), AllocError>
    requires { IsTrue (list_all has_score scores.now) }
    ensures { OnOk result (set.new ≡ with_scores scores.now set.old) }
{
    for pair in scores {
        let _ = set.put(pair.0.as_slice(), pair.1)?;
    }
    Ok(())
}

/// Removes members from a sorted set, where they are there.
fn take_scores(set: &mut ZSet, members: &[Word<'_>])
    ensures { set.new ≡ without_scores members.now set.old }
{
    for member in members {
        let _ = set.remove(member.as_slice());
    }
}

/// Removes members from a sorted set, where they are there, many at once.
fn take_many(set: &mut ZSet, members: &[&[u8]])
    ensures { set.new ≡ without_scores (lent members.now) set.old }
{
    set.remove_all(members);
}
