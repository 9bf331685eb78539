// Effects that take all members of a sorted set out, by which its key goes.
ghost use Rattle.std.specs.Prelude.{◌≡◌, ◌++◌, IsTrue, IfSome, Some, true, option_copied};
ghost use Rattle.std.specs.Bool.{⊤, MatchBool};
ghost use Rattle.std.specs.FinMap as map;
ghost use Rattle.std.specs.Option.{option_and_then};
ghost use Rattle.mr_bytes.specs.Words.{fits};
ghost use Rattle.mr_keyspace.specs.Steps.{sorted_set_of};
ghost use Rattle.mr_data.specs.Dataset.{IsDataset};
ghost use Rattle.mr_data.specs.Meaning.{apply_all};
ghost use Rattle.mr_data.specs.Whole.{names, TakesFirst, TakeAll};

use crate::dataset::Dataset;
use crate::dataset::applying::is_possible;
use mr_bytes::Word;
use mr_effect::Effect;
use mr_keyspace::Value;
use mr_zset::{MemberScores, ZSet};

impl Dataset {
    /// The key of a sorted set, where several effects take its members out, all of them in byte order, and do nothing else.
    /// It takes no memory.
    pub(super) fn whole_set<'e>(&self, effects: &'e [Effect<'_>]) -> Option<&'e [u8]>
        ensures fits { IfSome result (λ key. IsTrue (fits key.now)) }
        ensures goes { IfSome result (λ key.
            apply_all effects.now self.now ≡ Some (map.remove self.now key.now)) }
    {
        let [first, _, ..] = effects else {
            return None;
        };
        let key = key_of(first)?;
        let Some(set) = self.sorted_set(key) else {
            return None;
        };
        if !take_all(effects, key, set.iter()) {
            return None;
        }
        Some(key)
    }

    /// The sorted set at a key, if it holds one.
    pub(super) fn sorted_set(&self, key: &[u8]) -> Option<&ZSet>
        ensures set { option_copied result ≡
            option_and_then (λ e. sorted_set_of e.value) (map.get self.now key.now) }
        ensures kept { IsDataset self.now }
    {
        match self.value(key) {
            Some(Value::SortedSet(set)) => Some(set),
            _ => None,
        }
    }

    /// Removes a key. It takes no memory.
    pub(super) fn remove(&mut self, key: &[u8])
        requires { IsTrue (fits key.now) }
        ensures { self.new ≡ map.remove self.old key.now }
    {
        let _ = self.apply_owned(Effect::Del {
            key: Word::borrowed(key),
        });
    }
}

/// The key of the sorted set that an effect takes members out of, if it does that.
pub(super) fn key_of<'e>(effect: &'e Effect<'_>) -> Option<&'e [u8]> {
    match effect {
        Effect::RemoveScores { key, .. } => Some(key.as_slice()),
        _ => None,
    }
}

/// Whether effects, one after another, take these members out of the sorted set at a key, all of them, and do nothing else.
fn take_all(effects: &[Effect<'_>], key: &[u8], members: MemberScores<'_>) -> bool
    ensures { MatchBool result (TakeAll key.now effects.now (names members.entry)) ⊤ }
{
    let mut left = members;
    for effect in effects {
        if !takes_first(effect, key, &mut left) {
            return false;
        }
    }
    left.next().is_none()
}

/// Whether an effect may be done and takes members out of the sorted set at a key that are the first of these, which are
/// then behind them.
fn takes_first(effect: &Effect<'_>, key: &[u8], left: &mut MemberScores<'_>) -> bool
    ensures { MatchBool result (TakesFirst key.now effect.now (names left.old) (names left.new))
        ⊤ }
{
    match effect {
        Effect::RemoveScores {
            key: named,
            members,
        } => {
            named.as_slice() == key && is_possible(effect) && are_first(members.as_slice(), left)
        }
        _ => false,
    }
}

/// Whether these words are the first members, which are then behind them.
fn are_first(words: &[Word<'_>], left: &mut MemberScores<'_>) -> bool
    ensures { result ≡ true → names left.old ≡ words.now ++ names left.new }
{
    for word in words {
        let Some((member, _)) = left.next() else {
            return false;
        };
        if member != word.as_slice() {
            return false;
        }
    }
    true
}
