// Effects that take many members of a sorted set out, of which others stay.
ghost use Rattle.std.specs.Prelude.{◌≡◌, ◌++◌, IsTrue, IfSome, Some, true};
ghost use Rattle.std.specs.Bool.{⊤, MatchBool};
ghost use Rattle.mr_map.specs.Bytes.{lent};
ghost use Rattle.mr_bytes.specs.Words.{fits};
ghost use Rattle.mr_keyspace.specs.Changes.{at_key};
ghost use Rattle.mr_keyspace.specs.Steps.{remove_scores_step};
ghost use Rattle.mr_data.specs.Meaning.{apply_all};
ghost use Rattle.mr_data.specs.Whole.{TakeAll, TakesMore};

use crate::dataset::Dataset;
use crate::dataset::applying::is_possible;
use crate::dataset::whole::key_of;
use mr_bytes::Word;
use mr_effect::Effect;
use std::alloc::Global;

impl Dataset {
    /// Does several effects at once, where they take members of one sorted set out and do nothing else, and others stay; says
    /// whether it did, for else nothing has changed. It takes memory, but needs none: where it is lacking it does nothing.
    pub(super) fn remove_together(&mut self, alloc: Global, effects: &[Effect<'_>]) -> bool
        ensures { MatchBool result (apply_all effects.now self.old ≡ Some self.new) (self.new ≡
            self.old) }
    {
        match self.named_together(alloc, effects) {
            Some((key, members)) => self.entries.remove_many(key, &members).is_ok(),
            None => false,
        }
    }

    /// The key of a sorted set and the members that several effects take out of it, where they do nothing else and others stay.
    fn named_together<'e>(
        &self,
        alloc: Global,
        effects: &'e [Effect<'_>],
    ) -> Option<(&'e [u8], Vec<&'e [u8]>)>
        ensures fits { IfSome result (λ named. IsTrue (fits named.0.now)) }
        ensures same { IfSome result (λ named.
            apply_all effects.now self.now ≡
            at_key (remove_scores_step (lent named.1.items)) named.0.now self.now) }
    {
        let [first, _, ..] = effects else {
            return None;
        };
        let key = key_of(first)?;
        let set = self.sorted_set(key)?;
        let members = members_of(alloc, effects, key)?;
        if set.len() <= members.len() {
            return None;
        }
        Some((key, members))
    }
}

/// The members that effects, one after another, take out of the sorted set at a key, if they do nothing else and memory
/// suffices.
fn members_of<'e>(alloc: Global, effects: &'e [Effect<'_>], key: &[u8]) -> Option<Vec<&'e [u8]>>
    ensures { IfSome result (λ members. TakeAll key.now effects.now (lent members.items)) }
{
    let mut members = Vec::new(alloc);
    for effect in effects {
        if !takes_more(effect, key, &mut members) {
            return None;
        }
    }
    Some(members)
}

/// Whether an effect may be done and takes members out of the sorted set at a key, which are put behind those that are there.
fn takes_more<'e>(effect: &'e Effect<'_>, key: &[u8], members: &mut Vec<&'e [u8]>) -> bool
    ensures { MatchBool result
        (TakesMore key.now effect.now (lent members.old.items) (lent members.new.items)) ⊤ }
{
    match effect {
        Effect::RemoveScores {
            key: named,
            members: words,
        } => {
            named.as_slice() == key && is_possible(effect) && put_behind(words.as_slice(), members)
        }
        _ => false,
    }
}

/// Puts words behind members, and says whether memory sufficed.
fn put_behind<'e>(words: &'e [Word<'_>], members: &mut Vec<&'e [u8]>) -> bool
    ensures { result ≡ true → lent members.new.items ≡ lent members.old.items ++ words.now }
{
    for word in words {
        if members.push(word.as_slice()).is_err() {
            return false;
        }
    }
    true
}
