// Effects of every kind.
ghost use Rattle.std.specs.Prelude.{◌≡◌, ◌≢◌, IsTrue, Err};
ghost use Rattle.mr_effect.specs.Effects.{has_spelling};
ghost use Rattle.mr_keyspace.specs.Changes.{change, NeedsNoMemory};
ghost use Rattle.mr_keyspace.specs.Outcome.{Applies};

use crate::entries::Entries;
use crate::entries::copying::same;
use crate::fault::ApplyFault;
use mr_effect::Effect;

impl Entries {
    /// Does an effect, and moves in the words that own their memory.
    #[tactic(auto, unfolding(crate::specs::Changes::change))]
    pub fn take(&mut self, effect: Effect<'_>) -> Result<(), ApplyFault>
        requires { IsTrue (has_spelling effect) }
        ensures applies { Applies (change effect.entry self.old) self.old result self.new }
        ensures memory { NeedsNoMemory effect.entry → result ≢ Err ApplyFault.Memory }
    {
        match effect {
            Effect::Set { key, value } => self.set(key, value),
            Effect::SetUntil {
                key,
                value,
                deadline,
            } => self.set_until(key, value, deadline),
            Effect::SetKeeping { key, value } => self.set_keeping(key, value),
            Effect::Del { key } => self.delete(key.as_slice()),
            Effect::Expire { key, deadline } => self.expire(key, deadline),
            Effect::Persist { key } => self.persist(key),
            Effect::SetFields { key, pairs } => self.set_fields(key, pairs),
            Effect::RemoveFields { key, fields } => {
                self.remove_fields(key.as_slice(), fields.as_slice())
            }
            Effect::Push { key, end, items } => self.push(key, end, items),
            Effect::Pop { key, end, count } => self.pop(key.as_slice(), end, count),
            Effect::SetItem { key, place, item } => self.set_item(key.as_slice(), place, item),
            Effect::InsertItem {
                key,
                side,
                pivot,
                item,
            } => self.insert_item(key.as_slice(), side, pivot.as_slice(), item),
            Effect::RemoveItems { key, count, item } => {
                self.remove_items(key.as_slice(), count, item.as_slice())
            }
            Effect::Trim { key, first, last } => self.trim(key.as_slice(), first, last),
            Effect::MoveItem {
                from,
                to,
                taken,
                put,
            } => self.move_item(from.as_slice(), to, taken, put),
            Effect::AddMembers { key, members } => self.add_members(key, members),
            Effect::RemoveMembers { key, members } => {
                self.remove_members(key.as_slice(), members.as_slice())
            }
            Effect::MoveMember { from, to, member } => {
                self.move_member(from.as_slice(), to, member)
            }
            Effect::MSet { pairs } => self.mset(pairs),
            Effect::Append { key, value } => self.append(key, value),
            Effect::SetRange { key, offset, value } => {
                self.set_range(key, offset, value.as_slice())
            }
            Effect::Increase { key, by } => self.increase(key, by),
            Effect::Rename { from, to } => self.rename(from.as_slice(), to),
            Effect::Clear => {
                self.clear();
                Ok(())
            }
            Effect::Ping => Ok(()),
            Effect::SetScores { key, scores } => self.set_scores(key, scores.as_slice()),
            Effect::RemoveScores { key, members } => {
                self.remove_scores(key.as_slice(), members.as_slice())
            }
        }
    }

    /// Does an effect, whose words are copied.
    #[tactic(auto, unfolding(crate::specs::Changes::change))]
    pub fn copy(&mut self, effect: &Effect<'_>) -> Result<(), ApplyFault>
        requires { IsTrue (has_spelling effect.now) }
        ensures applies { Applies (change effect.now self.old) self.old result self.new }
        ensures memory { NeedsNoMemory effect.now → result ≢ Err ApplyFault.Memory }
    {
        match effect {
            Effect::Set { key, value } => self.set(same(key), same(value)),
            Effect::SetUntil {
                key,
                value,
                deadline,
            } => self.set_until(same(key), same(value), *deadline),
            Effect::SetKeeping { key, value } => self.set_keeping(same(key), same(value)),
            Effect::Del { key } => self.delete(key.as_slice()),
            Effect::Expire { key, deadline } => self.expire(same(key), *deadline),
            Effect::Persist { key } => self.persist(same(key)),
            Effect::SetFields { key, pairs } => self.copy_fields(key, pairs),
            Effect::RemoveFields { key, fields } => {
                self.remove_fields(key.as_slice(), fields.as_slice())
            }
            Effect::Push { key, end, items } => self.copy_items(key, *end, items),
            Effect::Pop { key, end, count } => self.pop(key.as_slice(), *end, *count),
            Effect::SetItem { key, place, item } => {
                self.set_item(key.as_slice(), *place, same(item))
            }
            Effect::InsertItem {
                key,
                side,
                pivot,
                item,
            } => self.insert_item(key.as_slice(), *side, pivot.as_slice(), same(item)),
            Effect::RemoveItems { key, count, item } => {
                self.remove_items(key.as_slice(), *count, item.as_slice())
            }
            Effect::Trim { key, first, last } => self.trim(key.as_slice(), *first, *last),
            Effect::MoveItem {
                from,
                to,
                taken,
                put,
            } => self.move_item(from.as_slice(), same(to), *taken, *put),
            Effect::AddMembers { key, members } => self.copy_members(key, members),
            Effect::RemoveMembers { key, members } => {
                self.remove_members(key.as_slice(), members.as_slice())
            }
            Effect::MoveMember { from, to, member } => {
                self.move_member(from.as_slice(), same(to), same(member))
            }
            Effect::MSet { pairs } => self.copy_all(pairs),
            Effect::Append { key, value } => self.append(same(key), same(value)),
            Effect::SetRange { key, offset, value } => {
                self.set_range(same(key), *offset, value.as_slice())
            }
            Effect::Increase { key, by } => self.increase(same(key), *by),
            Effect::Rename { from, to } => self.rename(from.as_slice(), same(to)),
            Effect::Clear => {
                self.clear();
                Ok(())
            }
            Effect::Ping => Ok(()),
            Effect::SetScores { key, scores } => { self.set_scores(same(key), scores.as_slice()) }
            Effect::RemoveScores { key, members } => {
                self.remove_scores(key.as_slice(), members.as_slice())
            }
        }
    }
}
