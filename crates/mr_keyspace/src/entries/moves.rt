// Effects on two keys.
ghost use Rattle.std.specs.Prelude.{◌≡◌, ◌≢◌, IsTrue, false};
ghost use Rattle.std.specs.Str.{bytes_eq};
ghost use Rattle.std.specs.FinMap as map;
ghost use Rattle.mr_keyspace.specs.Changes.{has_member, is_member, move_item, carry_item, move_member, carry_member};
ghost use Rattle.mr_keyspace.specs.Outcome.{Applies};

use crate::entries::Entries;
use crate::fault::ApplyFault;
use crate::value::Value;
use mr_bytes::{End, Word};
use mr_effect::EffectWords;

impl Entries {
    /// Takes an item from one key's list and puts it to another's, or to the same.
    pub(super) fn move_item(
        &mut self,
        from: &[u8],
        to: Word<'_>,
        taken: End,
        put: End,
    ) -> Result<(), ApplyFault>
        ensures { Applies (move_item from.now to.entry taken put self.old) self.old result
            self.new }
    {
        if from == to.as_slice() {
            return self.turn(from, taken, put);
        }
        self.carry_item(from, to, taken, put)
    }

    /// Takes an item from an end of one key's list and puts it at an end of another's. Refused where there is no item,
    /// or where the other holds another kind.
    fn carry_item(
        &mut self,
        from: &[u8],
        to: Word<'_>,
        taken: End,
        put: End,
    ) -> Result<(), ApplyFault>
        requires { bytes_eq from.now to ≡ false }
        ensures { Applies (carry_item from.now to.entry taken put self.old) self.old result
            self.new }
    {
        if !self.takes_items(to.as_slice()) {
            return Err(ApplyFault::Refused);
        }
        let Some(item) = self.take_item(from, taken) else {
            return Err(ApplyFault::Refused);
        };
        self.put_item(to, put, item)
    }

    /// Takes a member from one key's set and puts it to another's, or to the same.
    pub(super) fn move_member(
        &mut self,
        from: &[u8],
        to: Word<'_>,
        member: Word<'_>,
    ) -> Result<(), ApplyFault>
        ensures { Applies (move_member from.now to.entry member.entry self.old) self.old result
            self.new }
    {
        if !self.has_member(from, member.as_slice()) {
            return Err(ApplyFault::Refused);
        }
        if from == to.as_slice() {
            return Ok(());
        }
        self.carry_member(from, to, member)
    }

    /// Takes a member from one key's set and puts it to another's. Refused where the other holds another kind.
    fn carry_member(
        &mut self,
        from: &[u8],
        to: Word<'_>,
        member: Word<'_>,
    ) -> Result<(), ApplyFault>
        requires apart { bytes_eq from.now to ≡ false }
        requires there { IsTrue (has_member member (map.get self.old from.now)) }
        ensures { Applies (carry_member from.now to.entry member.entry self.old) self.old result
            self.new }
    {
        if !self.takes_members(to.as_slice()) {
            return Err(ApplyFault::Refused);
        }
        let mut members = EffectWords::new(self.alloc);
        members.push(member)?;
        self.remove_members(from, members.as_slice())?;
        self.add_members(to, members)
    }

    /// Whether the key holds a set with this member.
    pub(super) fn has_member(&self, key: &[u8], member: &[u8]) -> bool
        ensures { result ≡ has_member member.now (map.get self.now key.now) }
    {
        match self.by_key.get(key) {
            None => false,
            Some(entry) => is_member(&entry.value, member),
        }
    }
}

/// Whether a value is a set with this member.
fn is_member(value: &Value, member: &[u8]) -> bool
    ensures { result ≡ is_member member.now value.now }
{
    match value {
        Value::Set(set) => set.contains(member),
        Value::Text(_) | Value::Hash(_) | Value::List(_) | Value::SortedSet(_) => false,
    }
}
