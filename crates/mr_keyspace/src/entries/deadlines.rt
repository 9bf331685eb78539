// Effects on deadlines.
ghost use Rattle.mr_keyspace.specs.Changes.{at_key};
ghost use Rattle.mr_keyspace.specs.Steps.{set_until_step, set_keeping_step, expire_step, persist_step};
ghost use Rattle.mr_keyspace.specs.Outcome.{Applies};

use crate::entries::Entries;
use crate::fault::ApplyFault;
use crate::value::{Entry, Value};
use mr_bytes::Word;
use mr_value::CompactBytes;

impl Entries {
    /// Sets a key to a text, until a moment. A key that is there is written over in its place.
    pub(super) fn set_until(
        &mut self,
        key: Word<'_>,
        text: Word<'_>,
        deadline: i64,
    ) -> Result<(), ApplyFault>
        ensures { Applies (at_key (set_until_step text.entry deadline) key.entry self.old) self.old
            result self.new }
    {
        let text = CompactBytes::from_word(self.alloc, text)?;
        let entry = Entry {
            value: Value::Text(text),
            deadline: Some(deadline),
        };
        self.put(key, entry)
    }

    /// Sets a key to a text, and leaves its deadline.
    pub(super) fn set_keeping(&mut self, key: Word<'_>, text: Word<'_>) -> Result<(), ApplyFault>
        ensures { Applies (at_key (set_keeping_step text.entry) key.entry self.old) self.old result
            self.new }
    {
        let text = CompactBytes::from_word(self.alloc, text)?;
        let Some(value) = self.by_key.value_mut(key.as_slice()) else {
            return self.create(key, Value::Text(text));
        };
        *value = Value::Text(text);
        Ok(())
    }

    /// Sets the deadline of a key.
    pub(super) fn expire(&mut self, key: Word<'_>, deadline: i64) -> Result<(), ApplyFault>
        ensures { Applies (at_key (expire_step deadline) key.entry self.old) self.old result
            self.new }
    {
        self.by_key.set_deadline(key, Some(deadline))
    }

    /// Takes the deadline off a key.
    pub(super) fn persist(&mut self, key: Word<'_>) -> Result<(), ApplyFault>
        ensures { Applies (at_key persist_step key.entry self.old) self.old result self.new }
    {
        self.by_key.set_deadline(key, None)
    }
}
