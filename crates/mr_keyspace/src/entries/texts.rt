// Effects on texts, and on keys of any kind.
ghost use Rattle.std.specs.Prelude.{◌≡◌, ◌≢◌, ◌↔◌, [], ◌++◌, is_some, Err, IfOk, None, OnOk, Some};
ghost use Rattle.std.specs.FinMap as map;
ghost use Rattle.mr_bytes.specs.Texts.{overwritten};
ghost use Rattle.mr_keyspace.specs.Changes.{at_key};
ghost use Rattle.mr_keyspace.specs.Steps.{set_step, del_step, append_step, set_range_step, increase_step, held, on, same, strings};
ghost use Rattle.mr_keyspace.specs.Texts.{fitting, increased, sum_with};
ghost use Rattle.mr_keyspace.specs.Outcome.{Applies};

use crate::entries::Entries;
use crate::fault::ApplyFault;
use crate::value::Value;
use mr_bytes::{Word, fits, read_i64};
use mr_value::CompactBytes;
use std::alloc::Global;

impl Entries {
    /// Sets a key to a text, without a deadline. A key that is there is written over in its place.
    pub(super) fn set(&mut self, key: Word<'_>, text: Word<'_>) -> Result<(), ApplyFault>
        ensures { Applies (at_key (set_step text.entry) key.entry self.old) self.old result
            self.new }
    {
        let text = CompactBytes::from_word(self.alloc, text)?;
        self.create(key, Value::Text(text))
    }

    /// Removes a key, where it is there.
    pub(super) fn delete(&mut self, key: &[u8]) -> Result<(), ApplyFault>
        ensures applies { Applies (at_key del_step key.now self.old) self.old result self.new }
        ensures memory { result ≢ Err ApplyFault.Memory }
    {
        let _ = self.by_key.remove(key);
        Ok(())
    }

    /// Puts more behind the text at a key.
    pub(super) fn append(&mut self, key: Word<'_>, more: Word<'_>) -> Result<(), ApplyFault>
        ensures { Applies (at_key (append_step more.entry) key.entry self.old) self.old result
            self.new }
    {
        let alloc = self.alloc;
        let Some(value) = self.by_key.value_mut(key.as_slice()) else {
            if !fits(more.as_slice()) {
                return Err(ApplyFault::Refused);
            }
            let text = CompactBytes::from_word(alloc, more)?;
            return self.create(key, Value::Text(text));
        };
        let Value::Text(text) = value else {
            return Err(ApplyFault::Refused);
        };
        extend(alloc, text, more.as_slice())
    }

    /// Writes a part over the text at a key, from an offset on.
    pub(super) fn set_range(
        &mut self,
        key: Word<'_>,
        offset: i64,
        part: &[u8],
    ) -> Result<(), ApplyFault>
        ensures { Applies (at_key (set_range_step offset part.now) key.entry self.old) self.old
            result self.new }
    {
        if part.is_empty() {
            return self.keep_text(key.as_slice());
        }
        self.write_range(key, offset.unsigned_abs() as usize, part)
    }

    /// Changes nothing. A key that holds another kind is refused.
    fn keep_text(&mut self, key: &[u8]) -> Result<(), ApplyFault>
        ensures { Applies (at_key (same (strings [])) key.now self.old) self.old result self.new }
    {
        if !self.takes_text(key) {
            return Err(ApplyFault::Refused);
        }
        Ok(())
    }

    /// Whether the key holds a text or is absent.
    pub(super) fn takes_text(&self, key: &[u8]) -> bool
        ensures { result ≡ is_some (held (strings []) (map.get self.now key.now)) }
    {
        match self.by_key.get(key) {
            None => true,
            Some(entry) => is_text(&entry.value),
        }
    }

    /// Writes a part over the text at a key, from an offset on. A key that isn't there has an empty text; refused where
    /// it holds another kind or the text grows past the limit.
    fn write_range(&mut self, key: Word<'_>, offset: usize, part: &[u8]) -> Result<(), ApplyFault>
        ensures { Applies
            (at_key (on (strings []) (λ text. fitting (overwritten offset part.now text))) key.entry
            self.old) self.old result self.new }
    {
        let alloc = self.alloc;
        let Some(value) = self.by_key.value_mut(key.as_slice()) else {
            let mut text = CompactBytes::new();
            overwrite(alloc, &mut text, offset, part)?;
            return self.create(key, Value::Text(text));
        };
        let Value::Text(text) = value else {
            return Err(ApplyFault::Refused);
        };
        overwrite(alloc, text, offset, part)
    }

    /// Makes the number greater that the text at a key spells.
    pub(super) fn increase(&mut self, key: Word<'_>, by: i64) -> Result<(), ApplyFault>
        ensures { Applies (at_key (increase_step by) key.entry self.old) self.old result self.new }
    {
        let alloc = self.alloc;
        let Some(value) = self.by_key.value_mut(key.as_slice()) else {
            let text = increased(alloc, by, b"0")?;
            return self.create(key, Value::Text(text));
        };
        let Value::Text(text) = value else {
            return Err(ApplyFault::Refused);
        };
        *text = increased(alloc, by, text.as_slice())?;
        Ok(())
    }
}

/// Whether a value is a text.
fn is_text(value: &Value) -> bool
    ensures { result ≡ is_some ((strings []).of value.now) }
{
    match value {
        Value::Text(_) => true,
        Value::Hash(_) | Value::List(_) | Value::Set(_) | Value::SortedSet(_) => false,
    }
}

/// Puts more behind a text. Refused, with no change, where that is longer than the limit.
fn extend(alloc: Global, text: &mut CompactBytes, more: &[u8]) -> Result<(), ApplyFault>
    ensures ok { OnOk result (fitting (text.old ++ more.now) ≡ Some text.new) }
    ensures refused { (result ≡ Err ApplyFault.Refused) ↔
        (fitting (text.old ++ more.now) ≡ None) }
    ensures unchanged { result ≡ Err ApplyFault.Refused → text.new ≡ text.old }
{
    if !text.fits_with(more) {
        return Err(ApplyFault::Refused);
    }
    text.extend_from_slice(alloc, more)?;
    Ok(())
}

/// Writes a part over a text from an offset on. Refused, with no change, where that is longer than the limit.
fn overwrite(
    alloc: Global,
    text: &mut CompactBytes,
    offset: usize,
    part: &[u8],
) -> Result<(), ApplyFault>
    ensures ok { OnOk result (fitting (overwritten offset part.now text.old) ≡ Some text.new) }
    ensures refused { (result ≡ Err ApplyFault.Refused) ↔
        (fitting (overwritten offset part.now text.old) ≡ None) }
    ensures unchanged { result ≡ Err ApplyFault.Refused → text.new ≡ text.old }
{
    if !text.fits_overwritten(offset, part) {
        return Err(ApplyFault::Refused);
    }
    text.overwrite(alloc, offset, part)?;
    Ok(())
}

/// The text of the number that a text spells, and this much, together. Refused where it spells none, or the sum has no
/// 64 bits.
fn increased(alloc: Global, by: i64, text: &[u8]) -> Result<CompactBytes, ApplyFault>
    ensures ok { IfOk result (λ sum. increased by text.now ≡ Some sum) }
    ensures refused { (result ≡ Err ApplyFault.Refused) ↔ (increased by text.now ≡ None) }
{
    let Some(sum) = sum_with(by, text) else {
        return Err(ApplyFault::Refused);
    };
    let text = CompactBytes::from_i64(alloc, sum)?;
    Ok(text)
}

/// The number that a text spells, and this much, together. None where it spells none, or the sum has no 64 bits.
pub(super) fn sum_with(by: i64, text: &[u8]) -> Option<i64>
    ensures { result ≡ sum_with by text.now }
{
    read_i64(text)?.checked_add(by)
}
