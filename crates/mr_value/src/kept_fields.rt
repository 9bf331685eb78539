// What keeps the fields of a hash.
ghost use Rattle.std.specs.Prelude.{◌≡◌, ◌==◌, ◌<◌, ◌^◌, IfOk, OnErr, OnOk, option_copied};
ghost use Rattle.std.specs.FinMap as map;
ghost use Rattle.mr_value.specs.Fields.{HasRoom, fields_in};

use crate::by_name::ByName;
use crate::compact_bytes::CompactBytes;
use crate::few_fields::FewFields;
use crate::field_values::{FieldValues, FieldWalk};
use std::alloc::{AllocError, Global};

/// Few short fields are packed. What has grown past that has a place for each field from then on: such a map is behind a pointer, so
/// that a hash is no larger for it.
#[derive(Drop)]
pub(crate) enum KeptFields {
    Few(FewFields),
    Many(Box<ByName<CompactBytes>>),
}

impl KeptFields {
    /// How many fields there are.
    pub(crate) fn len(&self) -> usize
        ensures len { result ≡ map.len (fields_in self.now) }
        ensures small { result < 2 ^ 63 }
    {
        match self {
            KeptFields::Few(fields) => fields.len(),
            KeptFields::Many(fields) => fields.len(),
        }
    }

    /// The value of a field.
    pub(crate) fn get(&self, field: &[u8]) -> Option<&[u8]>
        ensures { option_copied result ≡ map.get (fields_in self.now) field.now }
    {
        match self {
            KeptFields::Few(fields) => fields.get(field),
            KeptFields::Many(fields) => value_in(fields, field),
        }
    }

    /// The fields with their values, in byte order of fields. It takes no memory.
    pub(crate) fn iter(&self) -> FieldValues<'_>
        ensures { result ≡ map.entries (fields_in self.now) }
    {
        match self {
            KeptFields::Few(fields) => FieldValues::new(FieldWalk::Few(fields.iter())),
            KeptFields::Many(fields) => FieldValues::new(FieldWalk::Many(fields.iter())),
        }
    }

    /// Makes room for a field with its value: where they aren't packed with the others, each gets a place of its own. Where memory
    /// runs out, all is as it was.
    pub(crate) fn make_room(
        &mut self,
        alloc: Global,
        field: &[u8],
        value: &[u8],
    ) -> Result<(), AllocError>
        ensures same { fields_in self.new ≡ fields_in self.old }
        ensures room { OnOk result (HasRoom field.now value.now self.new) }
    {
        let KeptFields::Few(fields) = self else {
            return Ok(());
        };
        if fields.has_room(field, value) {
            return Ok(());
        }
        let named = Box::new(alloc, fields.to_named(alloc)?)?;
        *self = KeptFields::Many(named);
        Ok(())
    }

    /// Sets the value of a field, where there is room for it, and answers whether it was there. Where memory runs out, all is as it
    /// was.
    pub(crate) fn put(
        &mut self,
        field: CompactBytes,
        value: CompactBytes,
    ) -> Result<bool, AllocError>
        requires { HasRoom field value self.old }
        ensures before { IfOk result (λ was. was ≡ map.contains_key (fields_in self.old) field) }
        ensures ok { OnOk result (fields_in self.new ≡
            map.insert (fields_in self.old) field value) }
        ensures err { OnErr result (fields_in self.new ≡ fields_in self.old) }
    {
        match self {
            KeptFields::Few(fields) => fields.put(field.as_slice(), value.as_slice()),
            KeptFields::Many(fields) => put_in(fields, field, value),
        }
    }

    /// Removes a field, and answers whether it was there. It takes no memory.
    pub(crate) fn remove(&mut self, field: &[u8]) -> bool
        ensures before { result ≡ map.contains_key (fields_in self.old) field.now }
        ensures removed { fields_in self.new ≡ map.remove (fields_in self.old) field.now }
    {
        match self {
            KeptFields::Few(fields) => fields.remove(field),
            KeptFields::Many(fields) => fields.remove(field).is_some(),
        }
    }
}

/// The bytes of a field's value.
fn value_in<'f>(fields: &'f ByName<CompactBytes>, field: &[u8]) -> Option<&'f [u8]>
    ensures { option_copied result ≡ map.get fields.now field.now }
{
    match fields.get(field) {
        Some(value) => Some(value.as_slice()),
        None => None,
    }
}

/// Sets the value of a field, and answers whether it was there. Where memory runs out, all is as it was.
fn put_in(
    fields: &mut ByName<CompactBytes>,
    field: CompactBytes,
    value: CompactBytes,
) -> Result<bool, AllocError>
    ensures before { IfOk result (λ was. was ≡ map.contains_key fields.old field) }
    ensures ok { OnOk result (fields.new ≡ map.insert fields.old field value) }
    ensures err { OnErr result (fields.new ≡ fields.old) }
{
    let before = fields.put(field, value)?;
    Ok(before.is_some())
}
