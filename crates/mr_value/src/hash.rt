// Hashes.
ghost use Rattle.std.specs.Prelude.{◌≡◌, ◌==◌, ◌<◌, ◌^◌, IfOk, OnOk, OnErr, option_copied};
ghost use Rattle.std.specs.FinMap as map;

use crate::compact_bytes::CompactBytes;
use crate::few_fields::FewFields;
use crate::field_values::{FieldValues, Fields};
use crate::kept_fields::KeptFields;
use std::alloc::{AllocError, Global};
use std::marker::Model;

/// A hash: values by field, seen as a finite map. Few short fields lie one after another with their values, and take little memory.
///
/// Where memory runs out, a hash is as it was.
pub struct Hash {
    alloc: Global,
    kept: KeptFields,
}

// By hand, so that it is one call wherever a value goes (docs/PROVING.md).
impl Drop for Hash {
    fn drop(self) {
        let Hash { alloc: _, kept: _ } = self;
    }
}

impl Model for Hash {
    ghost use Rattle.std.specs.Prelude.{ℕ, List};
    ghost use Rattle.std.specs.FinMap as map;
    ghost use Rattle.std.specs.Coded.{coded_ℕ, coded_list};
    ghost use Rattle.mr_map.specs.Bytes.{bytes_cmp};
    ghost use Rattle.mr_value.specs.Fields.{fields_in};

    ghost Value = { map.FinMap bytes_cmp (List ℕ) };

    ghost coded = { map.code (coded_list coded_ℕ) (coded_list coded_ℕ) };

    ghost view = { λ a. fields_in a.kept };
}

impl Hash {
    /// An empty hash. It takes no memory.
    pub fn new(alloc: Global) -> Hash
        ensures { result ≡ map.empty }
    {
        let kept = KeptFields::Few(FewFields::new(alloc));
        Hash { alloc, kept }
    }

    /// How many fields there are.
    pub fn len(&self) -> usize
        ensures len { result ≡ map.len self.now }
        ensures small { result < 2 ^ 63 }
    {
        self.kept.len()
    }

    /// Whether there is no field.
    pub fn is_empty(&self) -> bool
        ensures { result ≡ (map.len self.now == 0) }
    {
        self.len() == 0
    }

    /// The value of a field.
    pub fn get(&self, field: &[u8]) -> Option<&[u8]>
        ensures { option_copied result ≡ map.get self.now field.now }
    {
        self.kept.get(field)
    }

    /// Whether a field has a value.
    pub fn contains(&self, field: &[u8]) -> bool
        ensures { result ≡ map.contains_key self.now field.now }
    {
        self.get(field).is_some()
    }

    /// The fields, in byte order. It takes no memory.
    pub fn fields(&self) -> Fields<'_>
        ensures { result ≡ map.keys self.now }
    {
        Fields::new(self.iter())
    }

    /// The fields with their values, in byte order of fields. It takes no memory.
    pub fn iter(&self) -> FieldValues<'_>
        ensures { result ≡ map.entries self.now }
    {
        self.kept.iter()
    }

    /// Sets the value of a field, and answers whether it was there. A field and a value of few bytes have no memory of their own.
    pub fn put(&mut self, field: CompactBytes, value: CompactBytes) -> Result<bool, AllocError>
        ensures before { IfOk result (λ was. was ≡ map.contains_key self.old field) }
        ensures ok { OnOk result (self.new ≡ map.insert self.old field value) }
        ensures err { OnErr result (self.new ≡ self.old) }
    {
        let alloc = self.alloc;
        self.kept
            .make_room(alloc, field.as_slice(), value.as_slice())?;
        self.kept.put(field, value)
    }

    /// Removes a field, and answers whether it was there. It takes no memory.
    pub fn remove(&mut self, field: &[u8]) -> bool
        ensures before { result ≡ map.contains_key self.old field.now }
        ensures removed { self.new ≡ map.remove self.old field.now }
    {
        self.kept.remove(field)
    }
}
