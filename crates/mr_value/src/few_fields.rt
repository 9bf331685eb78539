// The fields of a small hash, packed.
ghost use Rattle.std.specs.Prelude.{◌≡◌, ◌<◌, ◌^◌, IfOk, IsTrue, OnErr, OnOk, T, length, option_copied};
ghost use Rattle.std.specs.FinMap as map;
ghost use Rattle.std.specs.FinMap.Entries.{is_sorted};
ghost use Rattle.mr_map.specs.Bytes.{bytes_cmp};
ghost use Rattle.mr_value.specs.Filling.{with_pairs};

use crate::by_name::ByName;
use crate::compact_bytes::CompactBytes;
use mr_packed::{PackedPairs, TwoByTwo};
use std::alloc::{AllocError, Global};
use std::marker::Model;

// How many fields are packed at most.
const MOST_FIELDS: usize = 128;

// How many bytes a field has at most that is packed, and a value.
const MOST_BYTES: usize = 64;

/// A finite map of few short fields, one after another in byte order, each with its value behind it.
///
/// Where memory runs out, it is as it was.
#[derive(Drop)]
pub(crate) struct FewFields {
    pairs: PackedPairs,
}

impl Model for FewFields {
    ghost use Rattle.std.specs.Prelude.{ℕ, List, T};
    ghost use Rattle.std.specs.FinMap as map;
    ghost use Rattle.std.specs.FinMap.Entries.{is_sorted};
    ghost use Rattle.std.specs.Coded.{coded_ℕ, coded_list};
    ghost use Rattle.mr_map.specs.Bytes.{bytes_cmp};

    ghost Value = { map.FinMap bytes_cmp (List ℕ) };

    ghost coded = { map.code (coded_list coded_ℕ) (coded_list coded_ℕ) };

    ghost view = { λ a. map.from_entries a.pairs };

    ghost invariant = { λ a. T (is_sorted bytes_cmp a.pairs) };
}

impl FewFields {
    /// No fields. It takes no memory.
    pub(crate) fn new(alloc: Global) -> FewFields
        ensures { result ≡ map.empty }
    {
        FewFields {
            pairs: PackedPairs::new(alloc),
        }
    }

    /// How many fields there are.
    pub(crate) fn len(&self) -> usize
        ensures len { result ≡ map.len self.now }
        ensures small { result < 2 ^ 63 }
    {
        self.pairs.len()
    }

    /// The value of a field.
    pub(crate) fn get(&self, field: &[u8]) -> Option<&[u8]>
        ensures { option_copied result ≡ map.get self.now field.now }
    {
        match self.pairs.find(field) {
            Some(at) => Some(self.pairs.second_at(at)),
            None => None,
        }
    }

    /// The fields with their values, in byte order of fields. It takes no memory.
    pub(crate) fn iter(&self) -> TwoByTwo<'_>
        ensures { result ≡ map.entries self.now }
    {
        self.pairs.iter()
    }

    /// Whether a field is packed with its value: both are short, and the field is there, or there is room for one more.
    pub(crate) fn has_room(&self, field: &[u8], value: &[u8]) -> bool
        ensures field { IsTrue result → length field.now < 256 }
        ensures value { IsTrue result → length value.now < 256 }
    {
        field.len() <= MOST_BYTES
            && value.len() <= MOST_BYTES
            && (self.len() < MOST_FIELDS || self.get(field).is_some())
    }

    /// Sets the value of a field, and answers whether it was there.
    pub(crate) fn put(&mut self, field: &[u8], value: &[u8]) -> Result<bool, AllocError>
        requires field { length field.now < 256 }
        requires value { length value.now < 256 }
        ensures before { IfOk result (λ was. was ≡ map.contains_key self.old field.now) }
        ensures ok { OnOk result (self.new ≡ map.insert self.old field.now value.now) }
        ensures err { OnErr result (self.new ≡ self.old) }
    {
        match self.pairs.seek(field) {
            Ok(at) => {
                self.pairs.replace_second(at, value)?;
                Ok(true)
            }
            Err(at) => {
                self.pairs.insert(at, field, value)?;
                Ok(false)
            }
        }
    }

    /// Removes a field, and answers whether it was there. It takes no memory.
    pub(crate) fn remove(&mut self, field: &[u8]) -> bool
        ensures before { result ≡ map.contains_key self.old field.now }
        ensures removed { self.new ≡ map.remove self.old field.now }
    {
        let Some(at) = self.pairs.find(field) else {
            return false;
        };
        self.pairs.remove(at);
        true
    }

    /// The same map, in which each field has a place of its own.
    pub(crate) fn to_named(&self, alloc: Global) -> Result<ByName<CompactBytes>, AllocError>
        ensures { IfOk result (λ named. named ≡ self.now) }
    {
        named(alloc, self.pairs.iter())
    }
}

/// A map of pairs, put there one after another.
fn named(alloc: Global, pairs: TwoByTwo<'_>) -> Result<ByName<CompactBytes>, AllocError>
    ensures { IfOk result (λ named. named ≡ with_pairs pairs.entry map.empty) }
{
    let mut named = ByName::new(alloc);
    for (field, value) in pairs {
        let field = CompactBytes::copied(alloc, field)?;
        let value = CompactBytes::copied(alloc, value)?;
        named.put(field, value)?;
    }
    Ok(named)
}
