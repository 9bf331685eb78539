// Values by name.
ghost use Rattle.std.specs.Prelude.{◌≡◌, ◌==◌, ◌<◌, ◌^◌, IfOk, IsTrue, OnErr, OnOk, Some, option_copied};
ghost use Rattle.std.specs.FinMap as map;
ghost use Rattle.mr_map.specs.Bytes.{bytes_cmp};
ghost use Rattle.mr_order.specs.Changes.{IsFound, IsTaken};

use crate::compact_bytes::CompactBytes;
use crate::named::{Name, Named, ShortName};
use crate::named_values::NamedValues;
use mr_map::ShortKey;
use mr_order::Ordered;
use std::alloc::{AllocError, Global};
use std::marker::Model;

/// A finite map from byte strings, in byte order. Neighbours lie next to each other with their values, and few bytes of a name
/// lie there too: who comes or goes touches little memory, and few names take little.
///
/// Where memory runs out, a map is as it was.
pub struct ByName<V: Drop> {
    named: Ordered<Named<V>>,
}

// By hand, so that it is one call wherever a value goes (docs/PROVING.md).
impl<V: Drop> Drop for ByName<V> {
    fn drop(self) {
        let ByName { named: _ } = self;
    }
}

impl<V: Drop> Model for ByName<V> {
    ghost use Rattle.std.specs.FinMap as map;
    ghost use Rattle.std.specs.Coded.{coded_ℕ, coded_list};
    ghost use Rattle.mr_map.specs.Bytes.{bytes_cmp};
    ghost use Rattle.mr_value.specs.Named.{values_of};

    ghost Value = { map.FinMap bytes_cmp V };

    ghost coded = { map.code (coded_list coded_ℕ) V.code };

    ghost view = { λ a. values_of a.named };
}

impl<V: Drop> ByName<V> {
    /// An empty map. It takes no memory.
    pub fn new(alloc: Global) -> Self
        ensures { result ≡ map.empty }
    {
        ByName {
            named: Ordered::new(alloc),
        }
    }

    /// How many names there are.
    pub fn len(&self) -> usize
        ensures len { result ≡ map.len self.now }
        ensures small { result < 2 ^ 63 }
    {
        self.named.len()
    }

    /// Whether there is no name.
    pub fn is_empty(&self) -> bool
        ensures { result ≡ (map.len self.now == 0) }
    {
        self.len() == 0
    }

    /// The value of a name.
    pub fn get(&self, name: &[u8]) -> Option<&V>
        ensures { option_copied result ≡ map.get self.now name.now }
    {
        match found(&self.named, name) {
            Some(named) => Some(&named.value),
            None => None,
        }
    }

    /// Whether a name has a value.
    pub fn contains(&self, name: &[u8]) -> bool
        ensures { result ≡ map.contains_key self.now name.now }
    {
        self.get(name).is_some()
    }

    /// The names with their values, in byte order. It takes no memory.
    pub fn iter(&self) -> NamedValues<'_, V>
        ensures { result ≡ map.entries self.now }
    {
        NamedValues::new(self.named.range(0, self.named.len()))
    }

    /// Sets the value of a name, and answers the one before. Another value of a name takes no memory.
    pub fn put(&mut self, name: CompactBytes, value: V) -> Result<Option<V>, AllocError>
        ensures before { IfOk result (λ before. before ≡ map.get self.old name) }
        ensures ok { OnOk result (self.new ≡ map.insert self.old name value) }
        ensures err { OnErr result (self.new ≡ self.old) }
    {
        let before = self.named.replace(Named { name, value })?;
        Ok(before.map(|named| named.into_value()))
    }

    /// Gives a name that is there another value, and answers the one before. It takes no memory.
    pub fn replace(&mut self, name: CompactBytes, value: V) -> V
        requires there { IsTrue (map.contains_key self.old name) }
        ensures before { Some result ≡ map.get self.old name }
        ensures replaced { self.new ≡ map.insert self.old name value }
    {
        let named = Named { name, value };
        match self.named.locate(&named) {
            Ok(at) => self.named.replace_at(at, named).into_value(),
            Err(_) => unreachable!(),
        }
    }

    /// Removes a name, and answers its value.
    pub fn remove(&mut self, name: &[u8]) -> Option<V>
        ensures before { result ≡ map.get self.old name.now }
        ensures removed { self.new ≡ map.remove self.old name.now }
    {
        let named = taken(&mut self.named, name)?;
        Some(named.into_value())
    }
}

/// A name with its value, if it is there. One of few bytes is looked up as a number.
fn found<'a, V: Drop>(named: &'a Ordered<Named<V>>, name: &[u8]) -> Option<&'a Named<V>>
    ensures { IsFound (λ y. bytes_cmp name.now y.name) named.now (option_copied result) }
{
    match ShortKey::of(name) {
        Some(short) => named.get(ShortName(&short)),
        None => named.get(Name(name)),
    }
}

/// Takes a name out with its value, if it is there.
fn taken<V: Drop>(named: &mut Ordered<Named<V>>, name: &[u8]) -> Option<Named<V>>
    ensures { IsTaken (λ y. bytes_cmp name.now y.name) named.old result named.new }
{
    match ShortKey::of(name) {
        Some(short) => named.take(ShortName(&short)),
        None => named.take(Name(name)),
    }
}
