// A value under its name, and how it is looked up.
ghost use Rattle.std.specs.Prelude.{◌≡◌};
ghost use Rattle.std.specs.BTreeMap.Comparable.{le_lt_trans};
ghost use Rattle.std.specs.Cmp.{eq_by_cmp_equiv, partial_equiv_from_equiv, partial_order_from_total};
ghost use Rattle.std.specs.Cmp.Lexicographic.{nat_list_cmp_total};
ghost use Rattle.std.specs.Ordering.{as_partial_cmp, eq_by_cmp};
ghost use Rattle.std.proofs.Common.{refl};
ghost use Rattle.mr_map.specs.Bytes.{bytes_cmp};
ghost use Rattle.mr_value.specs.Named.{name_cmp, names_total};

use crate::compact_bytes::CompactBytes;
use mr_map::ShortKey;
use mr_order::Query;
use std::cmp::Ordering;

/// A value under its name. It is in the order of names, and equal to what has the same name.
pub(crate) struct Named<V> {
    pub name: CompactBytes,
    pub value: V,
}

// By hand, so that it is one call wherever a value goes (docs/PROVING.md).
impl<V: Drop> Drop for Named<V> {
    fn drop(self) {
        let Named { name: _, value: _ } = self;
    }
}

impl<V> Named<V> {
    /// The value, without its name.
    pub(crate) fn into_value(self) -> V
        ensures { result ≡ self.value }
    {
        let Named { name: _, value } = self;
        value
    }
}

impl<V> PartialEq for Named<V> {
    ghost eq = { eq_by_cmp name_cmp };

    ghost laws = { partial_equiv_from_equiv (eq_by_cmp_equiv names_total) };

    fn eq(&self, other: &Named<V>) -> bool {
        self.cmp(other).is_eq()
    }
}

impl<V> Eq for Named<V> {
    ghost laws = { eq_by_cmp_equiv names_total };
}

impl<V> PartialOrd for Named<V> {
    ghost partial_cmp = { as_partial_cmp name_cmp };

    ghost laws = { partial_order_from_total names_total };

    fn partial_cmp(&self, other: &Named<V>) -> Option<Ordering> {
        Some(self.cmp(other))
    }
}

impl<V> Ord for Named<V> {
    ghost cmp = { name_cmp };

    ghost total = { names_total };

    ghost matches_partial_cmp = { λ x y. refl };

    ghost matches_eq = { λ x y. refl };

    fn cmp(&self, other: &Named<V>) -> Ordering {
        self.name.cmp(&other.name)
    }
}

/// A name that is looked up.
#[derive(Clone, Copy)]
pub(crate) struct Name<'a>(pub &'a [u8]);

impl<'a, V> Query<Named<V>> for Name<'a> {
    ghost compare = { λ q x. bytes_cmp q.0.now x.name };

    ghost below_greater = { λ q x y. le_lt_trans nat_list_cmp_total q.0.now x.name y.name };

    fn compare(&self, item: &Named<V>) -> Ordering {
        self.0.compare(&item.name)
    }
}

/// A name of few bytes, which compare as numbers.
#[derive(Clone, Copy)]
pub(crate) struct ShortName<'a>(pub &'a ShortKey);

impl<'a, V> Query<Named<V>> for ShortName<'a> {
    ghost compare = { λ q x. bytes_cmp q.0.now x.name };

    ghost below_greater = { λ q x y. le_lt_trans nat_list_cmp_total q.0.now x.name y.name };

    fn compare(&self, item: &Named<V>) -> Ordering {
        self.0.compare(&item.name)
    }
}
