// What is looked for among items in order, and how many items it was compared with.
ghost use Rattle.std.specs.Prelude.{◌≡◌, ◌+◌, ◌-◌, ◌^◌, ◌<◌, ◌≤◌, IsTrue, min};
ghost use Rattle.std.specs.declared.cmp.Ordering.{Ordering};
ghost use Rattle.std.specs.declared.cmp.Ordering.TheVariants.{Less};
ghost use Rattle.std.specs.Ordering.{is_le};
ghost use Rattle.std.specs.Cmp.Lexicographic.{slice_cmp, lists_total};
ghost use Rattle.std.specs.BTreeMap.Comparable.{le_lt_trans};

use std::cmp::Ordering;

/// What has its place among items in order: an item, what borrows the parts of one, or a limit between items.
pub trait Query<T: Ord>: Copy {
    // What `compare` answers.
    ghost compare: { Self → T → Ordering };

    /// How the query stands to an item.
    fn compare(&self, item: &T) -> Ordering
        ensures { result ≡ compare self.now item.now };

    // A query that isn't greater than an item is less than each greater item.
    ghost below_greater: { (q : Self) (x y : T) → IsTrue (is_le (compare q x)) → T.cmp x y ≡ Less → compare q y ≡ Less };
}

impl<T: Ord> Query<T> for &T {
    ghost compare = { λ q. T.cmp q.now };

    ghost below_greater = { λ q. le_lt_trans T.total q.now };

    fn compare(&self, item: &T) -> Ordering {
        (*self).cmp(item)
    }
}

impl<T: Ord> Query<Vec<T>> for &[T] {
    ghost compare = { λ q x. slice_cmp T.cmp q.now x.items };

    ghost below_greater = { λ q x y. le_lt_trans (lists_total T.total) q.now x.items y.items };

    fn compare(&self, item: &Vec<T>) -> Ordering {
        compare_slices(*self, item.as_slice())
    }
}

/// How a query's items stand to an item's, in order.
fn compare_slices<'x, T: Ord>(query: &'x [T], item: &'x [T]) -> Ordering
    ensures { result ≡ slice_cmp T.cmp query.now item.now }
{
    query.cmp(&item)
}

/// How many items were compared with a query.
#[derive(Clone, Copy, Debug, PartialEq, Eq)]
pub struct Steps {
    /// It stays at 2^64 - 1.
    pub count: u64,
}

impl Steps {
    /// How a query stands to an item. It counts as one step.
    pub fn compare<T: Ord, Q: Query<T>>(&mut self, query: Q, item: &T) -> Ordering
        ensures answer { result ≡ Q.compare query item.now }
        ensures counted { self.new.count ≡ min (self.old.count + 1) (2 ^ 64 - 1) }
        ensures rising { self.old.count ≤ self.new.count }
    {
        self.count = self.count.saturating_add(1);
        query.compare(item)
    }
}
