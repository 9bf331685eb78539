// The deadlines of keys, in order.
ghost use Rattle.std.specs.Prelude.{◌≡◌, ◌<◌, ◌^◌, [], true, false, map, OnOk, OnErr};
ghost use Rattle.std.specs.List.Sorted.{IsStrictlySortedBy};
ghost use Rattle.mr_zset.specs.Limits.{end_below, end_cmp};
ghost use Rattle.mr_zset.specs.declared.bound.Bound.TheVariants.{Included};
ghost use Rattle.mr_keyspace.specs.TimedKeys.{Updates, count_come, dated, timed_cmp};

use crate::timed_key::TimedKey;
use mr_order::{Iter, Ordered, Query};
use std::alloc::{AllocError, Global};
use std::cmp::Ordering;
use std::marker::Model;

/// A moment in milliseconds, as it stands to deadlines: greater than those that have come.
#[derive(Clone, Copy)]
struct Moment(i64);

impl Query<TimedKey> for Moment {
    ghost compare = { λ q x. end_cmp (Included q.0) x.deadline };

    ghost below_greater = { λ q x y. end_below (Included q.0) (dated x) (dated y) };

    fn compare(&self, item: &TimedKey) -> Ordering {
        if item.deadline <= self.0 {
            Ordering::Greater
        } else {
            Ordering::Less
        }
    }
}

/// Keys with their deadlines, in order of deadline and then of bytes. How many deadlines have come is found without a walk.
#[derive(Drop)]
pub(crate) struct Deadlines {
    in_order: Ordered<TimedKey>,
}

impl Model for Deadlines {
    ghost use Rattle.std.specs.Prelude.{List};
    ghost use Rattle.mr_keyspace.specs.declared.timed_key.TimedKey.{TimedKey as Timed};

    ghost Value = { List Timed };

    ghost view = { λ d. d.in_order };
}

impl Deadlines {
    /// None. It takes no memory.
    pub(crate) fn new(alloc: Global) -> Self
        ensures { result ≡ [] }
    {
        Deadlines {
            in_order: Ordered::new(alloc),
        }
    }

    /// Puts a timed key in. Where memory runs out nothing has changed.
    pub(crate) fn insert(&mut self, timed: TimedKey) -> Result<(), AllocError>
        ensures ok { OnOk result (Updates timed true self.old self.new) }
        ensures err { OnErr result (self.new ≡ self.old) }
    {
        let _ = self.in_order.insert(timed)?;
        Ok(())
    }

    /// Takes a timed key out, if it is there. It takes no memory.
    pub(crate) fn remove(&mut self, timed: &TimedKey)
        ensures { Updates timed.now false self.old self.new }
    {
        let _ = self.in_order.take(timed);
    }

    /// Takes all out. It takes no memory.
    pub(crate) fn clear(&mut self)
        ensures { self.new ≡ [] }
    {
        self.in_order.clear();
    }

    /// All timed keys, in order.
    pub(crate) fn iter(&self) -> Iter<'_, TimedKey>
        ensures all { result ≡ self.now }
        ensures ordered { IsStrictlySortedBy timed_cmp self.now }
    {
        // its clause says that they are in order
        let _ = self.in_order.len();
        self.in_order.iter()
    }

    /// How many deadlines have come at a moment. It is compared with few of them, however many there are.
    pub(crate) fn count_come(&self, now: i64) -> usize
        ensures count { result ≡ count_come now (map dated self.now) }
        ensures ordered { IsStrictlySortedBy timed_cmp self.now }
        ensures small { result < 2 ^ 63 }
    {
        // its clause says that they are in order, and bounds their number
        let _ = self.in_order.len();
        self.in_order.count_below(Moment(now))
    }
}
