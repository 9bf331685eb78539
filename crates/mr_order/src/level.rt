// A part of smaller parts.
ghost use Rattle.std.specs.Prelude.{◌&&◌, ◌≡◌, ◌+◌, ◌<◌, [], length, nat_le, vec_capacity, vec_len};
ghost use Rattle.std.specs.List.{flat_map};
ghost use Rattle.mr_order.specs.Blocks.{level_items, IsKeptLevel};
ghost use Rattle.mr_order.specs.Parts.{IsLevel, IsSound, length_limit};

use crate::cutting::remove_range_from;
use crate::descent::{put_into, take_out};
use crate::grow::insert_into;
use crate::locate::{first, get, locate};
use crate::part::Part;
use crate::parts::{item, run_from, run_to, search, total};
use crate::query::{Query, Steps};
use crate::replace::set;
use crate::shrink::{put_in_room, remove_from};
use std::alloc::{AllocError, Global};

// A level has no more parts.
const WIDTH: usize = 32;

// Two levels join where they have no more parts together.
const JOINED: usize = 16;

/// No list has more items.
pub(crate) const LENGTH_LIMIT: usize = 1 << 62;

/// Smaller parts, one behind the other, and how many items they have together.
#[derive(Drop)]
pub(crate) struct Level<P> {
    parts: Vec<P>,
    len: usize,
}

impl<P: Part> Level<P> {
    /// A level of one part, in memory that is there.
    pub(crate) fn of(parts: Vec<P>, part: P) -> Self
        requires empty { parts.items ≡ [] }
        requires capacity { vec_len parts < vec_capacity parts }
        requires sound { IsSound P.items P.is_kept part }
        ensures sound { IsSound (level_items P.items) (IsKeptLevel P.items P.is_kept) result }
        ensures same { level_items P.items result ≡ P.items part }
        ensures one { length result.parts.items ≡ 1 }
    {
        let len = part.len();
        let mut parts = parts;
        put_in_room(&mut parts, 0, part);
        Level { parts, len }
    }
}

impl<P: Part> Part for Level<P> {
    type Item = P::Item;

    ghost items = { λ l. flat_map P.items l.parts.items };

    ghost is_kept = { λ l. IsLevel P.items P.is_kept l.parts.items l.len };

    ghost is_full = { λ l. nat_le 32 (length l.parts.items) };

    ghost fits = { λ l next. nat_le (length l.parts.items + length next.parts.items) 16 && nat_le (l.len + next.len) length_limit };

    fn one(alloc: Global, item: P::Item) -> Result<Self, AllocError> {
        let mut parts = Vec::with_capacity(alloc, 1)?;
        let part = P::one(alloc, item)?;
        parts.push(part)?;
        Ok(Level { parts, len: 1 })
    }

    fn len(&self) -> usize {
        self.len
    }

    fn is_full(&self) -> bool {
        WIDTH <= self.parts.len()
    }

    fn fits(&self, next: &Self) -> bool {
        self.parts.len() + next.parts.len() <= JOINED && self.len + next.len <= LENGTH_LIMIT
    }

    fn item(&self, at: usize) -> &P::Item {
        item(&self.parts, at)
    }

    fn first(&self) -> &P::Item {
        first(&self.parts)
    }

    fn insert(&mut self, at: usize, item: P::Item) -> Result<(), AllocError> {
        if self.len == LENGTH_LIMIT {
            return Err(AllocError);
        }
        insert_into(&mut self.parts, self.len, at, item)?;
        self.len += 1;
        Ok(())
    }

    fn put(&mut self, item: P::Item, replaces: bool) -> Result<Option<P::Item>, AllocError> {
        if self.len == LENGTH_LIMIT {
            return Err(AllocError);
        }
        let other = put_into(&mut self.parts, self.len, item, replaces)?;
        if other.is_none() {
            self.len += 1;
        }
        Ok(other)
    }

    fn set(&mut self, at: usize, item: P::Item) -> P::Item {
        set(&mut self.parts, at, item)
    }

    fn remove(&mut self, at: usize) -> P::Item {
        let item = remove_from(&mut self.parts, at);
        self.len -= 1;
        item
    }

    fn remove_range(&mut self, from: usize, to: usize) {
        remove_range_from(&mut self.parts, from, to);
        self.len -= to - from;
    }

    fn take<Q: Query<P::Item>>(&mut self, query: Q) -> Option<P::Item> {
        let item = take_out(&mut self.parts, query)?;
        self.len -= 1;
        Some(item)
    }

    fn split(&mut self) -> Result<Self, AllocError> {
        let half = self.parts.len() / 2;
        let parts = self.parts.split_off(half)?;
        let len = total(&parts);
        self.len -= len;
        Ok(Level { parts, len })
    }

    fn join(&mut self, next: Self) -> Result<(), Self> {
        let Level { mut parts, len } = next;
        match self.parts.append(&mut parts) {
            Ok(()) => {
                self.len += len;
                Ok(())
            }
            Err(_) => Err(Level { parts, len }),
        }
    }

    fn search<Q: Query<P::Item>>(
        &self,
        query: Q,
        low: usize,
        high: usize,
        steps: &mut Steps,
    ) -> Result<usize, usize> {
        search(&self.parts, query, low, high, steps)
    }

    fn locate<Q: Query<P::Item>>(&self, query: Q) -> Result<usize, usize> {
        locate(&self.parts, query)
    }

    fn get<Q: Query<P::Item>>(&self, query: Q) -> Option<&P::Item> {
        get(&self.parts, query)
    }

    fn run_from(&self, at: usize) -> &[P::Item] {
        run_from(&self.parts, at)
    }

    fn run_to(&self, at: usize) -> &[P::Item] {
        run_to(&self.parts, at)
    }
}
