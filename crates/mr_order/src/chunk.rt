// A chunk: items in one vector.
ghost use Rattle.std.specs.Prelude.{◌≡◌, ◌+◌, ◌≤◌, length, nat_le};

use crate::part::Part;
use crate::query::{Query, Steps};
use crate::seek::seek;
use std::alloc::{AllocError, Global};
use std::mem::replace;

// A chunk has no more items.
const CHUNK: usize = 64;

// Two chunks join where they have no more together: one that was cut in two doesn't join again at the next removal.
const JOINED: usize = 32;

impl<T: Ord + Drop> Part for Vec<T> {
    type Item = T;

    ghost items = { λ c. c.items };

    ghost is_kept = { λ c. length c.items ≤ 64 };

    ghost is_full = { λ c. nat_le 64 (length c.items) };

    ghost fits = { λ c next. nat_le (length c.items + length next.items) 32 };

    fn one(alloc: Global, item: T) -> Result<Self, AllocError> {
        let mut chunk = Vec::with_capacity(alloc, 1)?;
        chunk.push(item)?;
        Ok(chunk)
    }

    fn len(&self) -> usize {
        Vec::len(self)
    }

    fn is_full(&self) -> bool {
        CHUNK <= Vec::len(self)
    }

    fn fits(&self, next: &Self) -> bool {
        Vec::len(self) + Vec::len(next) <= JOINED
    }

    fn item(&self, at: usize) -> &T {
        &self[at]
    }

    fn first(&self) -> &T {
        &self[0]
    }

    fn insert(&mut self, at: usize, item: T) -> Result<(), AllocError> {
        make_room(self)?;
        Vec::insert(self, at, item)?;
        Ok(())
    }

    fn put(&mut self, item: T, replaces: bool) -> Result<Option<T>, AllocError> {
        match self.locate(&item) {
            Ok(at) if replaces => Ok(Some(replace(&mut self[at], item))),
            Ok(_) => Ok(Some(item)),
            Err(at) => {
                make_room(self)?;
                Vec::insert(self, at, item)?;
                Ok(None)
            }
        }
    }

    fn set(&mut self, at: usize, item: T) -> T {
        replace(&mut self[at], item)
    }

    fn remove(&mut self, at: usize) -> T {
        Vec::remove(self, at)
    }

    fn remove_range(&mut self, from: usize, to: usize) {
        self.drain(from..to);
    }

    fn take<Q: Query<T>>(&mut self, query: Q) -> Option<T> {
        match self.locate(query) {
            Ok(at) => Some(Vec::remove(self, at)),
            Err(_) => None,
        }
    }

    fn split(&mut self) -> Result<Self, AllocError> {
        let half = Vec::len(self) / 2;
        self.split_off(half)
    }

    fn join(&mut self, next: Self) -> Result<(), Self> {
        let mut next = next;
        match self.append(&mut next) {
            Ok(()) => Ok(()),
            Err(_) => Err(next),
        }
    }

    fn search<Q: Query<T>>(
        &self,
        query: Q,
        low: usize,
        high: usize,
        steps: &mut Steps,
    ) -> Result<usize, usize> {
        seek(self, query, low, high, steps)
    }

    fn locate<Q: Query<T>>(&self, query: Q) -> Result<usize, usize> {
        let mut steps = Steps { count: 0 };
        seek(self, query, 0, Vec::len(self), &mut steps)
    }

    fn get<Q: Query<T>>(&self, query: Q) -> Option<&T> {
        match self.locate(query) {
            Ok(at) => Some(&self[at]),
            Err(_) => None,
        }
    }

    fn run_from(&self, at: usize) -> &[T] {
        &self[at..]
    }

    fn run_to(&self, at: usize) -> &[T] {
        &self[..at]
    }
}

/// Makes room for a further item where there is none: for a quarter more, and for no more than a chunk has. So few slots lie
/// idle in a small collection, where a vector by itself doubles.
fn make_room<T>(chunk: &mut Vec<T>) -> Result<(), AllocError>
    ensures { chunk.new.items ≡ chunk.old.items }
{
    let len = Vec::len(chunk);
    if len < chunk.capacity() {
        return Ok(());
    }
    chunk.reserve_exact((len / 4 + 1).min(CHUNK.saturating_sub(len)))
}
