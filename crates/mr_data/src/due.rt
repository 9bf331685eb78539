// The expired keys of a dataset.
ghost use Rattle.std.specs.Prelude.{◌≡◌, ◌<◌, ◌^◌, IfOk, All, MatchOption, map, take, slice_get, int_le, option_copied, option_map, true, false};
ghost use Rattle.std.specs.FinMap.{len};
ghost use Rattle.mr_keyspace.specs.TimedKeys.{dated as entered};
ghost use Rattle.mr_data.specs.Dataset.{seen};
ghost use Rattle.mr_data.specs.Due.{due, dated, HasWord};

use crate::dataset::Dataset;
use mr_keyspace::TimedKey;
use std::alloc::{AllocError, Global};

/// A key with its deadline. They are in order of deadline, and then of the keys' bytes.
#[derive(Clone, Copy, Debug, PartialEq, Eq, PartialOrd, Ord)]
pub struct DueKey<'a> {
    /// The moment from which the key is expired, in milliseconds.
    pub deadline: i64,
    pub key: &'a [u8],
}

impl Dataset {
    /// The first keys that are expired at a moment, so many at most, in the order in which they are deleted. Its time grows with
    /// their number alone, neither with that of the keys nor with that of the expired ones.
    pub fn due_keys(
        &self,
        alloc: Global,
        now: i64,
        most: usize,
    ) -> Result<Vec<DueKey<'_>>, AllocError>
        ensures keys { IfOk result (λ keys.
            map dated keys.items ≡ take most (due now self.now)) }
        ensures words { IfOk result (λ keys. All HasWord keys.items) }
    {
        let mut keys = Vec::new(alloc);
        for timed in self.timed_keys() {
            if keys.len() == most {
                return Ok(keys);
            }
            let Some(due) = if_expired(timed, now) else {
                return Ok(keys);
            };
            keys.push(due)?;
        }
        Ok(keys)
    }

    /// The first key that is expired at a moment, in the order in which they are deleted. It takes no memory.
    pub fn due(&self, now: i64) -> Option<&[u8]>
        ensures { option_copied result ≡ option_map (λ d. d.0) (slice_get (due now self.now) 0) }
    {
        let first = self.timed_keys().next()?;
        let due = if_expired(first, now)?;
        Some(due.key)
    }

    /// How many keys are not expired at a moment. None of the expired ones is gone over. It takes no memory.
    pub fn live_len(&self, now: i64) -> usize
        ensures len { result ≡ len (seen now self.now) }
        ensures small { result < 2 ^ 63 }
    {
        self.len() - self.count_come(now)
    }
}

/// Whether a key is expired at a moment: its deadline has come.
fn is_expired(timed: &TimedKey, now: i64) -> bool
    ensures { result ≡ int_le timed.now.deadline now }
{
    timed.deadline <= now
}

/// A key with its deadline, if it is expired at a moment.
fn if_expired(timed: &TimedKey, now: i64) -> Option<DueKey<'_>>
    ensures { MatchOption result (int_le timed.now.deadline now ≡ false) (λ d.
        (dated d ≡ entered timed.now) × (int_le timed.now.deadline now ≡ true)) }
{
    if !is_expired(timed, now) {
        return None;
    }
    Some(DueKey {
        deadline: timed.deadline,
        key: timed.key.as_slice(),
    })
}
