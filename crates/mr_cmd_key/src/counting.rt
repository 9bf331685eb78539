// How many keys are there and not expired.
ghost use Rattle.std.specs.Prelude.{◌≡◌, ◌≤◌, length, map, is_some};
ghost use Rattle.std.specs.FinMap.{get};
ghost use Rattle.std.specs.Cow.{cow_slice_items};
ghost use Rattle.mr_data.specs.Dataset.{live};
ghost use Rattle.mr_cmd_key.specs.Outcomes.{present_at};

use mr_cmd_shared::see;
use mr_data::{Dataset, Given};
use std::borrow::CowSlice;

/// Whether a key is there and not expired.
fn is_present(held: &Dataset, key: &[u8], given: Given) -> bool
    ensures { result ≡ is_some (live given.now (get held.now key.now)) }
{
    see(held, key, given).0.is_some()
}

/// How many of the keys are there and not expired, one that is named twice counted twice.
pub fn count_present(held: &Dataset, keys: &[CowSlice<'_, u8>], given: Given) -> usize
    ensures count { result ≡ present_at given.now held.now (map cow_slice_items keys.now) }
    ensures few { result ≤ length keys.now }
{
    let mut count = 0;
    for key in keys {
        if is_present(held, key.as_slice(), given) {
            count += 1;
        }
    }
    count
}
