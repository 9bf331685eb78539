// Keys that were taken already.
ghost use Rattle.std.specs.Prelude.{◌≡◌, ◌+◌, ◌<◌, ◌^◌, ◌||◌, List, ℕ, [], length, not, if◌then◌else◌, IfOk, OnOk};
ghost use Rattle.mr_cmd_shared.specs.Taken.{has, is_key};

use std::alloc::{AllocError, Global};
use std::collections::BTreeSet;
use std::marker::Model;

/// Keys that were taken already, seen as a list of them.
#[derive(Drop)]
pub struct Taken<'a> {
    keys: BTreeSet<&'a [u8]>,
}

impl<'a> Model for Taken<'a> {
    ghost use Rattle.std.specs.Prelude.{List, ℕ};
    ghost use Rattle.mr_map.specs.Bytes.{lent};

    ghost Value = { List (List ℕ) };

    ghost view = { λ a. lent a.keys.keys };
}

impl<'a> Taken<'a> {
    /// No key. It takes no memory.
    pub fn new(alloc: Global) -> Taken<'a>
        ensures { result ≡ [] }
    {
        Taken {
            keys: BTreeSet::new(alloc),
        }
    }

    /// How many there are.
    pub fn len(&self) -> usize
        ensures len { result ≡ length self.now }
        ensures small { result < 2 ^ 63 }
    {
        self.keys.len()
    }

    /// Takes a key, and says whether it is the first time.
    pub fn take(&mut self, key: &'a [u8]) -> Result<bool, AllocError>
        ensures first { IfOk result (λ first. first ≡ not (has self.old key.now)) }
        ensures taken { OnOk result ((q : List ℕ) →
            has self.new q ≡ (is_key key.now q || has self.old q)) }
        ensures len { IfOk result (λ first.
            length self.new ≡ length self.old + (if first then 1 else 0)) }
    {
        Ok(self.keys.insert(key)?)
    }
}
