// Laws of the definitions that the contracts cite.
ghost use Rattle.std.specs.Prelude.{◌≡◌, ◌+◌, ◌↔◌, ℕ, ℤ, List, IsTrue, length, reverse, take, drop, ◌++◌, ◌-◌};
ghost use Rattle.mr_value.specs.Lists.{are_equal, count_of, without, without_first, without_last, removed_count};

/// To remove from the back is to remove from the front of the list turned round, and what is
/// removed and what stays are all.
pub fn removals_mirrored()
    ensures turned { (n : ℕ) (item : List ℕ) (items : List (List ℕ)) →
        reverse (without_last n item items) ≡ without_first n item (reverse items) }
    ensures counted { (count : ℤ) (item : List ℕ) (items : List (List ℕ)) →
        length (without count item items) + removed_count count (count_of item items) ≡
        length items }
{}

/// A list is the same once it is turned by one place, either way, exactly where its items equal one another.
pub fn uniform_lists()
    ensures left { (items : List (List ℕ)) →
        IsTrue (are_equal items) ↔ (drop 1 items ++ take 1 items ≡ items) }
    ensures right { (items : List (List ℕ)) →
        IsTrue (are_equal items) ↔
        (drop (length items - 1) items ++ take (length items - 1) items ≡ items) }
{}
