// Laws of the definitions that the contracts cite.
ghost use Rattle.std.specs.Prelude.{ℕ, ◌≡◌, ◌≤◌, ◌&&◌, ◌∷◌, List, length, min, not, true};
ghost use Rattle.std.specs.List.{count_by, list_all, list_any};
ghost use Rattle.std.specs.FinMap.{contains_key, keys, len};
ghost use Rattle.mr_map.specs.Bytes.{Bytes};
ghost use Rattle.mr_cmd_set.specs.declared.set_ask.SetOperation.TheVariants as operation;
ghost use Rattle.mr_cmd_shared.specs.Taken.{has, is_key};
ghost use Rattle.mr_cmd_set.specs.Members.{Members, drawn};
ghost use Rattle.mr_cmd_set.specs.Combining.{combined};

/// What is drawn from a set: as many different members as asked for, or all of fewer.
pub fn so_many_are_drawn()
    ensures count { (word n : ℕ) (s : Members) →
        length (drawn word n (keys s)) ≡ min n (len s) }
    ensures once { (word n : ℕ) (s : Members) (x : Bytes) →
        count_by (is_key x) (drawn word n (keys s)) ≤ 1 }
    ensures members { (word n : ℕ) (s : Members) (x : Bytes) →
        has (drawn word n (keys s)) x ≡ true → contains_key s x ≡ true }
{}

/// The members that several sets give: those of all, those of any, and those of the first that are in no other.
pub fn sets_are_combined()
    ensures intersection { (s : Members) (ss : List Members) (x : Bytes) →
        contains_key (combined operation.Intersection (s ∷ ss)) x ≡
        list_all (λ t. contains_key t x) (s ∷ ss) }
    ensures union { (s : Members) (ss : List Members) (x : Bytes) →
        contains_key (combined operation.Union (s ∷ ss)) x ≡
        list_any (λ t. contains_key t x) (s ∷ ss) }
    ensures difference { (s : Members) (ss : List Members) (x : Bytes) →
        contains_key (combined operation.Difference (s ∷ ss)) x ≡
        (contains_key s x && not (list_any (λ t. contains_key t x) ss)) }
{}
