// Laws of how items are cut and keys are chosen.
ghost use Rattle.std.specs.Prelude.{◌≡◌, ◌<◌, ◌≤◌, ℤ, List, All, filter, flat_map, length, true};
ghost use Rattle.std.specs.FinMap.{get};
ghost use Rattle.std.specs.List.{IsDistinct};
ghost use Rattle.mr_keyspace.specs.Cuts.{cut};
ghost use Rattle.mr_keyspace.specs.Dataset.{Dataset};
ghost use Rattle.mr_map.specs.Bytes.{Bytes};
ghost use Rattle.mr_cmd_shared.specs.Keys.{is_stored, named_once, expired};
ghost use Rattle.mr_cmd_shared.specs.Taken.{is_key};

/// The groups into which the items of a command are cut have 1 to 64 items each, and one after another they are the items.
pub fn items_are_cut_in_groups<T>()
    ensures whole { (items : List T) → flat_map (λ g. g) (cut items) ≡ items }
    ensures groups { (items : List T) →
        All (λ g. (0 < length g) × (length g ≤ 64)) (cut items) }
{}

/// The expired keys of a command are those that it names and that are stored and expired, each once, in the order in which they are named first.
pub fn expired_keys_stand_once()
    ensures in_order { (now : ℤ) (keys : List Bytes) (m : Dataset) →
        expired now keys m ≡ filter (λ k. is_stored now true (get m k)) (named_once keys) }
    ensures once { (now : ℤ) (keys : List Bytes) (m : Dataset) →
        IsDistinct is_key (expired now keys m) }
{}
