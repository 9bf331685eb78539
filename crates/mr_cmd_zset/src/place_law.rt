// Where a member stands.
ghost use Rattle.std.specs.Prelude.{◌≡◌, ℤ, Some, slice_get};
ghost use Rattle.std.specs.Option.{option_and_then};
ghost use Rattle.std.specs.FinMap.{get};
ghost use Rattle.mr_map.specs.Bytes.{Bytes};
ghost use Rattle.mr_zset_options.specs.declared.choices.Order.{Order};
ghost use Rattle.mr_cmd_zset.specs.Scores.{Scores, pairs_in};
ghost use Rattle.mr_cmd_zset.specs.Telling.{place_of};

/// The place that `ZRANK` and `ZREVRANK` answer is where the member stands with its score among all pairs in that order.
pub fn members_stand_at_their_places()
    ensures { (order : Order) (scores : Scores) (member : Bytes) (score : ℤ) →
        get scores member ≡ Some score →
        option_and_then (slice_get (pairs_in order scores)) (place_of order member scores) ≡
        Some (member, score) }
{}
