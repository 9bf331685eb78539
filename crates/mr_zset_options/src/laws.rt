// Laws of the definitions that the contracts cite.
ghost use Rattle.std.specs.Prelude.{◌≡◌, ◌∷◌, ◌++◌, ℕ, List, Ok};
ghost use Rattle.mr_zset_options.specs.AddOptions.{add_options};
ghost use Rattle.mr_zset_options.specs.RangeOptions.{AreOneOption, no_range_options, range_options};
ghost use Rattle.mr_zset_options.specs.RangeWords.{AreRangeOptions};
ghost use Rattle.mr_zset_options.specs.declared.range_options.RangeOptions.{RangeOptions};

/// Two options of `ZADD`, or of a range with their words, that stand side by side may change places. So their order says nothing.
pub fn options_stand_in_any_order()
    ensures add { (front back : List (List ℕ)) (a b : List ℕ) →
        add_options (front ++ a ∷ b ∷ back) ≡ add_options (front ++ b ∷ a ∷ back) }
    ensures range { (front : RangeOptions) (a b back : List (List ℕ)) → AreOneOption a →
        AreOneOption b →
        range_options front (a ++ b ++ back) ≡ range_options front (b ++ a ++ back) }
{}

/// Words are read as options of a range where they are these options, each once, in some order; and only where they are.
pub fn range_options_are_read()
    ensures read { (words : List (List ℕ)) (options : RangeOptions) →
        AreRangeOptions words options → range_options no_range_options words ≡ Ok options }
    ensures only { (words : List (List ℕ)) (options : RangeOptions) →
        range_options no_range_options words ≡ Ok options → AreRangeOptions words options }
{}
