// A law of the definitions that the contracts cite.
ghost use Rattle.std.specs.Prelude.{◌≡◌, ◌++◌, ℕ, List};
ghost use Rattle.mr_cmd_string.specs.Options.{AreOneOption, set_options};
ghost use Rattle.mr_cmd_string.specs.declared.options.SetOptions.{SetOptions};

/// Two options of `SET` with their numbers that stand side by side may change places. So their order says nothing.
pub fn options_stand_in_any_order()
    ensures { (front : SetOptions) (a b back : List (List ℕ)) → AreOneOption a →
        AreOneOption b →
        set_options front (a ++ b ++ back) ≡ set_options front (b ++ a ++ back) }
{}
