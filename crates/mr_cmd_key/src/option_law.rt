// A law of the definitions that the contracts cite.
ghost use Rattle.std.specs.Prelude.{◌≡◌, ◌∷◌, ◌++◌, ℕ, List};
ghost use Rattle.mr_cmd_key.specs.Options.{scan_options};
ghost use Rattle.mr_arguments.specs.Pairing.{unpaired};

/// Two options of `SCAN` with their arguments that stand side by side may change places. So their order says nothing.
pub fn options_stand_in_any_order()
    ensures { (front back : List (List ℕ × List ℕ)) (a b : List ℕ × List ℕ) →
        scan_options (unpaired (front ++ a ∷ b ∷ back)) ≡
        scan_options (unpaired (front ++ b ∷ a ∷ back)) }
{}
