// Laws of the definitions that the contracts cite.
ghost use Rattle.std.specs.Prelude.{ℤ, ◌≡◌, ◌++◌, All, List, map, IsTrue, Some};
ghost use Rattle.std.specs.Option.{option_and_then};
ghost use Rattle.std.specs.FinMap.{contains_key, empty, get};
ghost use Rattle.mr_map.specs.Bytes.{Bytes};
ghost use Rattle.mr_keyspace.specs.Dataset.{Dataset};
ghost use Rattle.mr_data.specs.Dataset.{IsDataset, live, seen};
ghost use Rattle.mr_keyspace.specs.Changes.{rename};
ghost use Rattle.mr_data.specs.Meaning.{apply, apply_all};
ghost use Rattle.mr_data.specs.Rebuilding.{rebuilding};
ghost use Rattle.mr_effect.specs.Effects.{has_spelling, words_fit};
ghost use Rattle.mr_effect.specs.Spelling.{IsShort};
ghost use Rattle.mr_effect.specs.declared.effect.Effect.{Effect};
ghost use Rattle.mr_effect.specs.declared.effect.Effect.TheVariants as effect;

/// Effects in two parts are done one part after the other.
pub fn effects_come_in_parts()
    ensures { (es fs : List Effect) (m : Dataset) →
        apply_all (es ++ fs) m ≡ option_and_then (apply_all fs) (apply_all es m) }
{}

/// What is seen at a moment is what is stored and not expired.
pub fn seen_is_what_is_not_expired()
    ensures { (now : ℤ) (m : Dataset) (k : Bytes) → get (seen now m) k ≡ live now (get m k) }
{}

/// Texts that are set together are set one after another.
pub fn texts_are_set_in_order()
    ensures { (pairs : List (Bytes × Bytes)) (m : Dataset) →
        IsTrue (has_spelling (effect.MSet pairs)) → IsTrue (words_fit (effect.MSet pairs)) →
        apply (effect.MSet pairs) m ≡ apply_all (map (λ p. effect.Set p.0 p.1) pairs) m }
{}

/// A key that is renamed to itself stays as it is.
pub fn renaming_to_itself_changes_nothing()
    ensures { (m : Dataset) (k : Bytes) → IsTrue (contains_key m k) → rename k k m ≡ Some m }
{}

/// Out of nothing, the effects that make a dataset again make it.
pub fn rebuilding_makes_the_dataset()
    ensures { (m : Dataset) → IsDataset m → apply_all (rebuilding m) empty ≡ Some m }
{}

/// Each effect that makes a dataset again has a spelling, with words within the limit, and no more of them than a command
/// text may have.
pub fn rebuilding_has_command_texts()
    ensures spelled { (m : Dataset) → IsDataset m →
        All (λ e. IsTrue (has_spelling e)) (rebuilding m) }
    ensures fit { (m : Dataset) → IsDataset m →
        All (λ e. IsTrue (words_fit e)) (rebuilding m) }
    ensures short { (m : Dataset) → IsDataset m → All IsShort (rebuilding m) }
{}
