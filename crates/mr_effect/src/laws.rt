// Laws of the definitions that the contracts cite.
ghost use Rattle.std.specs.Prelude.{ℕ, ◌≡◌, ◌<◌, ◌^◌, ◌++◌, List, IsTrue, length};
ghost use Rattle.mr_effect.specs.Effects.{words_fit, has_spelling};
ghost use Rattle.mr_resp.specs.Command.{IsCommandText};
ghost use Rattle.mr_resp.specs.Usual.{commands};
ghost use Rattle.mr_effect.specs.Spelling.{words, text, texts, IsShort};
ghost use Rattle.mr_effect.specs.declared.effect.Effect.{Effect};

/// Effects with the same words are the same, and no effect's text begins another's. (A list of words has fewer than 2^64.)
pub fn effects_are_told_apart()
    ensures words { (e f : Effect) → IsTrue (has_spelling e) → IsTrue (has_spelling f) →
        words e ≡ words f → e ≡ f }
    ensures texts { (e f : Effect) (x y : List ℕ) → IsTrue (has_spelling e) →
        IsTrue (has_spelling f) → IsTrue (words_fit e) → IsTrue (words_fit f)
        → length (words e) < 2 ^ 64 → length (words f) < 2 ^ 64 →
        text e ++ x ≡ text f ++ y → (e ≡ f) × (x ≡ y) }
{}

/// An effect's text is a command text, where no word of it is too long and there aren't too many.
pub fn effects_are_command_texts()
    ensures { (e : Effect) → IsTrue (has_spelling e) → IsTrue (words_fit e) → IsShort e →
        IsCommandText commands (text e) }
{}

/// The texts of effects in two parts are those of the one part and then of the other.
pub fn texts_come_in_parts()
    ensures { (es fs : List Effect) → texts (es ++ fs) ≡ texts es ++ texts fs }
{}
