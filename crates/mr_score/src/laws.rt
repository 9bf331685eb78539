// Laws of the definitions that the contracts cite.
ghost use Rattle.std.specs.Prelude.{◌≡◌, ◌↔◌, ℕ, ℤ, List, Some};
ghost use Rattle.mr_score.specs.Texts.{IsScoreText, score_of};

/// A text is read as a score exactly where it spells that score.
pub fn score_texts()
    ensures { (text : List ℕ) (n : ℤ) → (score_of text ≡ Some n) ↔ IsScoreText text n }
{}
