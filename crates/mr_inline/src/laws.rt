ghost use Rattle.std.specs.Prelude.{ℕ, ◌≡◌, ◌≢◌, ◌+◌, ◌≤◌, ◌++◌, ◌∷◌, [], List, length};
ghost use Rattle.mr_inline.specs.Bytes.{line_feed, star};
ghost use Rattle.mr_inline.specs.Language.{Continues, Fails};
ghost use Rattle.mr_inline.specs.Line.{IsNext, IsLineOf, IsLineText, HasLineFault};
ghost use Rattle.mr_inline.specs.Quoted.{quoted_line};
ghost use Rattle.mr_inline.specs.Reasons.{IsUnbalanced};
ghost use Rattle.mr_inline.specs.Scans.{HasNoQuote};
ghost use Rattle.mr_inline.specs.declared.fault.LineFault.{LineFault};
ghost use Rattle.mr_inline.specs.declared.fault.LineFault.TheVariants.{UnbalancedQuotes, TooBig};

/// No line begins another, a line has one list of words, and what begins with a line wants no more.
pub fn lines_are_apart()
    ensures apart { (limit : ℕ) (a b x y : List ℕ) → IsLineText limit a →
        IsLineText limit b → a ++ x ≡ b ++ y → x ≡ y }
    ensures words { (limit : ℕ) (a b x y : List ℕ) (ws vs : List (List ℕ)) →
        IsLineOf limit a ws → IsLineOf limit b vs → a ++ x ≡ b ++ y → ws ≡ vs }
    ensures whole { (limit : ℕ) (text rest : List ℕ) → IsLineText limit text →
        Continues (IsLineText limit) (text ++ rest) → ⊥ }
{}

/// Doomed input has one fault.
pub fn one_fault()
    ensures { (limit : ℕ) (f g : LineFault) (bytes : List ℕ) →
        Fails (IsLineText limit) (HasLineFault limit f) bytes →
        Fails (IsLineText limit) (HasLineFault limit g) bytes → f ≡ g }
{}

/// Words written in double quotes are read as they were, if their line isn't too long.
pub fn quoted_words_are_read()
    ensures { (limit : ℕ) (words : List (List ℕ)) →
        length (quoted_line words) ≤ limit + 1 → IsLineOf limit (quoted_line words) words }
{}

/// A fault says why the line can't go on. Quotes are unbalanced where a line feed stands in them, where something else than a
/// separator follows them, or where they can't be closed within the limit; never where no quote stands. A line is too big at the
/// first byte past the limit.
pub fn faults_say_why()
    ensures unbalanced { (limit : ℕ) (bytes : List ℕ)
        (p : Fails (IsLineText limit) (HasLineFault limit UnbalancedQuotes) bytes) →
        (IsNext star bytes → ⊥) → IsUnbalanced limit p.front p.byte }
    ensures quoted { (limit : ℕ) (front : List ℕ) (byte : ℕ) →
        IsUnbalanced limit front byte → HasNoQuote (front ++ byte ∷ []) → ⊥ }
    ensures too_big { (limit : ℕ) (bytes : List ℕ)
        (p : Fails (IsLineText limit) (HasLineFault limit TooBig) bytes) →
        (length p.front ≡ limit) × (p.byte ≢ line_feed) }
{}
