// Laws of patterns, for whoever stands on them. The calls do nothing: each promise is a law.
ghost use Rattle.std.specs.Prelude.{◌≡◌, ◌↔◌, ℕ, ◌++◌, ◌∷◌, [], List, All, IsTrue};
ghost use Rattle.mr_glob.specs.Glob.{star, Part, matches, glob_matches};
ghost use Rattle.mr_glob.specs.GlobWords.{IsPlain, IsPlainInClass, taken, range_class, IsBetween, MatchesBehind, MatchInTurn};

/// `*` alone matches each text. A pattern that begins with it matches the texts that end in one of its rest.
pub fn any_bytes_match()
    ensures all { (text : List ℕ) → IsTrue (glob_matches (star ∷ []) text) }
    ensures first { (pattern text : List ℕ) →
        IsTrue (glob_matches (star ∷ pattern) text) ↔
        ((front : List ℕ) × MatchesBehind front pattern text) }
{}

/// A pattern without special bytes matches itself alone, and one that begins with such bytes the texts that begin with them.
pub fn plain_bytes_match_themselves()
    ensures alone { (bytes text : List ℕ) → All IsPlain bytes →
        (IsTrue (glob_matches bytes text) ↔ (text ≡ bytes)) }
    ensures first { (bytes pattern text : List ℕ) → All IsPlain bytes →
        (IsTrue (glob_matches (bytes ++ pattern) text) ↔ MatchesBehind bytes pattern text) }
{}

/// Any bytes match themselves alone where a `\` stands before each.
pub fn taken_bytes_match_themselves()
    ensures alone { (bytes text : List ℕ) →
        IsTrue (glob_matches (taken bytes) text) ↔ (text ≡ bytes) }
    ensures first { (bytes pattern text : List ℕ) →
        IsTrue (glob_matches (taken bytes ++ pattern) text) ↔ MatchesBehind bytes pattern text }
{}

/// `[a-z]` matches the bytes from one end to the other, whichever comes first.
pub fn ranges_match_either_way()
    ensures { (first last b : ℕ) (pattern text : List ℕ) → IsPlainInClass first →
        IsPlainInClass last →
        (IsTrue (glob_matches (range_class first last ++ pattern) (b ∷ text)) ↔
        (IsBetween first last b × IsTrue (glob_matches pattern text))) }
{}

/// Parts one behind the other match texts one behind the other.
pub fn parts_match_in_turn()
    ensures { (ps qs : List Part) (text : List ℕ) →
        IsTrue (matches (ps ++ qs) text) ↔ MatchInTurn ps qs text }
{}
