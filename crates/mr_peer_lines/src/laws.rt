//! Laws of the lines and of the answers. The calls do nothing: each promise is a law.
ghost use Rattle.std.specs.Prelude.{ℕ, ◌≡◌, ◌<◌, ◌++◌, List, length};
ghost use Rattle.mr_peer_lines.specs.Lines.{Line, IsLineText, IsPeerLine, ReadsLine, outcome_of, read, unfinished};
ghost use Rattle.mr_peer_lines.specs.declared.line.PeerLineScan.{PeerLineScan};

/// No line begins another, and a line says one thing.
pub fn lines_are_apart()
    ensures apart { (a b x y : List ℕ) → IsLineText a → IsLineText b →
        a ++ x ≡ b ++ y → a ≡ b }
    ensures says { (text : List ℕ) (one other : Line) → IsPeerLine text one →
        IsPeerLine text other → one ≡ other }
{}

/// Two answers to one input say the same.
pub fn line_is_one()
    ensures { (input : List ℕ) (one other : PeerLineScan) → ReadsLine input one →
        ReadsLine input other → outcome_of one ≡ outcome_of other }
{}

/// A line is read, with its length, whatever follows it; and before its end nothing is.
pub fn cuts_do_not_matter()
    ensures whole { (text rest : List ℕ) (line : Line) (scan : PeerLineScan) →
        IsPeerLine text line → ReadsLine (text ++ rest) scan →
        outcome_of scan ≡ read line (length text) }
    ensures begun { (input rest : List ℕ) (scan : PeerLineScan) →
        IsLineText (input ++ rest) → 0 < length rest → ReadsLine input scan →
        outcome_of scan ≡ unfinished }
{}
