// Laws of the definitions that the contracts cite.
ghost use Rattle.std.specs.Prelude.{◌≡◌, ◌<◌, ◌↔◌, ℕ, ℤ, pos, ◌≤ℤ◌, List, Some, IsTrue};
ghost use Rattle.std.specs.Fmt.{signed_decimal};
ghost use Rattle.mr_bytes.specs.Number.{is_i64, number_of};
ghost use Rattle.mr_bytes.specs.Window.{place_of, window_of, IsInWindow};

/// The text of a number reads as that number again, and no other text reads as it.
pub fn number_texts()
    ensures written_and_read { (n : ℤ) → IsTrue (is_i64 n) →
        number_of (signed_decimal n) ≡ Some n }
    ensures read_and_written { (text : List ℕ) (n : ℤ) → number_of text ≡ Some n →
        (text ≡ signed_decimal n) × IsTrue (is_i64 n) }
{}

/// A place is in a window exactly where it lies between the places that the two indexes mean.
pub fn window_places()
    ensures { (a b : ℤ) (n place : ℕ) → place < n →
        IsInWindow (window_of a b n) place ↔
        ((place_of a n ≤ℤ pos place) × (pos place ≤ℤ place_of b n)) }
{}
