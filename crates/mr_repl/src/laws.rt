//! Laws about the definitions that the contracts cite. No function here does anything.
ghost use Rattle.std.specs.Prelude.{◌≡◌, ℕ, List};
ghost use Rattle.mr_repl.specs.Pieces.{HeldIsTheEnd, CutsDoNotMatter};
ghost use Rattle.mr_repl.specs.ReplId.{IsId, TextsAreForty, digits_of};
ghost use Rattle.mr_repl.specs.Succession.{RenamingStrandsNobody, OldIdEndsAtTheChange, SnapshotEndsAllElse};

/// After a piece of the stream a backlog holds the last bytes of what it held followed by the piece: all of
/// them, or as many as the capacity.
pub fn held_is_the_end()
    ensures { HeldIsTheEnd }
{}

/// However a stream is cut into pieces, a backlog that took them all is the same.
pub fn cuts_do_not_matter()
    ensures { CutsDoNotMatter }
{}

/// No two ids have the same text.
pub fn texts_are_of_one_id()
    ensures { (one other : List ℕ) → IsId one → IsId other →
        digits_of one ≡ digits_of other → one ≡ other }
{}

/// The texts of ids are those of forty lower-case hexadecimal digits.
pub fn texts_are_forty_digits()
    ensures { TextsAreForty }
{}

/// When a stream's id changes, who might go on from it under the old id still may.
pub fn renaming_strands_nobody()
    ensures { RenamingStrandsNobody }
{}

/// However a stream goes on under a new id, nobody goes on under the old one from behind the change.
pub fn old_id_ends_at_the_change()
    ensures { OldIdEndsAtTheChange }
{}

/// Once a snapshot has taken the stream's place, only who stands at its end may go on, under its id.
pub fn snapshot_ends_all_else()
    ensures { SnapshotEndsAllElse }
{}
