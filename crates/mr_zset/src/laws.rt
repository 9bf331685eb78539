// Laws of the definitions that the contracts cite.
ghost use Rattle.std.specs.Prelude.{◌≡◌, ◌↔◌, ◌∷◌, ℕ, ℤ, List, Some};
ghost use Rattle.std.specs.FinMap.{entries};
ghost use Rattle.std.specs.List.Sorted.{IsPermutation, IsSorted};
ghost use Rattle.mr_score.specs.Texts.{IsScoreText};
ghost use Rattle.mr_zset.specs.Pairs.{pair_cmp, pairs_of};
ghost use Rattle.mr_zset.specs.Texts.{bound_of, IsNamed, negative_names, positive_names};
ghost use Rattle.mr_zset.specs.declared.bound.Bound.TheVariants.{Excluded, Included, NegativeInfinity, PositiveInfinity};

use crate::sorted_set::ZSet;

/// The list of all pairs in order has each member with its score once, and each pair stands behind those that are less.
pub fn all_pairs_in_order(_set: &ZSet)
    ensures same_pairs { IsPermutation (entries _set.now) (pairs_of _set.now) }
    ensures ascending { IsSorted pair_cmp (pairs_of _set.now) }
{}

/// A text is read as a bound on a score exactly where it spells that score, behind a `(` where what lies on the bound is left out. It is read as an
/// infinite bound exactly where, in lower case, it is a name of that infinity; a `(` before it says nothing.
pub fn bound_texts()
    ensures included { (text : List ℕ) (n : ℤ) →
        (bound_of text ≡ Some (Included n)) ↔ IsScoreText text n }
    ensures excluded { (text : List ℕ) (n : ℤ) →
        (bound_of text ≡ Some (Excluded n)) ↔
        ((rest : List ℕ) × (text ≡ 40 ∷ rest) × IsScoreText rest n) }
    ensures positive { (text : List ℕ) →
        (bound_of text ≡ Some PositiveInfinity) ↔ IsNamed positive_names text }
    ensures negative { (text : List ℕ) →
        (bound_of text ≡ Some NegativeInfinity) ↔ IsNamed negative_names text }
{}
