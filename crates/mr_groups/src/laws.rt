//! Laws of the definitions that the contracts cite. The calls do nothing: each promise is a law.
ghost use Rattle.std.specs.Prelude.{ℕ, ◌≡◌, ◌<◌, ◌+◌, ◌++◌, ◌∷◌, ◌↔◌, [], All, IsTrue, List, length};
ghost use Rattle.std.specs.List.{list_all};
ghost use Rattle.mr_effect.specs.Spelling.{texts};
ghost use Rattle.mr_effect.specs.declared.effect.Effect.{Effect};
ghost use Rattle.mr_keyspace.specs.Dataset.{Dataset};
ghost use Rattle.mr_data.specs.Meaning.{apply_all};
ghost use Rattle.mr_groups.specs.Effects.{IsGoodEffect};
ghost use Rattle.mr_groups.specs.Groups.{IsGoodGroup, can_join, group_text, group_texts, multi, singles};
ghost use Rattle.mr_groups.specs.Notes.{IsNoteLine, mark, note_text};
ghost use Rattle.mr_groups.specs.Reading.{BeginsWithGroup, IsBad, IsFirstGroup, IsOpen};
ghost use Rattle.mr_groups.specs.Readers.{ReadsAny, ReadsOn};
ghost use Rattle.mr_groups.specs.Folding.{LoadsGroups, MakesByGroups, apply_groups};

/// A group's text determines the group and where it ends, so no group's text is a proper beginning of another's. Texts one after
/// another determine the groups.
pub fn groups_are_told_apart()
    ensures one { (es fs : List Effect) (x y : List ℕ) → IsGoodGroup es → IsGoodGroup fs →
        group_text es ++ x ≡ group_text fs ++ y → (es ≡ fs) × (x ≡ y) }
    ensures many { (gs hs : List (List Effect)) → All IsGoodGroup gs → All IsGoodGroup hs →
        group_texts gs ≡ group_texts hs → gs ≡ hs }
{}

/// Groups of one effect each have the texts of the effects, and do what these do: without larger groups a stream is what it was.
pub fn single_effects_are_groups()
    ensures texts { (es : List Effect) → group_texts (singles es) ≡ texts es }
    ensures applied { (es : List Effect) (m : Dataset) →
        apply_groups (singles es) m ≡ apply_all es m }
{}

/// Nothing is done of a group whose text isn't whole: no group's text begins it, it isn't bad, and behind groups that can be done
/// a file is read up to it.
pub fn torn_groups_do_nothing()
    ensures none { (es : List Effect) (front more : List ℕ) → IsGoodGroup es →
        front ++ more ≡ group_text es → 0 < length more → BeginsWithGroup front → ⊥ }
    ensures not_bad { (es : List Effect) (front more : List ℕ) → IsGoodGroup es →
        front ++ more ≡ group_text es → IsBad front → ⊥ }
    ensures loaded { (bytes : List ℕ) (m : Dataset) (es : List Effect) (front more : List ℕ) →
        MakesByGroups bytes m → IsGoodGroup es
        → front ++ more ≡ group_text es → 0 < length more →
        LoadsGroups (bytes ++ front) (length bytes) m }
{}

/// A note between the groups of a file changes neither the dataset nor another group: it counts in how much is read, and in nothing
/// else. Within a frame it makes the group's text a bad one. Its text ends with itself, and is no group's.
pub fn notes_do_nothing()
    ensures passed { (front behind line : List ℕ) (m n : Dataset) → MakesByGroups front m →
        IsNoteLine line
        → MakesByGroups (front ++ (note_text line ++ behind)) n ↔
        MakesByGroups (front ++ behind) n }
    ensures counted { (front behind line : List ℕ) (m n : Dataset) (used : ℕ) →
        MakesByGroups front m → IsNoteLine line
        → LoadsGroups (front ++ behind) used n →
        LoadsGroups (front ++ (note_text line ++ behind)) (length (note_text line) + used) n }
    ensures inside { (es : List Effect) (more : List ℕ) → All IsGoodEffect es →
        IsTrue (list_all can_join es) → IsBad (multi ++ (texts es ++ mark ∷ more)) }
    ensures one { (line other x y : List ℕ) → IsNoteLine line → IsNoteLine other →
        note_text line ++ x ≡ note_text other ++ y → (line ≡ other) × (x ≡ y) }
    ensures apart { (line : List ℕ) (es : List Effect) (x y : List ℕ) → IsGoodGroup es →
        note_text line ++ x ≡ group_text es ++ y → ⊥ }
{}

/// What stands at the front of bytes is one thing: one group, a beginning of one, or nothing that a group's text can come of,
/// however the bytes go on.
pub fn answer_is_one()
    ensures whole { (bytes : List ℕ) (es fs : List Effect) (n k : ℕ) →
        IsFirstGroup bytes es n → IsFirstGroup bytes fs k → (es ≡ fs) × (n ≡ k) }
    ensures not_open { (bytes : List ℕ) (es : List Effect) (n : ℕ) →
        IsFirstGroup bytes es n → IsOpen bytes → ⊥ }
    ensures not_bad { (bytes : List ℕ) (es : List Effect) (n : ℕ) →
        IsFirstGroup bytes es n → IsBad bytes → ⊥ }
    ensures open_or_bad { (bytes : List ℕ) → IsOpen bytes → IsBad bytes → ⊥ }
    ensures for_good { (bytes more : List ℕ) → IsBad bytes →
        BeginsWithGroup (bytes ++ more) → ⊥ }
{}

/// What a reader has read of some bytes it has read of more that go on from them; and one that has read nothing may begin anywhere.
pub fn reading_goes_on()
    ensures on { ReadsOn }
    ensures any { ReadsAny }
{}
