// The words of an effect that follow one another.
ghost use Rattle.std.specs.Prelude.{◌≡◌, ◌==◌, ◌<◌, ◌^◌, [], ◌∷◌, ◌++◌, map, length, IfOk, OnOk, OnErr};
ghost use Rattle.std.specs.Cow.{cow_slice_items};
ghost use Rattle.std.specs.List.{list_all};
ghost use Rattle.mr_bytes.specs.Words.{fits};
ghost use Rattle.mr_effect.specs.Effects.{pair_fits, member_fits, has_score};

use mr_bytes::{Word, fits};
use mr_score::is_score;
use std::alloc::{AllocError, Global};
use std::borrow::CowSlice;
use std::marker::Model;

/// Words in order, seen as a list of byte strings.
#[derive(Drop)]
pub struct EffectWords<'a> {
    items: Vec<Word<'a>>,
}

impl<'a> Model for EffectWords<'a> {
    ghost use Rattle.std.specs.Prelude.{List, ℕ};

    ghost Value = { List (List ℕ) };

    ghost view = { λ a. a.items.items };
}

impl<'a> EffectWords<'a> {
    /// No word. It takes no memory.
    pub fn new(alloc: Global) -> EffectWords<'a>
        ensures { result ≡ [] }
    {
        EffectWords {
            items: Vec::new(alloc),
        }
    }

    /// Words that lie elsewhere.
    pub fn borrowed(
        alloc: Global,
        words: &'a [CowSlice<'_, u8>],
    ) -> Result<EffectWords<'a>, AllocError>
        ensures { IfOk result (λ ws. ws ≡ map cow_slice_items words.now) }
    {
        let mut items = Vec::with_capacity(alloc, words.len())?;
        for word in words {
            items.push(Word::borrowed(word.as_slice()))?;
        }
        Ok(EffectWords { items })
    }

    /// Puts a word behind the others.
    pub fn push(&mut self, word: Word<'a>) -> Result<(), AllocError>
        ensures ok { OnOk result (self.new ≡ self.old ++ word.entry ∷ []) }
        ensures err { OnErr result (self.new ≡ self.old) }
    {
        self.items.push(word)?;
        Ok(())
    }

    /// How many there are.
    pub fn len(&self) -> usize
        ensures len { result ≡ length self.now }
        ensures small { result < 2 ^ 63 }
    {
        self.items.len()
    }

    /// Whether there is none.
    pub fn is_empty(&self) -> bool
        ensures { result ≡ (length self.now == 0) }
    {
        self.items.is_empty()
    }

    /// The words.
    pub fn as_slice(&self) -> &[Word<'a>]
        ensures { result.now ≡ self.now }
    {
        self.items.as_slice()
    }

    /// The vector of the words, which are not copied.
    pub fn into_vec(self) -> Vec<Word<'a>>
        ensures { result.items ≡ self.entry }
    {
        let Self { items } = self;
        items
    }

    /// Whether each is within the limit.
    pub fn fit(&self) -> bool
        ensures { result ≡ list_all fits self.now }
    {
        all_fit(self.as_slice())
    }
}

/// Whether each word is within the limit.
fn all_fit(words: &[Word<'_>]) -> bool
    ensures { result ≡ list_all fits words.now }
{
    words.iter().all(|word| fits(word.as_slice()))
}

/// Keys or fields with their values, in order.
#[derive(Drop)]
pub struct EffectPairs<'a> {
    pairs: Vec<(Word<'a>, Word<'a>)>,
}

impl<'a> Model for EffectPairs<'a> {
    ghost use Rattle.std.specs.Prelude.{List, ℕ};

    ghost Value = { List (List ℕ × List ℕ) };

    ghost view = { λ a. a.pairs.items };
}

impl<'a> EffectPairs<'a> {
    /// No pair. It takes no memory.
    pub fn new(alloc: Global) -> EffectPairs<'a>
        ensures { result ≡ [] }
    {
        EffectPairs {
            pairs: Vec::new(alloc),
        }
    }

    /// Puts a pair behind the others.
    pub fn push(&mut self, name: Word<'a>, value: Word<'a>) -> Result<(), AllocError>
        ensures ok { OnOk result (self.new ≡ self.old ++ (name.entry, value.entry) ∷ []) }
        ensures err { OnErr result (self.new ≡ self.old) }
    {
        self.pairs.push((name, value))?;
        Ok(())
    }

    /// How many there are.
    pub fn len(&self) -> usize
        ensures len { result ≡ length self.now }
        ensures small { result < 2 ^ 63 }
    {
        self.pairs.len()
    }

    /// Whether there is none.
    pub fn is_empty(&self) -> bool
        ensures { result ≡ (length self.now == 0) }
    {
        self.pairs.is_empty()
    }

    /// The pairs.
    pub fn as_slice(&self) -> &[(Word<'a>, Word<'a>)]
        ensures { result.now ≡ self.now }
    {
        self.pairs.as_slice()
    }

    /// The vector of the pairs, which are not copied.
    pub fn into_vec(self) -> Vec<(Word<'a>, Word<'a>)>
        ensures { result.items ≡ self.entry }
    {
        let Self { pairs } = self;
        pairs
    }

    /// Whether each key or field and each value is within the limit.
    pub fn fit(&self) -> bool
        ensures { result ≡ list_all pair_fits self.now }
    {
        all_pairs_fit(self.as_slice())
    }
}

/// Whether each key or field and each value is within the limit.
fn all_pairs_fit(pairs: &[(Word<'_>, Word<'_>)]) -> bool
    ensures { result ≡ list_all pair_fits pairs.now }
{
    pairs
        .iter()
        .all(|pair| fits(pair.0.as_slice()) && fits(pair.1.as_slice()))
}

/// Members with their scores, in order.
#[derive(Drop)]
pub struct Scores<'a> {
    scores: Vec<(Word<'a>, i64)>,
}

impl<'a> Model for Scores<'a> {
    ghost use Rattle.std.specs.Prelude.{List, ℕ, ℤ};

    ghost Value = { List (List ℕ × ℤ) };

    ghost view = { λ a. a.scores.items };
}

impl<'a> Scores<'a> {
    /// No member. It takes no memory.
    pub fn new(alloc: Global) -> Scores<'a>
        ensures { result ≡ [] }
    {
        Scores {
            scores: Vec::new(alloc),
        }
    }

    /// Puts a member with its score behind the others.
    pub fn push(&mut self, member: Word<'a>, score: i64) -> Result<(), AllocError>
        ensures ok { OnOk result (self.new ≡ self.old ++ (member.entry, score) ∷ []) }
        ensures err { OnErr result (self.new ≡ self.old) }
    {
        self.scores.push((member, score))?;
        Ok(())
    }

    /// How many there are.
    pub fn len(&self) -> usize
        ensures len { result ≡ length self.now }
        ensures small { result < 2 ^ 63 }
    {
        self.scores.len()
    }

    /// Whether there is none.
    pub fn is_empty(&self) -> bool
        ensures { result ≡ (length self.now == 0) }
    {
        self.scores.is_empty()
    }

    /// The members with their scores.
    pub fn as_slice(&self) -> &[(Word<'a>, i64)]
        ensures { result.now ≡ self.now }
    {
        self.scores.as_slice()
    }

    /// The vector of the members with their scores, which are not copied.
    pub fn into_vec(self) -> Vec<(Word<'a>, i64)>
        ensures { result.items ≡ self.entry }
    {
        let Self { scores } = self;
        scores
    }

    /// Whether each member is within the limit of words.
    pub fn fit(&self) -> bool
        ensures { result ≡ list_all member_fits self.now }
    {
        all_members_fit(self.as_slice())
    }

    /// Whether each score is within the limits of scores, from -2^53 to 2^53.
    pub fn are_within_limits(&self) -> bool
        ensures { result ≡ list_all has_score self.now }
    {
        all_have_scores(self.as_slice())
    }
}

/// Whether each member is within the limit of words.
fn all_members_fit(scores: &[(Word<'_>, i64)]) -> bool
    ensures { result ≡ list_all member_fits scores.now }
{
    scores.iter().all(|pair| fits(pair.0.as_slice()))
}

/// Whether each score is within the limits of scores.
fn all_have_scores(scores: &[(Word<'_>, i64)]) -> bool
    ensures { result ≡ list_all has_score scores.now }
{
    scores.iter().all(|pair| is_score(pair.1))
}
