// The bounds of a range of scores.
ghost use Rattle.std.specs.Prelude.{◌≡◌};
ghost use Rattle.std.specs.Str.{str_eq_ignore_ascii_case, str_to_ascii_lowercase};
ghost use Rattle.mr_zset.specs.Bounds.{is_from, is_to};
ghost use Rattle.mr_zset.specs.Texts.{bound_of, excluding, is_one_of, limit_of, negative_names, positive_names};

use mr_score::read_score;

/// Where a range of scores begins or ends.
#[derive(Clone, Copy, Debug, PartialEq, Eq)]
pub enum Bound {
    /// Below each score.
    NegativeInfinity,
    /// The score is in the range.
    Included(i64),
    /// The score is not in the range.
    Excluded(i64),
    /// Above each score.
    PositiveInfinity,
}

impl Bound {
    /// Whether a score is not below a range that begins here.
    pub fn is_from(self, score: i64) -> bool
        ensures { result ≡ is_from self score }
    {
        match self {
            Bound::NegativeInfinity => true,
            Bound::Included(limit) => limit <= score,
            Bound::Excluded(limit) => limit < score,
            Bound::PositiveInfinity => false,
        }
    }

    /// Whether a score is not above a range that ends here.
    pub fn is_to(self, score: i64) -> bool
        ensures { result ≡ is_to self score }
    {
        match self {
            Bound::NegativeInfinity => false,
            Bound::Included(limit) => score <= limit,
            Bound::Excluded(limit) => score < limit,
            Bound::PositiveInfinity => true,
        }
    }

    /// The bound without what lies on it.
    fn excluding(self) -> Bound
        ensures { result ≡ excluding self }
    {
        match self {
            Bound::Included(limit) => Bound::Excluded(limit),
            other => other,
        }
    }
}

/// The bound that a text spells: a score, or in any case `inf`, `+inf` or `-inf`, also as `infinity`; a
/// `(` in front of it excludes what lies on the bound. It takes no memory.
pub fn read_bound(text: &[u8]) -> Option<Bound>
    ensures { result ≡ bound_of text.now }
{
    match text {
        [b'(', limit @ ..] => Some(read_limit(limit)?.excluding()),
        _ => read_limit(text),
    }
}

/// The bound that a text without a parenthesis spells: a score, which is within it, or an infinity.
#[tactic(auto, unfolding(crate::specs::Texts::limit_of))]
fn read_limit(text: &[u8]) -> Option<Bound>
    ensures { result ≡ limit_of text.now }
{
    if is_positive_infinity(text) {
        return Some(Bound::PositiveInfinity);
    }
    if is_negative_infinity(text) {
        return Some(Bound::NegativeInfinity);
    }
    Some(Bound::Included(read_score(text)?))
}

/// Whether a text is a name of the positive infinity, in any case.
fn is_positive_infinity(text: &[u8]) -> bool
    ensures { result ≡ is_one_of positive_names (str_to_ascii_lowercase text.now) }
{
    is_in_any_case(text, b"inf")
        || is_in_any_case(text, b"+inf")
        || is_in_any_case(text, b"infinity")
        || is_in_any_case(text, b"+infinity")
}

/// Whether a text is a name of the negative infinity, in any case.
fn is_negative_infinity(text: &[u8]) -> bool
    ensures { result ≡ is_one_of negative_names (str_to_ascii_lowercase text.now) }
{
    is_in_any_case(text, b"-inf") || is_in_any_case(text, b"-infinity")
}

/// Whether a text is this name, in any case.
fn is_in_any_case(text: &[u8], name: &[u8]) -> bool
    ensures { result ≡ str_eq_ignore_ascii_case text.now name.now }
{
    text.eq_ignore_ascii_case(name)
}
