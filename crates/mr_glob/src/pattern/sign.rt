// The bytes of a pattern.
ghost use Rattle.std.specs.Prelude.{◌≡◌, [], MatchOption};
ghost use Rattle.mr_glob.specs.Glob.{byte_of, is_bare};
ghost use Rattle.mr_glob.specs.GlobSteps.{StartsWith};

/// A byte of a pattern, by itself or as a `\` before it takes it.
#[derive(Clone, Copy)]
pub(super) enum Sign {
    Bare(u8),
    Taken(u8),
}

impl Sign {
    /// The byte itself.
    pub(super) fn byte(self) -> u8
        ensures { result ≡ byte_of self }
    {
        match self {
            Sign::Bare(byte) | Sign::Taken(byte) => byte,
        }
    }

    /// Whether it is this byte, with no `\` that takes it.
    pub(super) fn is_bare(self, byte: u8) -> bool
        ensures { result ≡ is_bare byte self }
    {
        match self {
            Sign::Bare(sign) => sign == byte,
            Sign::Taken(_) => false,
        }
    }
}

/// The first sign of a pattern, and what follows it.
pub(super) fn next_sign<'a>(pattern: &'a [u8]) -> Option<(Sign, &'a [u8])>
    ensures { MatchOption result (pattern.now ≡ []) (λ found.
        StartsWith pattern.now found.0 found.1.now) }
{
    let (first, rest) = pattern.split_first()?;
    if *first != b'\\' {
        return Some((Sign::Bare(*first), rest));
    }
    match rest.split_first() {
        Some((taken, behind)) => Some((Sign::Taken(*taken), behind)),
        None => Some((Sign::Taken(b'\\'), rest)),
    }
}
