// Which of the three nodes.
ghost use Rattle.std.specs.Prelude.{◌≡◌, ◌≢◌, [], ◌∷◌, IfSome, IfNone};
ghost use Rattle.mr_trio_script.specs.Places.{digit_of};
ghost use Rattle.mr_trio_script.specs.declared.place.Place.{Place as PlaceValue};

/// A node of the three.
#[derive(Clone, Copy, Debug, PartialEq, Eq)]
pub enum Place {
    First,
    Second,
    Third,
}

impl Place {
    /// The digit of its number.
    pub fn digit(self) -> u8
        ensures { result ≡ digit_of self }
    {
        match self {
            Place::First => b'1',
            Place::Second => b'2',
            Place::Third => b'3',
        }
    }

    /// The node whose number a word is.
    pub fn named(word: &[u8]) -> Option<Place>
        ensures some { IfSome result (λ place. word.now ≡ digit_of place ∷ []) }
        ensures none { IfNone result ((place : PlaceValue) → word.now ≢ digit_of place ∷ []) }
    {
        match word {
            [b'1'] => Some(Place::First),
            [b'2'] => Some(Place::Second),
            [b'3'] => Some(Place::Third),
            _ => None,
        }
    }
}
