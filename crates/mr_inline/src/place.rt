ghost use Rattle.std.specs.Prelude.{◌≡◌};
ghost use Rattle.mr_inline.specs.Places.{kind_of, need_of, turn_at};

/// What a byte is in a line.
#[derive(Clone, Copy)]
pub(crate) enum Kind {
    LineFeed,
    /// A space, or another byte that separates words.
    Separator,
    DoubleQuote,
    SingleQuote,
    Backslash,
    Other,
}

/// Where the next byte of a line stands.
#[derive(Clone, Copy)]
pub(crate) enum Place {
    /// Before a word.
    Between,
    /// In a word, outside quotes.
    Plain,
    /// In double quotes.
    Double,
    /// In double quotes, behind a backslash.
    DoubleEscape,
    /// In single quotes.
    Single,
    /// In single quotes, behind a backslash.
    SingleEscape,
    /// Behind a closing quote.
    Closed,
}

/// What a byte does.
#[derive(Clone, Copy)]
pub(crate) enum Turn {
    /// The line goes on at this place.
    Goes(Place),
    /// The line ends.
    Ends,
    /// Nothing makes a line of it.
    Breaks,
}

impl Kind {
    /// The kind of a byte.
    #[tactic(auto, unfolding(crate::specs::Places::kind_of))]
    pub(crate) fn of(byte: u8) -> Kind
        ensures { result ≡ kind_of byte }
    {
        match byte {
            b'\n' => Kind::LineFeed,
            b' ' | b'\t' | 0x0b | 0x0c | b'\r' => Kind::Separator,
            b'"' => Kind::DoubleQuote,
            b'\'' => Kind::SingleQuote,
            b'\\' => Kind::Backslash,
            _ => Kind::Other,
        }
    }
}

impl Place {
    /// What a byte of this kind does here.
    pub(crate) fn turn(self, kind: Kind) -> Turn
        ensures { result ≡ turn_at self kind }
    {
        match (self, kind) {
            (Place::Between | Place::Plain | Place::Closed, Kind::LineFeed) => Turn::Ends,
            (_, Kind::LineFeed) => Turn::Breaks,
            (Place::Between | Place::Plain | Place::Closed, Kind::Separator) => {
                Turn::Goes(Place::Between)
            }
            (Place::Closed, _) => Turn::Breaks,
            (Place::Between | Place::Plain, Kind::DoubleQuote) => Turn::Goes(Place::Double),
            (Place::Between | Place::Plain, Kind::SingleQuote) => Turn::Goes(Place::Single),
            (Place::Between | Place::Plain, _) => Turn::Goes(Place::Plain),
            (Place::Double, Kind::DoubleQuote) => Turn::Goes(Place::Closed),
            (Place::Double, Kind::Backslash) => Turn::Goes(Place::DoubleEscape),
            (Place::Double | Place::DoubleEscape, _) => Turn::Goes(Place::Double),
            (Place::Single, Kind::SingleQuote) => Turn::Goes(Place::Closed),
            (Place::Single | Place::SingleEscape, Kind::Backslash) => {
                Turn::Goes(Place::SingleEscape)
            }
            (Place::Single | Place::SingleEscape, _) => Turn::Goes(Place::Single),
        }
    }

    /// How many bytes have to come at least before the line may end.
    pub(crate) fn need(self) -> usize
        ensures { result ≡ need_of self }
    {
        match self {
            Place::Between | Place::Plain | Place::Closed => 0,
            Place::Double | Place::Single => 1,
            Place::DoubleEscape | Place::SingleEscape => 2,
        }
    }
}
