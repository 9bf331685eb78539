/// Why no continuation of the input begins with a line.
#[derive(Clone, Copy, Debug, PartialEq, Eq)]
pub enum LineFault {
    /// A quote isn't closed before the line ends, or can't be any more, or something else than a separator follows a closing quote.
    UnbalancedQuotes,
    /// The line has more bytes than it may have.
    TooBig,
}
