// What a request may have at most.

/// The most bytes before the line feed of a line, of requests and of scripts.
pub const LINE_LIMIT: usize = 65_536;

/// The most bytes of a word of a request or of an effect: 512 MiB.
pub const WORD_LIMIT: usize = 536_870_912;

/// The most words of a request in array form.
pub const WORDS_LIMIT: usize = 1_048_576;

/// The most bytes of a request in array form, and of a client's unread input: 1 GiB.
pub const TEXT_LIMIT: usize = 1_073_741_824;
