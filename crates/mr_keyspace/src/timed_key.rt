// A key with its deadline.

use mr_value::CompactBytes;

/// A key with its deadline. They are in order of deadline, and then of the keys' bytes.
#[derive(PartialEq, Eq, PartialOrd, Ord, Drop)]
pub struct TimedKey {
    /// The moment from which the key is expired, in milliseconds.
    pub deadline: i64,
    pub key: CompactBytes,
}
