// Values, and entries.
use mr_value::{CompactBytes, Hash, ListValue, SetValue};
use mr_zset::ZSet;

/// What a key holds.
pub enum Value {
    /// A byte string.
    Text(CompactBytes),
    /// Values by field.
    Hash(Hash),
    /// Items in order.
    List(ListValue),
    /// Members.
    Set(SetValue),
    /// Scores by member.
    SortedSet(ZSet),
}

// By hand, so that it is one call wherever a value goes (docs/PROVING.md).
impl Drop for Value {
    fn drop(self) {
        match self {
            Value::Text(_) => {}
            Value::Hash(_) => {}
            Value::List(_) => {}
            Value::Set(_) => {}
            Value::SortedSet(_) => {}
        }
    }
}

/// A value with its deadline.
#[derive(Drop)]
pub struct Entry {
    pub value: Value,
    /// The moment from which the key is expired, in milliseconds, or none.
    pub deadline: Option<i64>,
}
