// The set that a command finds.
ghost use Rattle.std.specs.Prelude.{◌≡◌, option_copied};
ghost use Rattle.std.specs.FinMap as map;
ghost use Rattle.mr_keyspace.specs.Steps.{sets, held};

use mr_data::{Entry, Value};
use mr_value::SetValue;

/// The set at a key: an empty one where the key is absent, and none where it holds another kind.
pub fn set_at<'d>(live_entry: Option<&'d Entry>, empty: &'d SetValue) -> Option<&'d SetValue>
    requires { empty.now ≡ map.empty }
    ensures { option_copied result ≡ held sets (option_copied live_entry.entry) }
{
    let Some(entry) = live_entry else {
        return Some(empty);
    };
    match &entry.value {
        Value::Set(set) => Some(set),
        Value::Text(_) | Value::Hash(_) | Value::List(_) | Value::SortedSet(_) => None,
    }
}
