// The list that a command finds.
ghost use Rattle.std.specs.Prelude.{◌≡◌, None, Some, IfOk, OnErr, option_copied};
ghost use Rattle.mr_keyspace.specs.Steps.{lists, held};
ghost use Rattle.mr_cmd_list.specs.Lists.{found};
ghost use Rattle.mr_cmd_list.specs.Numbers.{IsShort};

use mr_data::{Entry, Value};
use mr_value::ListValue;

/// The key holds another kind of value than a list.
#[derive(Clone, Copy)]
pub struct OtherKind;

/// The list at a key, which is none where the key is absent.
///
/// # Errors
///
/// The key holds another kind of value.
pub fn list_at(live_entry: Option<&Entry>) -> Result<Option<&ListValue>, OtherKind>
    ensures list { IfOk result (λ list.
        found (option_copied live_entry.entry) ≡ Some (option_copied list)) }
    ensures other { OnErr result (held lists (option_copied live_entry.entry) ≡ None) }
    ensures short { IsShort (option_copied live_entry.entry) }
{
    let Some(entry) = live_entry else {
        return Ok(None);
    };
    match &entry.value {
        Value::List(list) => {
            // Its length has 63 bits, and so has each place.
            let _len = list.len();
            Ok(Some(list))
        }
        Value::Text(_) | Value::Hash(_) | Value::Set(_) | Value::SortedSet(_) => Err(OtherKind),
    }
}
