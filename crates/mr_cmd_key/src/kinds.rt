// The kinds of values.
ghost use Rattle.std.specs.Prelude.{◌≡◌, option_copied};
ghost use Rattle.mr_resp.specs.ReplyView.{view};
ghost use Rattle.mr_cmd_key.specs.Kinds.{kind_name, type_reply};
ghost use Rattle.mr_cmd_key.specs.Listing.{has_kind, is_of_kind};

use crate::key_ask::KindName;
use mr_data::{Entry, Value};
use mr_resp::Reply;
use std::borrow::CowSlice;

/// `TYPE`
pub fn key_type(live_entry: Option<&Entry>) -> Reply
    ensures { view result ≡ type_reply (option_copied live_entry.entry) }
{
    match live_entry {
        None => Reply::Simple(CowSlice::Borrowed(b"none")),
        Some(entry) => kind_name(&entry.value),
    }
}

/// The name of a value's kind, as it is answered.
fn kind_name(value: &Value) -> Reply
    ensures { view result ≡ kind_name value.now }
{
    match value {
        Value::Text(_) => Reply::Simple(CowSlice::Borrowed(b"string")),
        Value::Hash(_) => Reply::Simple(CowSlice::Borrowed(b"hash")),
        Value::List(_) => Reply::Simple(CowSlice::Borrowed(b"list")),
        Value::Set(_) => Reply::Simple(CowSlice::Borrowed(b"set")),
        Value::SortedSet(_) => Reply::Simple(CowSlice::Borrowed(b"zset")),
    }
}

/// Whether there is a value, of this kind if one is asked for.
pub fn is_of_kind(kind: Option<KindName>, live_entry: Option<&Entry>) -> bool
    ensures { result ≡ is_of_kind kind (option_copied live_entry.entry) }
{
    let Some(entry) = live_entry else {
        return false;
    };
    match kind {
        None => true,
        Some(kind) => has_kind(kind, &entry.value),
    }
}

/// Whether a value is of the kind with this name.
fn has_kind(kind: KindName, value: &Value) -> bool
    ensures { result ≡ has_kind kind value.now }
{
    match kind {
        KindName::Text => matches!(value, Value::Text(_)),
        KindName::Hash => matches!(value, Value::Hash(_)),
        KindName::List => matches!(value, Value::List(_)),
        KindName::Set => matches!(value, Value::Set(_)),
        KindName::SortedSet => matches!(value, Value::SortedSet(_)),
        KindName::Unknown => false,
    }
}
