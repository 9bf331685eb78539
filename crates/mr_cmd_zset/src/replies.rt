// Replies, and the sorted set that a command finds.
ghost use Rattle.std.specs.Prelude.{◌≡◌, IfOk, option_copied};
ghost use Rattle.std.specs.FinMap as map;
ghost use Rattle.mr_resp.specs.ReplyView.{view};
ghost use Rattle.mr_keyspace.specs.Steps.{sorted_sets, held};
ghost use Rattle.mr_cmd_zset.specs.Scores.{score_reply};
ghost use Rattle.mr_cmd_zset.specs.Adding.{out_of_range};

use itoa::Buffer;
use mr_cmd_shared::bulk;
use mr_data::{Entry, Value};
use mr_resp::Reply;
use mr_zset::ZSet;
use std::alloc::{AllocError, Global};
use std::borrow::CowSlice;

/// The sorted set at a key: an empty one where the key is absent, and none where it holds another kind.
pub fn set_at<'d>(live_entry: Option<&'d Entry>, empty: &'d ZSet) -> Option<&'d ZSet>
    requires { empty.now ≡ map.empty }
    ensures { option_copied result ≡ held sorted_sets (option_copied live_entry.entry) }
{
    let Some(entry) = live_entry else {
        return Some(empty);
    };
    match &entry.value {
        Value::SortedSet(set) => Some(set),
        Value::Text(_) | Value::Hash(_) | Value::List(_) | Value::Set(_) => None,
    }
}

/// A score, answered as its text.
pub fn score_bulk(alloc: Global, score: i64) -> Result<Reply, AllocError>
    ensures { IfOk result (λ r. view r ≡ score_reply score) }
{
    let mut buffer = Buffer::new();
    bulk(alloc, buffer.format(score).as_bytes())
}

/// The sum is outside the limits of scores.
pub fn out_of_range() -> Reply
    ensures { view result ≡ out_of_range }
{
    Reply::Error(CowSlice::Borrowed(b"ERR resulting score is out of range"))
}
