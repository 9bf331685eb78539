// The ends of a list.
ghost use Rattle.std.specs.Prelude.{◌≡◌, option_copied};
ghost use Rattle.mr_keyspace.specs.Collections.{end_item};
ghost use Rattle.mr_cmd_list.specs.Moves.{is_same_end};

use mr_bytes::End;
use mr_value::ListValue;

/// The item at an end.
pub fn end_item(list: &ListValue, end: End) -> Option<&[u8]>
    ensures { option_copied result ≡ end_item end list.now }
{
    match end {
        End::Left => list.get(0),
        End::Right => list.get(list.len().saturating_sub(1)),
    }
}

/// Whether two ends of a list are one.
pub fn is_same_end(end: End, other: End) -> bool
    ensures { result ≡ is_same_end end other }
{
    match (end, other) {
        (End::Left, End::Left) | (End::Right, End::Right) => true,
        (End::Left, End::Right) | (End::Right, End::Left) => false,
    }
}
