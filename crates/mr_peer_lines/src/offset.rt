ghost use Rattle.std.specs.Prelude.{◌≡◌, ◌≢◌, ◌≤◌, ℕ, IfSome, IfNone};
ghost use Rattle.std.specs.Fmt.{decimal};
ghost use Rattle.mr_repl.specs.Backlog.{offset_limit};

use mr_bytes::read_i64;
use mr_repl::OFFSET_LIMIT;

/// Reads an offset or a length: digits without leading zeros or a sign, for a number of at most 2^62.
pub fn read_offset(text: &[u8]) -> Option<u64>
    ensures some { IfSome result (λ n. (n ≤ offset_limit) × (text.now ≡ decimal n)) }
    ensures none { IfNone result ((n : ℕ) → n ≤ offset_limit → text.now ≢ decimal n) }
{
    let number = u64::try_from(read_i64(text)?).ok()?;
    if number > OFFSET_LIMIT {
        None
    } else {
        Some(number)
    }
}
