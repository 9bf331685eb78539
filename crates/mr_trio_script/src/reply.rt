// Where a reply ends.
ghost use Rattle.std.specs.Prelude.{◌≡◌, ◌≢◌, ◌≤◌, ◌++◌, ℕ, List, length, take, IfSome, IfNone};
ghost use Rattle.mr_trio_script.specs.Replies.{IsReply};

use crate::head::head_at;

/// How many bytes the reply has that begins the bytes. None where no whole reply does.
pub fn reply_end(bytes: &[u8]) -> Option<usize>
    ensures some { IfSome result (λ n. (n ≤ length bytes.now) × IsReply (take n bytes.now)) }
    ensures none { IfNone result ((text rest : List ℕ) → IsReply text →
        bytes.now ≢ text ++ rest) }
{
    let mut at = 0;
    let mut left = 1;
    while left > 0 {
        let head = head_at(&bytes[at..])?;
        at += head.len;
        // each reply that is to come has a byte at least
        if head.opens > bytes.len() - at {
            return None;
        }
        if left - 1 > bytes.len() - at - head.opens {
            return None;
        }
        left = left - 1 + head.opens;
    }
    Some(at)
}
