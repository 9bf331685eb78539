// Replies that several commands share.
ghost use Rattle.std.specs.Prelude.{◌≡◌};
ghost use Rattle.mr_resp.specs.ReplyView.{view};
ghost use Rattle.mr_cmd_shared.specs.Answered.{overflow};
ghost use Rattle.mr_cmd_hash.specs.Hashes.{no_integer};

use mr_resp::Reply;
use std::borrow::CowSlice;

/// The field holds no number.
pub fn no_integer() -> Reply
    ensures { view result ≡ no_integer }
{
    Reply::Error(CowSlice::Borrowed(b"ERR hash value is not an integer"))
}

/// The sum is outside 64 bits.
pub fn overflow() -> Reply
    ensures { view result ≡ overflow }
{
    Reply::Error(CowSlice::Borrowed(b"ERR increment or decrement would overflow"))
}
