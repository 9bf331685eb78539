// Replies to commands that change texts.
ghost use Rattle.std.specs.Prelude.{◌≡◌};
ghost use Rattle.mr_resp.specs.ReplyView.{view};
ghost use Rattle.mr_cmd_shared.specs.Answered.{overflow};
ghost use Rattle.mr_cmd_string.specs.Changing.{no_integer, too_long};

use mr_resp::Reply;
use std::borrow::CowSlice;

/// The text would be past the word limit.
pub fn too_long() -> Reply
    ensures { view result ≡ too_long }
{
    Reply::Error(CowSlice::Borrowed(b"ERR string too long"))
}

/// The key holds no number.
pub fn no_integer() -> Reply
    ensures { view result ≡ no_integer }
{
    Reply::Error(CowSlice::Borrowed(b"ERR value is not an integer or out of range"))
}

/// The sum is outside 64 bits.
pub fn overflow() -> Reply
    ensures { view result ≡ overflow }
{
    Reply::Error(CowSlice::Borrowed(b"ERR increment or decrement would overflow"))
}
