// Replies that commands of several kinds share.
ghost use Rattle.std.specs.Prelude.{◌≡◌, ◌<◌, ◌^◌, pos, IfOk};
ghost use Rattle.mr_resp.specs.Replies as replies;
ghost use Rattle.mr_resp.specs.ReplyView.{view};
ghost use Rattle.mr_cmd_shared.specs.Answered.{done, wrong_kind};

use mr_resp::Reply;
use std::alloc::{AllocError, Global};
use std::borrow::CowSlice;

/// It is done.
pub fn done() -> Reply
    ensures { view result ≡ done }
{
    Reply::Simple(CowSlice::Borrowed(b"OK"))
}

/// The key holds another kind of value than the command is for.
pub fn wrong_kind() -> Reply
    ensures { view result ≡ wrong_kind }
{
    Reply::Error(CowSlice::Borrowed(
        b"WRONGTYPE Operation against a key holding the wrong kind of value",
    ))
}

/// A whole number.
pub fn integer(number: i64) -> Reply
    ensures { view result ≡ replies.int number }
{
    Reply::Int(number)
}

/// How many there are.
pub fn count(number: usize) -> Reply
    requires { number < 2 ^ 63 }
    ensures { view result ≡ replies.int (pos number) }
{
    Reply::Int(number as i64)
}

/// A byte string, copied.
pub fn bulk(alloc: Global, word: &[u8]) -> Result<Reply, AllocError>
    ensures { IfOk result (λ r. view r ≡ replies.bytes word.now) }
{
    Reply::bulk(alloc, word)
}
