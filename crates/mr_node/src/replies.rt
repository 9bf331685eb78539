// Replies that are always the same.
ghost use Rattle.std.specs.Prelude.{◌≡◌};
ghost use Rattle.mr_resp.specs.ReplyView.{view};
ghost use Rattle.mr_cmd_shared.specs.Answered.{done};
ghost use Rattle.mr_cmd_server.specs.Commands.{rewriting};
ghost use Rattle.mr_commands.specs.Transactions.{aborted, discard_alone, exec_alone, nested, past_limit, queued};
ghost use Rattle.mr_node_spec.specs.Served.{not_chained};

use mr_resp::Reply;
use std::borrow::CowSlice;

/// OK.
pub(crate) fn done() -> Reply
    ensures { view result ≡ done }
{
    Reply::Simple(CowSlice::Borrowed(b"OK"))
}

/// The append-only file is written anew.
pub(crate) fn rewriting() -> Reply
    ensures { view result ≡ rewriting }
{
    Reply::Simple(CowSlice::Borrowed(b"Background append only file rewriting started"))
}

/// A request's effects would carry the offset past its limit.
pub(crate) fn past_the_limit() -> Reply
    ensures { view result ≡ past_limit }
{
    Reply::Error(CowSlice::Borrowed(b"ERR offset limit"))
}

/// A request waits.
pub(crate) fn queued() -> Reply
    ensures { view result ≡ queued }
{
    Reply::Simple(CowSlice::Borrowed(b"QUEUED"))
}

/// `MULTI` where a transaction is open.
pub(crate) fn nested() -> Reply
    ensures { view result ≡ nested }
{
    Reply::Error(CowSlice::Borrowed(b"ERR MULTI calls can not be nested"))
}

/// `EXEC` where none is.
pub(crate) fn exec_alone() -> Reply
    ensures { view result ≡ exec_alone }
{
    Reply::Error(CowSlice::Borrowed(b"ERR EXEC without MULTI"))
}

/// `DISCARD` where none is.
pub(crate) fn discard_alone() -> Reply
    ensures { view result ≡ discard_alone }
{
    Reply::Error(CowSlice::Borrowed(b"ERR DISCARD without MULTI"))
}

/// `EXEC` of a transaction that was marked.
pub(crate) fn aborted() -> Reply
    ensures { view result ≡ aborted }
{
    Reply::Error(CowSlice::Borrowed(b"EXECABORT Transaction discarded because of previous errors."))
}

/// A replica sends no stream.
pub(crate) fn not_chained() -> Reply
    ensures { view result ≡ not_chained }
{
    Reply::Error(CowSlice::Borrowed(b"ERR replicas are not chained"))
}
