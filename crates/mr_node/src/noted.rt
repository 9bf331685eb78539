// What is to be done about a replica's unread bytes.
ghost use Rattle.std.specs.Prelude.{◌<◌, length, map, IfOk, OnErr, IfSome, IfNone};
ghost use Rattle.std.specs.Cow.{cow_slice_items};
ghost use Rattle.mr_node_links.specs.Progresses.{AgreesAlong};
ghost use Rattle.mr_node.specs.Noting.{IsNoted, BeginsWithWords, KeepsNoted, Acknowledges, AcknowledgesNothing};

use mr_ask::{Ask, read};
use mr_cmd_node::NodeAsk;
use mr_resp::{Limits, Progress, Scan, more_is_wanted, next_request_from};
use std::alloc::{AllocError, Global};
use std::borrow::CowSlice;

/// What is to be done about a replica's unread bytes.
#[derive(Clone, Copy)]
pub(crate) enum Noted {
    /// Nothing yet. The reader has gone so far.
    Wait(Progress),
    /// An empty request is used.
    Skip { used: usize },
    /// An acknowledgement is used.
    Acknowledgement { used: usize, offset: i64 },
    /// The link is closed.
    Part,
}

/// Reads. Nothing changes.
pub(crate) fn noted_of(
    alloc: Global,
    unread: &[u8],
    progress: Progress,
) -> Result<Noted, AllocError>
    requires { AgreesAlong progress unread.now }
    ensures noted { IfOk result (λ n. IsNoted unread.now n) }
    ensures along { IfOk result (λ n. KeepsNoted n unread.now) }
    ensures lacks { OnErr result (BeginsWithWords unread.now) }
{
    let limits = Limits::usual();
    let mut progress = progress;
    match next_request_from(alloc, &limits, &mut progress, unread)? {
        Scan::Whole { words, used } => match acknowledged(words.as_slice()) {
            Some(offset) => Ok(Noted::Acknowledgement { used, offset }),
            None => Ok(Noted::Part),
        },
        Scan::Skip { used } => Ok(Noted::Skip { used }),
        Scan::More => {
            more_is_wanted();
            Ok(Noted::Wait(progress))
        }
        Scan::Bad(_) => Ok(Noted::Part),
    }
}

/// The offset that these words acknowledge, if they do.
fn acknowledged(words: &[CowSlice<'_, u8>]) -> Option<i64>
    requires { 0 < length words.now }
    ensures some { IfSome result (λ offset. Acknowledges (map cow_slice_items words.now) offset) }
    ensures none { IfNone result (AcknowledgesNothing (map cow_slice_items words.now)) }
{
    match read(words) {
        Ok(Ask::Node(NodeAsk::Ack { offset })) => Some(offset),
        _ => None,
    }
}
