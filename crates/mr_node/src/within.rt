// What is to be done about a client's unread bytes where a transaction is open.
ghost use Rattle.std.specs.Prelude.{◌≡◌, ◌<◌, map, length, IfOk, OnErr};
ghost use Rattle.std.specs.Cow.{cow_slice_items};
ghost use Rattle.mr_node_links.specs.Progresses.{AgreesAlong};
ghost use Rattle.mr_commands.specs.Transactions.{IsWithin, coming};
ghost use Rattle.mr_node_spec.specs.ClientRows.{MayLack};
ghost use Rattle.mr_node.specs.Within.{IsTodoWithin, KeepsAlong};

use mr_ask::read;
use mr_commands::{Within, comes_to};
use mr_resp::{Fault, Limits, Progress, Scan, more_is_wanted, next_request_from};
use std::alloc::{AllocError, Global};
use std::borrow::CowSlice;

/// What is to be done about a client's unread bytes where a transaction is open.
#[derive(Drop)]
pub(crate) enum TodoWithin {
    /// Nothing yet. The reader has gone so far.
    Wait(Progress),
    /// An empty request is used.
    Skip { used: usize },
    /// The fault is answered, and the link closed.
    Refuse(Fault),
    /// A request is used, which comes to this.
    Come { used: usize, within: Within },
}

/// Reads. Nothing changes.
pub(crate) fn todo_within(
    alloc: Global,
    replica: bool,
    unread: &[u8],
    progress: Progress,
) -> Result<TodoWithin, AllocError>
    requires { AgreesAlong progress unread.now }
    ensures todo { IfOk result (λ t. IsTodoWithin replica unread.now t) }
    ensures along { IfOk result (λ t. KeepsAlong t unread.now) }
    ensures lacks { OnErr result (MayLack unread.now) }
{
    let limits = Limits::usual();
    let mut progress = progress;
    match next_request_from(alloc, &limits, &mut progress, unread)? {
        Scan::Whole { words, used } => Ok(TodoWithin::Come {
            used,
            within: words_within(replica, words.as_slice()),
        }),
        Scan::Skip { used } => Ok(TodoWithin::Skip { used }),
        Scan::More => {
            more_is_wanted();
            Ok(TodoWithin::Wait(progress))
        }
        Scan::Bad(fault) => Ok(TodoWithin::Refuse(fault)),
    }
}

/// What a request of these words comes to.
fn words_within(replica: bool, words: &[CowSlice<'_, u8>]) -> Within
    requires { 0 < length words.now }
    ensures { IsWithin (coming replica (map cow_slice_items words.now)) result }
{
    comes_to(replica, &read(words))
}
