// What is to be done about a client's unread bytes.
ghost use Rattle.std.specs.Prelude.{◌≡◌, ◌<◌, ◌≤◌, length, map, IsTrue, IfOk, OnErr};
ghost use Rattle.std.specs.List.{list_all};
ghost use Rattle.std.specs.Cow.{cow_slice_items};
ghost use Rattle.mr_bytes.specs.Words.{fits};
ghost use Rattle.mr_resp.specs.Usual.{commands};
ghost use Rattle.mr_node_links.specs.Progresses.{AgreesAlong};
ghost use Rattle.mr_node_spec.specs.ClientRows.{MayLack};
ghost use Rattle.mr_node.specs.Reading.{IsTodo, KeepsAlong, IsDone};

use crate::request::{NodeRequest, request_of};
use mr_ask::{Ask, read};
use mr_commands::{Answer, answer_to};
use mr_data::{Dataset, Given, Plan};
use mr_resp::{Fault, Limits, Progress, Scan, more_is_wanted, next_request_from, words_fit};
use std::alloc::{AllocError, Global};
use std::borrow::CowSlice;

/// What is to be done about a client's unread bytes.
#[derive(Drop)]
pub(crate) enum Todo {
    /// Nothing yet. The reader has gone so far.
    Wait(Progress),
    /// An empty request is used.
    Skip { used: usize },
    /// The fault is answered, and the link closed.
    Refuse(Fault),
    /// A request is used, which asks something of the node itself.
    Ask { used: usize, request: NodeRequest },
    /// Any other request is used, and its answer carried out.
    Do { used: usize, answer: Answer },
}

/// Reads and plans. Nothing changes.
pub(crate) fn todo_of(
    alloc: Global,
    held: &Dataset,
    replica: bool,
    unread: &[u8],
    progress: Progress,
    given: Given,
) -> Result<Todo, AllocError>
    requires { AgreesAlong progress unread.now }
    ensures todo { IfOk result (λ t. IsTodo replica unread.now given held.now t) }
    ensures along { IfOk result (λ t. KeepsAlong t unread.now) }
    ensures lacks { OnErr result (MayLack unread.now) }
{
    let limits = Limits::usual();
    let mut progress = progress;
    match next_request_from(alloc, &limits, &mut progress, unread)? {
        Scan::Whole { words, used } => {
            words_fit();
            request_todo(alloc, held, replica, words.as_slice(), used, given)
        }
        Scan::Skip { used } => Ok(Todo::Skip { used }),
        Scan::More => {
            more_is_wanted();
            Ok(Todo::Wait(progress))
        }
        Scan::Bad(fault) => Ok(Todo::Refuse(fault)),
    }
}

/// What is to be done about a request of these words, which so many bytes are.
pub(crate) fn request_todo(
    alloc: Global,
    held: &Dataset,
    replica: bool,
    words: &[CowSlice<'_, u8>],
    used: usize,
    given: Given,
) -> Result<Todo, AllocError>
    requires some { 0 < length words.now }
    requires fit { IsTrue (list_all fits (map cow_slice_items words.now)) }
    requires few { length words.now ≤ commands.words }
    ensures { IfOk result (λ t.
        IsDone replica (map cow_slice_items words.now) used given held.now t) }
{
    match read(words) {
        Err(fault) => Ok(Todo::Do {
            used,
            answer: Answer::Run(Plan {
                reply: fault.reply(),
                effects: Vec::new(alloc),
            }),
        }),
        Ok(ask) => match &ask {
            Ask::Node(wish) => Ok(Todo::Ask {
                used,
                request: request_of(alloc, wish)?,
            }),
            _ => Ok(Todo::Do {
                used,
                answer: answer_to(alloc, held, replica, &ask, given)?,
            }),
        },
    }
}
