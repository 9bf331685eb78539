// The plan of a request's words.
ghost use Rattle.std.specs.Prelude.{◌≡◌, ◌<◌, ◌≤◌, length, map, IsTrue, IfOk, Ok};
ghost use Rattle.std.specs.List.{list_all};
ghost use Rattle.std.specs.Cow.{cow_slice_items};
ghost use Rattle.mr_bytes.specs.Words.{fits};
ghost use Rattle.mr_resp.specs.Usual.{commands};
ghost use Rattle.mr_ask.specs.Carried.{AskFits};
ghost use Rattle.mr_commands.specs.PlannedCommands.{HasRoom};
ghost use Rattle.mr_resp.specs.ReplyView.{view};
ghost use Rattle.mr_commands.specs.Requests.{IsAnswer, IsAnswerTo, Leads, HasTexts, is_quit, is_rewriting, is_shutdown, left, left_by, question_asked, replica_reply, readonly};

use crate::planning::plan;
use crate::writing::writes;
use mr_ask::{Ask, read};
use mr_cmd_server::{Question, ServerAsk};
use mr_data::{Dataset, Given, Plan};
use mr_resp::Reply;
use std::alloc::{AllocError, Global};
use std::borrow::CowSlice;

/// What is done about a request.
#[derive(Drop)]
pub enum Answer {
    /// The plan is carried out.
    Run(Plan),
    /// It is answered OK, and the link is closed.
    Quit,
    /// The append-only file is written anew.
    Rewrite,
    /// The node tells of itself.
    Tell(Question),
    /// The program is to end. Nothing is answered.
    Halt,
}

/// What the words of a request are answered by a master or by a replica, and their effects. Words that are no command are answered
/// their fault, and have none. A replica refuses writes, and no answer of its has an effect: an expired key is answered as absent, and kept.
/// It is for callers that have a dataset alone, as the tests' `rehearse`: a node reads the words itself, for some ask something of it.
#[tactic(auto, using(crate::proofs::Leading::no_texts))]
pub fn plan_words(
    alloc: Global,
    held: &Dataset,
    replica: bool,
    words: &[CowSlice<'_, u8>],
    given: Given,
) -> Result<Answer, AllocError>
    requires { 0 < length words.now }
    ensures answer { IfOk result (λ a.
        IsAnswer replica (map cow_slice_items words.now) given held.now a) }

    // The effects lead to what the command leaves.
    ensures leads { IfOk result (λ a. IsTrue (list_all fits (map cow_slice_items words.now)) →
        Leads a held.now (left replica (map cow_slice_items words.now) given held.now)) }

    // The effects' texts are command texts.
    ensures texts { IfOk result (λ a. IsTrue (list_all fits (map cow_slice_items words.now)) →
        length words.now ≤ commands.words → HasTexts a) }
{
    match read(words) {
        Ok(ask) => answer_to(alloc, held, replica, &ask, given),
        Err(fault) => Ok(Answer::Run(Plan {
            reply: fault.reply(),
            effects: Vec::new(alloc),
        })),
    }
}

/// What is done about a command by a master or by a replica, as of its words.
#[tactic(auto, using(crate::proofs::Leading::on_master, crate::proofs::Leading::on_replica, crate::proofs::Leading::leads_on_replica, crate::proofs::Leading::no_texts))]
pub fn answer_to(
    alloc: Global,
    held: &Dataset,
    replica: bool,
    ask: &Ask<'_, '_>,
    given: Given,
) -> Result<Answer, AllocError>
    ensures answer { IfOk result (λ a. IsAnswerTo replica ask.now given held.now a) }
    ensures leads { IfOk result (λ a. AskFits ask.now →
        Leads a held.now (left_by (Ok ask.now) replica given held.now)) }
    ensures texts { IfOk result (λ a. AskFits ask.now → HasRoom ask.now → HasTexts a) }
{
    if quits(ask) {
        return Ok(Answer::Quit);
    }
    if rewrites(ask) {
        return Ok(Answer::Rewrite);
    }
    if halts(ask) {
        return Ok(Answer::Halt);
    }
    if let Some(question) = question_asked(ask) {
        return Ok(Answer::Tell(question));
    }
    if replica {
        let reply = tell(alloc, held, ask, given)?;
        return Ok(Answer::Run(Plan {
            reply,
            effects: Vec::new(alloc),
        }));
    }
    Ok(Answer::Run(plan(alloc, held, ask, given)?))
}

/// What a replica answers.
fn tell(alloc: Global, held: &Dataset, ask: &Ask<'_, '_>, given: Given) -> Result<Reply, AllocError>
    ensures { IfOk result (λ reply. view reply ≡ replica_reply ask.now given held.now) }
{
    if writes(ask) {
        return Ok(readonly());
    }
    let plan = plan(alloc, held, ask, given)?;
    Ok(plan.reply)
}

/// The error by which a replica refuses writes.
pub(crate) fn readonly() -> Reply
    ensures { view result ≡ readonly }
{
    Reply::Error(CowSlice::Borrowed(b"READONLY You can't write against a read only replica."))
}

/// Whether the command is QUIT.
fn quits(ask: &Ask<'_, '_>) -> bool
    ensures { result ≡ is_quit ask.now }
{
    match ask {
        Ask::Server(ServerAsk::Quit) => true,
        _ => false,
    }
}

/// Whether the command is SHUTDOWN.
fn halts(ask: &Ask<'_, '_>) -> bool
    ensures { result ≡ is_shutdown ask.now }
{
    match ask {
        Ask::Server(ServerAsk::Shutdown { .. }) => true,
        _ => false,
    }
}

/// What the command asks about the node, if it does.
fn question_asked(ask: &Ask<'_, '_>) -> Option<Question>
    ensures { result ≡ question_asked ask.now }
{
    match ask {
        Ask::Server(ask) => ask.question(),
        _ => None,
    }
}

/// Whether the command is BGREWRITEAOF.
fn rewrites(ask: &Ask<'_, '_>) -> bool
    ensures { result ≡ is_rewriting ask.now }
{
    match ask {
        Ask::Server(ServerAsk::BgRewriteAof) => true,
        _ => false,
    }
}
