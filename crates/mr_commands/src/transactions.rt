// Requests where a transaction is open.
ghost use Rattle.std.specs.Prelude.{◌≡◌};
ghost use Rattle.mr_resp.specs.ReplyView.{view};
ghost use Rattle.mr_arguments.specs.declared.fault.AskFault.TheVariants as fault;
ghost use Rattle.mr_commands.specs.Transactions.{IsWithin, coming_by, coming_of_ask, coming_of_fault, coming_to_node, coming_to_server, not_allowed};

use crate::requests::readonly;
use crate::writing::writes;
use mr_arguments::AskFault;
use mr_ask::Ask;
use mr_cmd_node::NodeAsk;
use mr_cmd_server::ServerAsk;
use mr_resp::Reply;
use std::borrow::CowSlice;

/// What a request comes to where a transaction is open.
#[derive(Drop)]
pub enum Within {
    /// It waits for the end.
    Queue,
    /// It is answered this, and nothing is done at the end.
    Mark(Reply),
    /// `MULTI`.
    Nest,
    /// `DISCARD`.
    Drop,
    /// `EXEC`: what waits is done.
    Run,
    /// `QUIT`.
    Quit,
}

/// What a request comes to, by the command that its words are or by their fault, on a master or on a replica.
pub fn comes_to(replica: bool, read: &Result<Ask<'_, '_>, AskFault>) -> Within
    ensures { IsWithin (coming_by replica read.now) result }
{
    match read {
        Ok(ask) => within_ask(replica, ask),
        Err(fault) => within_fault(*fault),
    }
}

/// What words come to that are no command.
fn within_fault(fault: AskFault) -> Within
    ensures { IsWithin (coming_of_fault fault) result }
{
    match fault {
        AskFault::Unknown | AskFault::Arity(_) => Within::Mark(fault.reply()),
        AskFault::Syntax | AskFault::Integer | AskFault::ExpireTime(_) | AskFault::Other(_) => {
            Within::Queue
        }
    }
}

/// What a command comes to.
fn within_ask(replica: bool, ask: &Ask<'_, '_>) -> Within
    ensures { IsWithin (coming_of_ask replica ask.now) result }
{
    match ask {
        Ask::Node(wish) => within_node(wish),
        Ask::Server(command) => within_server(command),
        Ask::Texts(_)
        | Ask::Keys(_)
        | Ask::Hashes(_)
        | Ask::Lists(_)
        | Ask::Sets(_)
        | Ask::SortedSets(_) => {
            if replica && writes(ask) {
                Within::Mark(readonly())
            } else {
                Within::Queue
            }
        }
    }
}

/// What a command to the node comes to.
fn within_node(wish: &NodeAsk<'_, '_>) -> Within
    ensures { IsWithin (coming_to_node wish.now) result }
{
    match wish {
        NodeAsk::Multi => Within::Nest,
        NodeAsk::Exec => Within::Run,
        NodeAsk::Discard => Within::Drop,
        NodeAsk::Psync { .. }
        | NodeAsk::ReplConf { .. }
        | NodeAsk::Ack { .. }
        | NodeAsk::ReplicaOf { .. }
        | NodeAsk::NoOne => Within::Mark(not_allowed()),
    }
}

/// What a command to the server comes to.
fn within_server(command: &ServerAsk<'_, '_>) -> Within
    ensures { IsWithin (coming_to_server command.now) result }
{
    match command {
        ServerAsk::Quit => Within::Quit,
        ServerAsk::BgRewriteAof | ServerAsk::Shutdown { .. } => Within::Mark(not_allowed()),
        _ => Within::Queue,
    }
}

/// The error by which a request is refused that may not stand in a transaction.
pub fn not_allowed() -> Reply
    ensures { view result ≡ not_allowed }
{
    Reply::Error(CowSlice::Borrowed(b"ERR not allowed in a transaction"))
}
