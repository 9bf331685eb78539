// Commands to the server itself.
ghost use Rattle.std.specs.Prelude.{◌≡◌, IfOk};
ghost use Rattle.mr_resp.specs.ReplyView.{view};
ghost use Rattle.mr_cmd_shared.specs.Commands.{IsPlan, IsFaithful, HasCommandTexts};
ghost use Rattle.mr_cmd_server.specs.Commands.{command, server_reply};

use crate::server_ask::ServerAsk;
use mr_cmd_shared::{Effects, bulk, done};
use mr_data::{Dataset, Given, Plan};
use mr_resp::Reply;
use std::alloc::{AllocError, Global};
use std::borrow::CowSlice;

/// What a command to the server itself is answered. It names no key and has no effect. (INFO, ROLE and SHUTDOWN aren't answered
/// from here, but by the node, which knows the answer.)
pub fn plan(
    alloc: Global,
    _held: &Dataset,
    ask: &ServerAsk<'_, '_>,
    _given: Given,
) -> Result<Plan, AllocError>
    ensures plan { IfOk result (λ p.
        IsPlan (command ask.now) _given.now _held.now (view p.reply) p.effects.items) }
    ensures faithful { IsFaithful (command ask.now) _given.now _held.now }

    // .. and their texts are command texts.
    ensures texts { HasCommandTexts (command ask.now) _given.now _held.now }
{
    let reply = reply_to(alloc, ask)?;
    Ok(Effects::new(alloc).into_plan(reply))
}

/// What a command to the server itself is answered. One that the node answers is answered OK from here.
fn reply_to(alloc: Global, ask: &ServerAsk<'_, '_>) -> Result<Reply, AllocError>
    ensures { IfOk result (λ r. view r ≡ server_reply ask.now) }
{
    match ask {
        ServerAsk::Ping { message: None } => Ok(Reply::Simple(CowSlice::Borrowed(b"PONG"))),
        ServerAsk::Ping {
            message: Some(message),
        } => bulk(alloc, message.as_slice()),
        ServerAsk::Echo { message } => bulk(alloc, message.as_slice()),
        ServerAsk::BgRewriteAof => Ok(Reply::Simple(CowSlice::Borrowed(
            b"Background append only file rewriting started",
        ))),
        ServerAsk::Command { .. } => Ok(Reply::Array(Vec::new(alloc))),
        ServerAsk::Select
        | ServerAsk::Quit
        | ServerAsk::Info { .. }
        | ServerAsk::Role
        | ServerAsk::Shutdown { .. }
        | ServerAsk::ClientSetName { .. }
        | ServerAsk::ClientSetInfo { .. } => Ok(done()),
    }
}
