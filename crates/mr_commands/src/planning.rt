// The plan of a command.
ghost use Rattle.std.specs.Prelude.{◌≡◌, IfOk};
ghost use Rattle.mr_resp.specs.ReplyView.{view};
ghost use Rattle.mr_ask.specs.Carried.{AskFits};
ghost use Rattle.mr_cmd_shared.specs.Commands.{IsPlan, IsFaithful, HasCommandTexts};
ghost use Rattle.mr_commands.specs.PlannedCommands.{command_of, to_node, HasRoom};

use mr_arguments::AskFault;
use mr_ask::Ask;
use mr_cmd_node::NodeAsk;
use mr_data::{Dataset, Given, Plan};
use std::alloc::{AllocError, Global};

/// What a command is answered, and its effects. The dataset isn't changed, and the plan owns what it holds.
pub fn plan(
    alloc: Global,
    held: &Dataset,
    ask: &Ask<'_, '_>,
    given: Given,
) -> Result<Plan, AllocError>
    ensures plan { IfOk result (λ p.
        IsPlan (command_of ask.now given) given.now held.now (view p.reply) p.effects.items) }

    // The effects lead to what the command leaves, and its own ones are there exactly where it changes something.
    ensures faithful { AskFits ask.now →
        IsFaithful (command_of ask.now given) given.now held.now }

    // .. and their texts are command texts.
    ensures texts { AskFits ask.now → HasRoom ask.now →
        HasCommandTexts (command_of ask.now given) given.now held.now }
{
    match ask {
        Ask::Texts(ask) => mr_cmd_string::plan(alloc, held, ask, given),
        Ask::Keys(ask) => mr_cmd_key::plan(alloc, held, ask, given),
        Ask::Hashes(ask) => mr_cmd_hash::plan(alloc, held, ask, given),
        Ask::Lists(ask) => mr_cmd_list::plan(alloc, held, ask, given),
        Ask::Sets(ask) => mr_cmd_set::plan(alloc, held, ask, given),
        Ask::SortedSets(ask) => mr_cmd_zset::plan(alloc, held, ask, given),
        Ask::Server(ask) => mr_cmd_server::plan(alloc, held, ask, given),
        Ask::Node(ask) => Ok(to_node(alloc, held, ask, given)),
    }
}

/// What a command to the node is answered where a dataset is asked for it, which a node doesn't do: that there is none such.
fn to_node(alloc: Global, _held: &Dataset, _ask: &NodeAsk<'_, '_>, _given: Given) -> Plan
    ensures plan { IsPlan (to_node _ask.now) _given.now _held.now (view result.reply)
        result.effects.items }
    ensures faithful { IsFaithful (to_node _ask.now) _given.now _held.now }
    ensures texts { HasCommandTexts (to_node _ask.now) _given.now _held.now }
{
    Plan {
        reply: AskFault::Unknown.reply(),
        effects: Vec::new(alloc),
    }
}
