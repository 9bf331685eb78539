// The plan of a command.
ghost use Rattle.std.specs.Prelude.{IsTrue, IfOk, option_copied};
ghost use Rattle.std.specs.List.{list_all};
ghost use Rattle.std.specs.FinMap.{get};
ghost use Rattle.mr_bytes.specs.Words.{fits};
ghost use Rattle.mr_resp.specs.ReplyView.{view};
ghost use Rattle.mr_data.specs.Dataset.{IsDataset, live};
ghost use Rattle.mr_cmd_list.specs.Carried.{list_words};
ghost use Rattle.mr_cmd_shared.specs.Answered.{Takes};
ghost use Rattle.mr_cmd_shared.specs.Commands.{on_key, IsPlan, IsFaithful, HasCommandTexts};
ghost use Rattle.mr_cmd_list.specs.Lists.{entry_with};
ghost use Rattle.mr_cmd_list.specs.Numbers.{HasNumber, HasNumbers, HasNumbersIn};
ghost use Rattle.mr_cmd_list.specs.Commands.{answer_of, command};

use crate::edits::Insertion;
use crate::finding::list_at;
use crate::list_ask::ListAsk;
use crate::moves::Move;
use crate::pushes::Pushing;
use crate::{edits, moves, pops, pushes, telling};
use mr_arguments::Argument;
use mr_bytes::End;
use mr_cmd_shared::{Effects, look, wrong_kind};
use mr_data::{Dataset, Given, Plan};
use mr_resp::Reply;
use mr_value::ListValue;
use std::alloc::{AllocError, Global};

/// What a command on lists is answered, and its effects. The dataset isn't changed, and the plan owns what it holds.
pub fn plan(
    alloc: Global,
    held: &Dataset,
    ask: &ListAsk<'_, '_>,
    given: Given,
) -> Result<Plan, AllocError>
    ensures plan { IfOk result (λ p.
        IsPlan (command ask.now) given.now held.now (view p.reply) p.effects.items) }

    // The effects lead to what the command leaves, and its own ones are there exactly where it changes something.
    ensures faithful { IsTrue (list_all fits (list_words ask.now)) →
        IsFaithful (command ask.now) given.now held.now }

    // .. and their texts are command texts.
    ensures texts { IsTrue (list_all fits (list_words ask.now)) →
        HasCommandTexts (command ask.now) given.now held.now }
{
    planned(alloc, held, ask, given)
}

/// What a command is answered, and its effects. What the dataset keeps is known from here on.
fn planned(
    alloc: Global,
    held: &Dataset,
    ask: &ListAsk<'_, '_>,
    given: Given,
) -> Result<Plan, AllocError>
    ensures plan { IfOk result (λ p.
        IsPlan (command ask.now) given.now held.now (view p.reply) p.effects.items) }
    ensures kept { IsDataset held.now }
    ensures numbers { HasNumbersIn ask.now given.now held.now }
{
    match ask {
        ListAsk::Push { key, .. } => at_key(alloc, held, key, ask, given),
        ListAsk::Pop { key, .. } => at_key(alloc, held, key, ask, given),
        ListAsk::LLen { key } => at_key(alloc, held, key, ask, given),
        ListAsk::LRange { key, .. } => at_key(alloc, held, key, ask, given),
        ListAsk::LIndex { key, .. } => at_key(alloc, held, key, ask, given),
        ListAsk::LSet { key, .. } => at_key(alloc, held, key, ask, given),
        ListAsk::LInsert { key, .. } => at_key(alloc, held, key, ask, given),
        ListAsk::LRem { key, .. } => at_key(alloc, held, key, ask, given),
        ListAsk::LTrim { key, .. } => at_key(alloc, held, key, ask, given),
        ListAsk::LMove {
            from,
            to,
            taken,
            put,
        } => {
            let asked = Move {
                from,
                to,
                taken: *taken,
                put: *put,
            };
            moves::move_item(alloc, held, &asked, given)
        }
        ListAsk::RPopLPush { from, to } => {
            let asked = Move {
                from,
                to,
                taken: End::Right,
                put: End::Left,
            };
            moves::move_item(alloc, held, &asked, given)
        }
    }
}

/// What a command on one key is answered, and its effects.
fn at_key(
    alloc: Global,
    held: &Dataset,
    key: &Argument<'_>,
    ask: &ListAsk<'_, '_>,
    given: Given,
) -> Result<Plan, AllocError>
    ensures plan { IfOk result (λ p.
        IsPlan (on_key key.now (answer_of ask.now)) given.now held.now (view p.reply)
        p.effects.items) }
    ensures kept { IsDataset held.now }
    ensures numbers { HasNumbers ask.now (live given.now (get held.now key.now)) }
{
    number_is_limited(ask);
    let mut effects = Effects::new(alloc);
    let live_entry = look(held, key, given, &mut effects)?;
    let Ok(list) = list_at(live_entry) else {
        return Ok(effects.into_plan(wrong_kind()));
    };
    let reply = answer_of(ask, list, &mut effects)?;
    Ok(effects.into_plan(reply))
}

/// A number that a command hands on to its effect has 64 bits.
fn number_is_limited(ask: &ListAsk<'_, '_>)
    ensures { HasNumber ask.now }
{
    if let ListAsk::LRem { count, .. } = ask {
        let _count = *count;
    }
}

/// What a command on one key is answered by the list there, which is none where the key is absent. Its effects are put
/// behind those that are there.
fn answer_of(
    ask: &ListAsk<'_, '_>,
    list: Option<&ListValue>,
    effects: &mut Effects,
) -> Result<Reply, AllocError>
    ensures { IfOk result (λ r.
        Takes (answer_of ask.now (entry_with (option_copied list.entry))) (view r) effects.old
        effects.new) }
{
    let alloc = effects.alloc();
    match ask {
        ListAsk::Push {
            key,
            end,
            to,
            items,
        } => {
            let (end, to) = (*end, *to);
            let asked = Pushing { end, to, items };
            pushes::push(key, &asked, list, effects)
        }
        ListAsk::Pop { key, end, count } => pops::pop(key, *end, *count, list, effects),
        ListAsk::LLen { .. } => Ok(telling::llen(list)),
        ListAsk::LRange { first, last, .. } => telling::lrange(alloc, *first, *last, list),
        ListAsk::LIndex { key: _, index } => telling::lindex(alloc, *index, list),
        ListAsk::LSet { key, index, item } => edits::lset(key, *index, item, list, effects),
        ListAsk::LInsert {
            key,
            side,
            pivot,
            item,
        } => {
            let side = *side;
            let asked = Insertion { side, pivot, item };
            edits::linsert(key, &asked, list, effects)
        }
        ListAsk::LRem { key, count, item } => edits::lrem(key, *count, item, list, effects),
        ListAsk::LTrim { key, first, last } => edits::ltrim(key, *first, *last, list, effects),
        ListAsk::LMove {
            from,
            to: _,
            taken,
            put,
        } => moves::rotate(from, *taken, *put, list, effects),
        ListAsk::RPopLPush { from, to: _ } => {
            moves::rotate(from, End::Right, End::Left, list, effects)
        }
    }
}
