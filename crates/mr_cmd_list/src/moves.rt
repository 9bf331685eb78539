// An item taken from an end of one list and put at an end of another, or of the same.
ghost use Rattle.std.specs.Prelude.{◌≡◌, ◌++◌, is_some, IfOk, option_copied};
ghost use Rattle.std.specs.Str.{bytes_eq};
ghost use Rattle.mr_resp.specs.ReplyView.{view};
ghost use Rattle.mr_data.specs.Dataset.{IsDataset};
ghost use Rattle.mr_keyspace.specs.Steps.{lists, held};
ghost use Rattle.mr_cmd_shared.specs.Answered.{Takes};
ghost use Rattle.mr_cmd_shared.specs.Commands.{IsPlan};
ghost use Rattle.mr_cmd_list.specs.Lists.{entry_with};
ghost use Rattle.mr_cmd_list.specs.Moves.{rotate_answer, carry, moving};

use crate::ends::{end_item, is_same_end};
use crate::finding::list_at;
use mr_arguments::Argument;
use mr_bytes::{End, Word};
use mr_cmd_shared::{Effects, bulk, look, wrong_kind};
use mr_data::{Dataset, Effect, Entry, Given, Plan, Value};
use mr_resp::Reply;
use mr_value::ListValue;
use std::alloc::{AllocError, Global};

/// An item to be moved from an end of the list at one key to an end of the list at another, or at the same.
#[derive(Drop)]
pub struct Move<'w, 'a> {
    pub from: &'w Argument<'a>,
    pub to: &'w Argument<'a>,
    pub taken: End,
    pub put: End,
}

/// The plan of a command that moves an item. A key that is named twice is looked at once.
pub fn move_item(
    alloc: Global,
    held: &Dataset,
    asked: &Move<'_, '_>,
    given: Given,
) -> Result<Plan, AllocError>
    ensures plan { IfOk result (λ p.
        IsPlan (moving asked.now.from.now asked.now.to.now asked.now.taken asked.now.put)
        given.now held.now (view p.reply) p.effects.items) }
    ensures kept { IsDataset held.now }
{
    let mut effects = Effects::new(alloc);
    let source = look(held, asked.from, given, &mut effects)?;
    if is_same_key(asked.from, asked.to) {
        let Ok(list) = list_at(source) else {
            return Ok(effects.into_plan(wrong_kind()));
        };
        let reply = rotate(asked.from, asked.taken, asked.put, list, &mut effects)?;
        return Ok(effects.into_plan(reply));
    }
    let target = look(held, asked.to, given, &mut effects)?;
    let reply = carry(asked, source, target, &mut effects)?;
    Ok(effects.into_plan(reply))
}

/// Whether two keys are one.
fn is_same_key(key: &Argument<'_>, other: &Argument<'_>) -> bool
    ensures { result ≡ bytes_eq key.now other.now }
{
    key.as_slice() == other.as_slice()
}

/// From one end of a list to another of the same.
pub fn rotate(
    key: &Argument<'_>,
    taken: End,
    put: End,
    list: Option<&ListValue>,
    effects: &mut Effects,
) -> Result<Reply, AllocError>
    ensures { IfOk result (λ r.
        Takes (rotate_answer key.now taken put (entry_with (option_copied list.entry))) (view r)
        effects.old effects.new) }
{
    let alloc = effects.alloc();
    let Some(list) = list else {
        return Ok(Reply::NullBulk);
    };
    let Some(item) = end_item(list, taken) else {
        return Ok(Reply::NullBulk);
    };
    let reply = bulk(alloc, item)?;
    if !is_same_end(taken, put) && !list.is_uniform() {
        effects.push(Effect::MoveItem {
            from: Word::copied(alloc, key.as_slice())?,
            to: Word::copied(alloc, key.as_slice())?,
            taken,
            put,
        })?;
    }
    Ok(reply)
}

/// What is answered where an item goes from one list to another: the item, nil where there is none, or a refusal where
/// one of the keys holds another kind. The effect is put behind those that are there.
fn carry(
    asked: &Move<'_, '_>,
    source: Option<&Entry>,
    target: Option<&Entry>,
    effects: &mut Effects,
) -> Result<Reply, AllocError>
    ensures reply { IfOk result (λ r.
        view r ≡ (carry asked.now.from.now asked.now.to.now asked.now.taken asked.now.put
        (option_copied source.entry) (option_copied target.entry)).reply) }
    ensures effects { IfOk result (λ _.
        effects.new ≡
        effects.old ++
        (carry asked.now.from.now asked.now.to.now asked.now.taken asked.now.put
        (option_copied source.entry) (option_copied target.entry)).effects) }
{
    let alloc = effects.alloc();
    let Some(entry) = source else {
        return Ok(Reply::NullBulk);
    };
    let Value::List(list) = &entry.value else {
        return Ok(wrong_kind());
    };
    if !takes_items(target) {
        return Ok(wrong_kind());
    }
    let Some(item) = end_item(list, asked.taken) else {
        return Ok(Reply::NullBulk);
    };
    let reply = bulk(alloc, item)?;
    effects.push(Effect::MoveItem {
        from: Word::copied(alloc, asked.from.as_slice())?,
        to: Word::copied(alloc, asked.to.as_slice())?,
        taken: asked.taken,
        put: asked.put,
    })?;
    Ok(reply)
}

/// Whether the key is absent or holds a list.
fn takes_items(target: Option<&Entry>) -> bool
    ensures { result ≡ is_some (held lists (option_copied target.entry)) }
{
    match target {
        None => true,
        Some(entry) => match &entry.value {
            Value::List(_) => true,
            Value::Text(_) | Value::Hash(_) | Value::Set(_) | Value::SortedSet(_) => false,
        },
    }
}
