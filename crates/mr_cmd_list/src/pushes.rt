// Items put at an end of a list.
ghost use Rattle.std.specs.Prelude.{◌≡◌, ◌+◌, ◌<◌, ◌^◌, ◌++◌, pos, length, map, IfOk, OnOk, option_copied};
ghost use Rattle.std.specs.Cow.{cow_slice_items};
ghost use Rattle.mr_resp.specs.Replies.{int};
ghost use Rattle.mr_resp.specs.ReplyView.{view};
ghost use Rattle.mr_keyspace.specs.Cuts.{cut};
ghost use Rattle.mr_cmd_shared.specs.Answered.{Takes};
ghost use Rattle.mr_cmd_list.specs.Lists.{entry_with};
ghost use Rattle.mr_cmd_list.specs.Pushes.{push_answer, push_effects};

use crate::list_ask::PushTo;
use mr_arguments::{Argument, Words};
use mr_bytes::{End, Word};
use mr_cmd_shared::{Effects, integer};
use mr_data::{Effect, EffectWords};
use mr_resp::Reply;
use mr_value::ListValue;
use std::alloc::{AllocError, Global};
use std::borrow::CowSlice;

/// Items that are to come to an end of a list, and at which keys they may.
#[derive(Drop)]
pub struct Pushing<'w, 'a, 't> {
    pub end: End,
    pub to: PushTo,
    pub items: &'w Words<'a, 't>,
}

/// `LPUSH`, `RPUSH`, `LPUSHX`, `RPUSHX`
pub fn push(
    key: &Argument<'_>,
    asked: &Pushing<'_, '_, '_>,
    list: Option<&ListValue>,
    effects: &mut Effects,
) -> Result<Reply, AllocError>
    ensures { IfOk result (λ r.
        Takes (push_answer key.now asked.now.end asked.now.to asked.now.items.now
        (entry_with (option_copied list.entry))) (view r) effects.old effects.new) }
{
    let items = asked.items.as_slice();
    let before = match (list, asked.to) {
        (Some(list), _) => list.len(),
        (None, PushTo::AnyKey) => 0,
        (None, PushTo::ExistingKey) => return Ok(integer(0)),
    };
    push_groups(key, asked.end, items, effects)?;
    Ok(integer((before + items.len()) as i64))
}

/// The most items that one effect has.
const MOST_ITEMS: usize = 64;

/// Puts one effect for each group of items that come to an end of the list.
fn push_groups(
    key: &Argument<'_>,
    end: End,
    items: &[CowSlice<'_, u8>],
    effects: &mut Effects,
) -> Result<(), AllocError>
    ensures { OnOk result (effects.new ≡
        effects.old ++ push_effects key.now end (cut (map cow_slice_items items.now))) }
{
    let alloc = effects.alloc();
    let mut start = 0;
    while start < items.len() {
        let next = items.len().min(start + MOST_ITEMS);
        effects.push(Effect::Push {
            key: Word::copied(alloc, key.as_slice())?,
            end,
            items: copied(alloc, &items[start..next])?,
        })?;
        start = next;
    }
    Ok(())
}

/// The words, copied.
fn copied(alloc: Global, words: &[CowSlice<'_, u8>]) -> Result<EffectWords<'static>, AllocError>
    ensures { IfOk result (λ ws. ws ≡ map cow_slice_items words.now) }
{
    let mut copied = EffectWords::new(alloc);
    for word in words {
        copied.push(Word::copied(alloc, word.as_slice())?)?;
    }
    Ok(copied)
}
