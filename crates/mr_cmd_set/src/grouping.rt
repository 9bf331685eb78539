// Effects on members, in groups.
ghost use Rattle.std.specs.Prelude.{◌≡◌, ◌<◌, ◌^◌, [], ◌∷◌, ◌++◌, IfOk, OnOk};
ghost use Rattle.std.specs.FinMap.{len};
ghost use Rattle.mr_resp.specs.ReplyView.{view};
ghost use Rattle.mr_cmd_set.specs.Sets.{number};
ghost use Rattle.mr_cmd_set.specs.Grouping.{changed_by, changes, group_effect, group_effects};

use mr_arguments::{Argument, Words};
use mr_bytes::Word;
use mr_cmd_shared::{Effects, count};
use mr_data::{Effect, EffectWords};
use mr_map::SliceMap;
use mr_resp::Reply;
use mr_value::SetValue;
use std::alloc::{AllocError, Global};

/// What is done to members of a set.
#[derive(Clone, Copy)]
pub enum Write {
    Add,
    Remove,
}

// So many members are in one effect at most.
const MOST_ITEMS: usize = 64;

/// The words that change the set, each once.
fn changed_by<'a>(
    alloc: Global,
    write: Write,
    words: &Words<'a, '_>,
    set: &SetValue,
) -> Result<SliceMap<'a, ()>, AllocError>
    ensures { IfOk result (λ s. s ≡ changed_by write words.now set.now) }
{
    let mut changed = SliceMap::new(alloc);
    for word in words.as_slice() {
        let member = word.as_slice();
        if changes(write, set, member) {
            changed.insert(member, ())?;
        }
    }
    Ok(changed)
}

/// Whether the write of a member changes the set.
fn changes(write: Write, set: &SetValue, member: &[u8]) -> bool
    ensures { result ≡ changes write set.now member.now }
{
    match write {
        Write::Add => !set.contains(member),
        Write::Remove => set.contains(member),
    }
}

/// `SADD`, `SREM`: how many of the words change the set. The effects that write these are put behind those that are
/// there.
pub fn write_members(
    write: Write,
    key: &Argument<'_>,
    words: &Words<'_, '_>,
    set: &SetValue,
    effects: &mut Effects,
) -> Result<Reply, AllocError>
    ensures reply { IfOk result (λ r.
        view r ≡ number (len (changed_by write words.now set.now))) }
    ensures effects { OnOk result (effects.new ≡
        effects.old ++ group_effects write key.now (changed_by write words.now set.now)) }
{
    let changed = push_changes(write, key, words, set, effects)?;
    Ok(count(changed))
}

/// Effects that write those words that change the set, and how many these are.
fn push_changes(
    write: Write,
    key: &Argument<'_>,
    words: &Words<'_, '_>,
    set: &SetValue,
    effects: &mut Effects,
) -> Result<usize, AllocError>
    ensures changed { IfOk result (λ n. n ≡ len (changed_by write words.now set.now)) }
    ensures small { IfOk result (λ n. n < 2 ^ 63) }
    ensures effects { OnOk result (effects.new ≡
        effects.old ++ group_effects write key.now (changed_by write words.now set.now)) }
{
    if let [word] = words.as_slice() {
        return push_change(write, key, word.as_slice(), set, effects);
    }
    let changed = changed_by(effects.alloc(), write, words, set)?;
    push_groups(write, key, &changed, effects)?;
    Ok(changed.len())
}

/// Puts the effect that writes one word, if that changes the set, and answers how many do. It puts no words in order.
fn push_change(
    write: Write,
    key: &Argument<'_>,
    member: &[u8],
    set: &SetValue,
    effects: &mut Effects,
) -> Result<usize, AllocError>
    ensures changed { IfOk result (λ n. n ≡ len (changed_by write (member.now ∷ []) set.now)) }
    ensures small { IfOk result (λ n. n < 2 ^ 63) }
    ensures effects { OnOk result (effects.new ≡
        effects.old ++ group_effects write key.now (changed_by write (member.now ∷ []) set.now)) }
{
    if !changes(write, set, member) {
        return Ok(0);
    }
    push_member(write, key, member, effects)?;
    Ok(1)
}

/// The effect that writes one member.
pub fn push_member(
    write: Write,
    key: &Argument<'_>,
    member: &[u8],
    effects: &mut Effects,
) -> Result<(), AllocError>
    ensures { OnOk result (effects.new ≡
        effects.old ++ group_effect write key.now (member.now ∷ []) ∷ []) }
{
    let alloc = effects.alloc();
    let mut members = EffectWords::new(alloc);
    members.push(Word::copied(alloc, member)?)?;
    effects.push(group_effect(alloc, write, key, members)?)?;
    Ok(())
}

/// Effects that write these members, in byte order.
pub fn push_groups(
    write: Write,
    key: &Argument<'_>,
    members: &SliceMap<'_, ()>,
    effects: &mut Effects,
) -> Result<(), AllocError>
    ensures { OnOk result (effects.new ≡ effects.old ++ group_effects write key.now members.now) }
{
    let alloc = effects.alloc();
    let mut group = EffectWords::new(alloc);
    for (member, _) in members.iter() {
        group.push(Word::copied(alloc, member)?)?;
        if group.len() == MOST_ITEMS {
            effects.push(group_effect(alloc, write, key, group)?)?;
            group = EffectWords::new(alloc);
        }
    }
    if !group.is_empty() {
        effects.push(group_effect(alloc, write, key, group)?)?;
    }
    Ok(())
}

/// The effect that writes these members.
fn group_effect(
    alloc: Global,
    write: Write,
    key: &Argument<'_>,
    members: EffectWords<'static>,
) -> Result<Effect<'static>, AllocError>
    ensures { IfOk result (λ e. e ≡ group_effect write key.now members.entry) }
{
    let key = Word::copied(alloc, key.as_slice())?;
    match write {
        Write::Add => Ok(Effect::AddMembers { key, members }),
        Write::Remove => Ok(Effect::RemoveMembers { key, members }),
    }
}
