// Commands that draw members by a random word.
ghost use Rattle.std.specs.Prelude.{◌≡◌, ◌++◌, ◌%◌, ◌<◌, [], ◌∷◌, take, IfOk, OnOk, IfSome, IfNone, option_copied};
ghost use Rattle.std.specs.FinMap as map;
ghost use Rattle.mr_resp.specs.ReplyView.{view};
ghost use Rattle.mr_cmd_set.specs.Members.{drawn, as_set};
ghost use Rattle.mr_cmd_set.specs.Grouping.{lent, group_effects};
ghost use Rattle.mr_cmd_set.specs.declared.grouping.Write.TheVariants as write;
ghost use Rattle.mr_cmd_set.specs.Sets.{drawn_reply, taken, taking, first_bulk, one_bulk, bulks, Makes};

use crate::grouping::{Write, push_groups, push_member};
use mr_arguments::Argument;
use mr_cmd_shared::{Effects, bulk};
use mr_map::SliceMap;
use mr_resp::Reply;
use mr_value::{Members, SetValue};
use std::alloc::{AllocError, Global};

/// The place that a random word names among so many.
fn place(word: u64, len: usize) -> usize
    requires { 0 < len }
    ensures { result ≡ word % len }
{
    (word % len as u64) as usize
}

/// The member that a random word names, if there is one.
fn draw_one(set: &SetValue, word: u64) -> Option<&[u8]>
    ensures some { IfSome result (λ x. drawn word 1 (map.keys set.now) ≡ x.now ∷ []) }
    ensures none { IfNone result (drawn word 1 (map.keys set.now) ≡ []) }
{
    if set.is_empty() {
        return None;
    }
    set.nth(place(word, set.len()))
}

// Members that lie in a set, in order.
#[derive(Drop)]
struct Drawn<'d> {
    items: Vec<&'d [u8]>,
}

impl<'d> Drawn<'d> {
    /// Puts the next members behind those that were drawn, at most so many.
    fn extend(&mut self, members: Members<'d>, count: usize) -> Result<(), AllocError>
        ensures { OnOk result (lent self.new.items.items ≡
            lent self.old.items.items ++ take count members.entry) }
    {
        let mut members = members;
        for _ in 0..count {
            if let Some(member) = members.next() {
                self.items.push(member)?;
            }
        }
        Ok(())
    }
}

/// The members that a random word names, at most so many.
fn draw<'d>(
    alloc: Global,
    set: &'d SetValue,
    word: u64,
    count: usize,
) -> Result<Drawn<'d>, AllocError>
    ensures { IfOk result (λ d. lent d.items.items ≡ drawn word count (map.keys set.now)) }
{
    let len = set.len();
    let count = count.min(len);
    let mut drawn = Drawn {
        items: Vec::with_capacity(alloc, count)?,
    };
    if len > 0 {
        let place = place(word, len);
        drawn.extend(set.members_from(place), count.min(len - place))?;
        drawn.extend(set.members(), count - count.min(len - place))?;
    }
    Ok(drawn)
}

/// The answer of the drawn members, in the order in which they were drawn.
fn bulks_of(alloc: Global, drawn: &[&[u8]]) -> Result<Reply, AllocError>
    ensures { IfOk result (λ r. view r ≡ bulks (lent drawn.now)) }
{
    let mut replies = Vec::with_capacity(alloc, drawn.len())?;
    for member in drawn {
        replies.push(bulk(alloc, member)?)?;
    }
    Ok(Reply::Array(replies))
}

/// The drawn members, in byte order.
fn in_order<'d>(alloc: Global, drawn: &[&'d [u8]]) -> Result<SliceMap<'d, ()>, AllocError>
    ensures { IfOk result (λ s. s ≡ as_set (lent drawn.now)) }
{
    let mut members = SliceMap::new(alloc);
    for member in drawn {
        members.insert(*member, ())?;
    }
    Ok(members)
}

/// `SRANDMEMBER`
pub fn srandmember(
    alloc: Global,
    count: Option<usize>,
    word: u64,
    set: &SetValue,
) -> Result<Reply, AllocError>
    ensures { IfOk result (λ r. view r ≡ drawn_reply count (taken count word set.now)) }
{
    let Some(count) = count else {
        return one_bulk(alloc, draw_one(set, word));
    };
    let drawn = draw(alloc, set, word, count)?;
    bulks_of(alloc, drawn.items.as_slice())
}

/// The answer of a member, or nil.
fn one_bulk(alloc: Global, member: Option<&[u8]>) -> Result<Reply, AllocError>
    ensures { IfOk result (λ r. view r ≡ one_bulk (option_copied member.entry)) }
{
    match member {
        None => Ok(Reply::NullBulk),
        Some(member) => bulk(alloc, member),
    }
}

/// `SPOP`
pub fn spop(
    key: &Argument<'_>,
    count: Option<usize>,
    word: u64,
    set: &SetValue,
    effects: &mut Effects,
) -> Result<Reply, AllocError>
    ensures { IfOk result (λ r.
        Makes (taking key.now count word set.now) (view r) effects.old effects.new) }
{
    match count {
        None => take_one(key, word, set, effects),
        Some(count) => take_some(key, count, word, set, effects),
    }
}

/// `SPOP` without a count: the drawn member, which goes, or nil.
fn take_one(
    key: &Argument<'_>,
    word: u64,
    set: &SetValue,
    effects: &mut Effects,
) -> Result<Reply, AllocError>
    ensures reply { IfOk result (λ r. view r ≡ first_bulk (drawn word 1 (map.keys set.now))) }
    ensures effects { OnOk result (effects.new ≡
        effects.old ++
        group_effects write.Remove key.now (as_set (drawn word 1 (map.keys set.now)))) }
{
    let Some(member) = draw_one(set, word) else {
        return Ok(Reply::NullBulk);
    };
    push_member(Write::Remove, key, member, effects)?;
    let reply = bulk(effects.alloc(), member)?;
    Ok(reply)
}

/// `SPOP` with a count: the drawn members, at most so many, which go.
fn take_some(
    key: &Argument<'_>,
    count: usize,
    word: u64,
    set: &SetValue,
    effects: &mut Effects,
) -> Result<Reply, AllocError>
    ensures reply { IfOk result (λ r. view r ≡ bulks (drawn word count (map.keys set.now))) }
    ensures effects { OnOk result (effects.new ≡
        effects.old ++
        group_effects write.Remove key.now (as_set (drawn word count (map.keys set.now)))) }
{
    let alloc = effects.alloc();
    let drawn = draw(alloc, set, word, count)?;
    let members = in_order(alloc, drawn.items.as_slice())?;
    push_groups(Write::Remove, key, &members, effects)?;
    let reply = bulks_of(alloc, drawn.items.as_slice())?;
    Ok(reply)
}
