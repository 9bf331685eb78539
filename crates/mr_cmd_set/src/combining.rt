// SINTER, SUNION, SDIFF: the members that several sets give.
ghost use Rattle.std.specs.Prelude.{◌≡◌, ◌++◌, length, filter, IfOk, OnOk};
ghost use Rattle.std.specs.List.Sorted.{IsPermutation};
ghost use Rattle.std.specs.Option.{option_map};
ghost use Rattle.std.specs.FinMap as map;
ghost use Rattle.mr_resp.specs.ReplyView.{view};
ghost use Rattle.mr_data.specs.Dataset.{seen};
ghost use Rattle.mr_cmd_set.specs.declared.set_ask.SetOperation.TheVariants as operation;
ghost use Rattle.mr_cmd_shared.specs.Keys.{dels, expired};
ghost use Rattle.mr_cmd_set.specs.Combining.{sets_at, combined, of_all};
ghost use Rattle.mr_cmd_set.specs.Finding.{HasFound};
ghost use Rattle.mr_cmd_set.specs.Members.{joined};
ghost use Rattle.mr_cmd_set.specs.Smallest.{IsSmallestFirst};
ghost use Rattle.mr_cmd_set.specs.Grouping.{members_of, agrees, is_wanted};
ghost use Rattle.mr_cmd_set.specs.Sets.{bulks};

use crate::finding::set_at;
use crate::set_ask::SetOperation;
use mr_arguments::Words;
use mr_cmd_shared::{Effects, bulk, push_dels, see};
use mr_data::{Dataset, Given};
use mr_map::SliceMap;
use mr_resp::Reply;
use mr_value::SetValue;
use std::alloc::{AllocError, Global};

/// Sets that lie in a dataset.
#[derive(Drop)]
pub struct Sets<'d> {
    items: Vec<&'d SetValue>,
}

/// The sets at these keys, or none where one of them holds another kind. An expired key gets its DEL.
pub fn look_at_all<'d>(
    held: &'d Dataset,
    keys: &Words<'_, '_>,
    given: Given,
    empty: &'d SetValue,
    effects: &mut Effects,
) -> Result<Option<Sets<'d>>, AllocError>
    requires { empty.now ≡ map.empty }
    ensures sets { IfOk result (λ r.
        option_map (λ s. members_of s.items.items) r ≡
        sets_at keys.now (seen given.now held.now)) }
    ensures expired { IfOk result (λ _.
        effects.new ≡ effects.old ++ dels (expired given.now keys.now held.now)) }
{
    let found = find_all(effects.alloc(), held, keys, given, empty)?;
    if found.expired {
        push_dels(held, keys, given, true, effects)?;
    }
    if found.other {
        return Ok(None);
    }
    Ok(Some(Sets { items: found.sets }))
}

// The sets at some keys, whether one holds another kind, and whether one is expired.
#[derive(Drop)]
struct Found<'d> {
    sets: Vec<&'d SetValue>,
    other: bool,
    expired: bool,
}

/// The sets at these keys, this empty one where nothing is there; whether one of the keys holds another kind, and
/// whether one is expired.
fn find_all<'d>(
    alloc: Global,
    held: &'d Dataset,
    keys: &Words<'_, '_>,
    given: Given,
    empty: &'d SetValue,
) -> Result<Found<'d>, AllocError>
    requires { empty.now ≡ map.empty }
    ensures { IfOk result (λ f.
        HasFound given.now held.now keys.now f.sets.items f.other f.expired) }
{
    let words = keys.as_slice();
    let mut found = Found {
        sets: Vec::with_capacity(alloc, words.len())?,
        other: false,
        expired: false,
    };
    for word in words {
        let (live_entry, expired) = see(held, word.as_slice(), given);
        found.expired |= expired;
        match set_at(live_entry, empty) {
            Some(set) => found.sets.push(set)?,
            None => found.other = true,
        }
    }
    Ok(found)
}

/// What is made of these sets.
pub fn combined(alloc: Global, operation: SetOperation, sets: Sets<'_>) -> Result<Reply, AllocError>
    ensures { IfOk result (λ r.
        view r ≡ bulks (map.keys (combined operation (members_of sets.entry.items.items)))) }
{
    let sets = in_order(operation, sets.items);
    let Some((first, others)) = sets.split_first() else {
        return Ok(Reply::Array(Vec::new(alloc)));
    };
    match operation {
        SetOperation::Intersection => members_where(alloc, first, others, true),
        SetOperation::Union => union(alloc, first, others),
        SetOperation::Difference => members_where(alloc, first, others, false),
    }
}

/// Sets in the order in which they are combined. What is in all is in the smallest, and the members of that one are the
/// fewest to ask the others for.
fn in_order(operation: SetOperation, mut sets: Vec<&SetValue>) -> Vec<&SetValue>
    ensures { map.keys (combined operation (members_of result.items)) ≡
        map.keys (combined operation (members_of sets.entry.items)) }
{
    match operation {
        SetOperation::Intersection => {
            put_smallest_first(&mut sets);
            sets
        }
        SetOperation::Union | SetOperation::Difference => sets,
    }
}

/// Puts a set with the fewest members in front of the others.
fn put_smallest_first(sets: &mut [&SetValue])
    ensures same { IsPermutation sets.old sets.new }
    ensures smallest { IsSmallestFirst (length sets.new) sets.new }
{
    for place in 1..sets.len() {
        if sets[place].len() < sets[0].len() {
            sets.swap(0, place);
        }
    }
}

/// The answer of the members of a set that each of some others has, or lacks, in byte order.
fn members_where(
    alloc: Global,
    set: &SetValue,
    others: &[&SetValue],
    wanted: bool,
) -> Result<Reply, AllocError>
    ensures { IfOk result (λ r.
        view r ≡ bulks (filter (is_wanted wanted others.now) (map.keys set.now))) }
{
    let mut replies = Vec::new(alloc);
    for member in set.members() {
        if is_wanted(member, others, wanted) {
            replies.push(bulk(alloc, member)?)?;
        }
    }
    Ok(Reply::Array(replies))
}

/// Whether each of the sets has the member, or lacks it.
fn is_wanted(member: &[u8], others: &[&SetValue], wanted: bool) -> bool
    ensures { result ≡ is_wanted wanted others.now member.now }
{
    others.iter().all(|set| agrees(set, member, wanted))
}

/// Whether a set has the member, or lacks it, as is wanted.
fn agrees(set: &SetValue, member: &[u8], wanted: bool) -> bool
    ensures { result ≡ agrees wanted set.now member.now }
{
    if wanted {
        set.contains(member)
    } else {
        !set.contains(member)
    }
}

/// The answer of the members of any of the sets, in byte order.
fn union(alloc: Global, first: &SetValue, others: &[&SetValue]) -> Result<Reply, AllocError>
    ensures { IfOk result (λ r.
        view r ≡ bulks (map.keys (of_all operation.Union first.now (members_of others.now)))) }
{
    let mut members = Joined {
        members: SliceMap::new(alloc),
    };
    members.join(first)?;
    for set in others {
        members.join(set)?;
    }
    members.reply(alloc)
}

// Members of several sets, each once.
#[derive(Drop)]
struct Joined<'d> {
    members: SliceMap<'d, ()>,
}

impl<'d> Joined<'d> {
    /// Adds the members of a set.
    fn join(&mut self, set: &'d SetValue) -> Result<(), AllocError>
        ensures { OnOk result (self.new.members ≡ joined self.old.members set.now) }
    {
        for member in set.members() {
            self.members.insert(member, ())?;
        }
        Ok(())
    }

    /// The answer of the members, in byte order.
    fn reply(&self, alloc: Global) -> Result<Reply, AllocError>
        ensures { IfOk result (λ r. view r ≡ bulks (map.keys self.now.members)) }
    {
        let mut replies = Vec::with_capacity(alloc, self.members.len())?;
        for (member, _) in self.members.iter() {
            replies.push(bulk(alloc, member)?)?;
        }
        Ok(Reply::Array(replies))
    }
}
