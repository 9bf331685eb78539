// Groups at the front of bytes, done to a dataset, and the notes between them.
ghost use Rattle.std.specs.Prelude.{drop};
ghost use Rattle.mr_groups.specs.Groups.{IsGroup};
ghost use Rattle.mr_groups.specs.Notes.{HasNoNote};
ghost use Rattle.mr_groups.specs.Readers.{HasRead, IsFresh};
ghost use Rattle.mr_groups.specs.Fronts.{AppliesFront, TakesTurn, TriesWhole};

use crate::applying::{GroupFault, apply_group_owned};
use crate::note::{Note, note_at};
use crate::reader::Reader;
use crate::reading::Next;
use crate::{Halt, replay_front};
use mr_data::{Dataset, Effect};
use std::alloc::{AllocError, Global};

/// What is left behind the groups that were done.
#[derive(Clone, Copy, Debug, PartialEq, Eq)]
pub enum Rest {
    /// More bytes may make a group's text, or a note's, of it.
    Open,
    /// However it goes on, no note begins it, nor a group that can be done: its first effect is undefined, or none is there.
    Bad,
    /// The group that begins it was done in part, for a later effect of it is undefined: the dataset is of no use.
    Torn,
}

/// Why a turn ended.
#[derive(Clone, Copy)]
pub(crate) enum End {
    /// A group was done, or a note passed, and others may follow.
    Item,
    /// No more can be done.
    Rest(Rest),
    /// Memory was lacking: nothing is known of the dataset.
    Memory,
}

/// How many bytes a turn used, and why it ended.
#[derive(Clone, Copy)]
pub(crate) struct Turn {
    used: usize,
    end: End,
}

/// How many bytes were done, and what is left, if memory wasn't lacking.
#[derive(Clone, Copy)]
pub(crate) struct Applied {
    pub(crate) used: usize,
    pub(crate) rest: Result<Rest, AllocError>,
}

/// Does the group whose text is the first so many bytes.
fn try_whole(dataset: &mut Dataset, effects: Vec<Effect<'static>>, used: usize) -> Turn
    requires { IsGroup effects.items }
    ensures { TriesWhole effects.entry.items used dataset.old dataset.new result.used result.end }
{
    match apply_group_owned(dataset, effects) {
        Ok(()) => Turn {
            used,
            end: End::Item,
        },
        Err(GroupFault::Refused) => Turn {
            used: 0,
            end: End::Rest(Rest::Bad),
        },
        Err(GroupFault::Memory) => Turn {
            used: 0,
            end: End::Memory,
        },
        Err(GroupFault::Torn) => Turn {
            used: 0,
            end: End::Rest(Rest::Torn),
        },
    }
}

/// Does the group whose text begins the bytes, where one does, and no note. What was read of one that isn't whole is kept.
fn try_group(alloc: Global, dataset: &mut Dataset, reader: &mut Reader, bytes: &[u8]) -> Turn
    requires read { HasRead reader.old bytes.now }
    requires no_note { HasNoNote bytes.now }
    ensures done { TakesTurn bytes.now result.used dataset.old dataset.new result.end }
    ensures kept { HasRead reader.new (drop result.used bytes.now) }
{
    match reader.next(alloc, bytes) {
        Err(_) => Turn {
            used: 0,
            end: End::Memory,
        },
        Ok(Next::Whole { effects, used }) => try_whole(dataset, effects, used),
        Ok(Next::More) => Turn {
            used: 0,
            end: End::Rest(Rest::Open),
        },
        Ok(Next::Bad) => Turn {
            used: 0,
            end: End::Rest(Rest::Bad),
        },
    }
}

/// Passes the note that begins the bytes, or else does the group.
fn try_item(alloc: Global, dataset: &mut Dataset, reader: &mut Reader, bytes: &[u8]) -> Turn
    requires { IsFresh reader.old }
    ensures done { TakesTurn bytes.now result.used dataset.old dataset.new result.end }
    ensures kept { HasRead reader.new (drop result.used bytes.now) }
{
    match note_at(bytes) {
        Note::Whole(used) => Turn {
            used,
            end: End::Item,
        },
        Note::Open => Turn {
            used: 0,
            end: End::Rest(Rest::Open),
        },
        Note::No => try_group(alloc, dataset, reader, bytes),
    }
}

/// Does the effects whose texts begin the bytes, each as a group of its own, for which none of their words is copied; and where
/// they end, passes the note there or does the group. A note stands between groups only.
fn take_turn(alloc: Global, dataset: &mut Dataset, reader: &mut Reader, bytes: &[u8]) -> Turn
    requires { HasRead reader.old bytes.now }
    ensures done { TakesTurn bytes.now result.used dataset.old dataset.new result.end }
    ensures kept { HasRead reader.new (drop result.used bytes.now) }
{
    if !reader.is_at_start() {
        return try_group(alloc, dataset, reader, bytes);
    }
    let run = replay_front(alloc, dataset, &mut reader.known, bytes);
    match run.halt {
        Halt::Open => Turn {
            used: run.used,
            end: End::Rest(Rest::Open),
        },
        Halt::Bad => {
            let turn = try_item(alloc, dataset, reader, &bytes[run.used..]);
            Turn {
                used: run.used + turn.used,
                end: turn.end,
            }
        }
        Halt::Lack | Halt::Spent => Turn {
            used: run.used,
            end: End::Memory,
        },
    }
}

/// Does the groups whose texts begin the bytes, as long as they can be done, and passes the notes between them. The reader has read
/// a part of the first, or nothing, and then a part of what is left.
pub(crate) fn apply_front(
    alloc: Global,
    dataset: &mut Dataset,
    reader: &mut Reader,
    bytes: &[u8],
) -> Applied
    requires { HasRead reader.old bytes.now }
    ensures done { AppliesFront bytes.now result.used dataset.old dataset.new result.rest }
    ensures kept { HasRead reader.new (drop result.used bytes.now) }
{
    let mut used = 0;
    'turns: loop {
        let turn = take_turn(alloc, dataset, reader, &bytes[used..]);
        used += turn.used;
        match turn.end {
            End::Item => {}
            End::Rest(rest) => {
                return Applied {
                    used,
                    rest: Ok(rest),
                };
            }
            End::Memory => {
                return Applied {
                    used,
                    rest: Err(AllocError),
                };
            }
        }
    }
}
