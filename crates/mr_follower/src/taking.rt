//! A snapshot that is taken as it comes.
ghost use Rattle.std.specs.Prelude.{ℕ, ◌≡◌, ◌≤◌, drop};
ghost use Rattle.std.specs.FinMap.{empty};
ghost use Rattle.mr_follower.specs.Loading.{GoesOn, pause_of};

use crate::inbox::{Inbox, at_most};
use mr_data::Dataset;
use mr_groups::Halt;
use std::alloc::Global;
use std::hash::RandomState;

/// What was taken of a snapshot: the line of its length, which has `head` bytes, and `done` of its `size` bytes, which made a dataset.
#[derive(Drop)]
pub(crate) struct Taking {
    pub(crate) head: u64,
    pub(crate) size: u64,
    pub(crate) done: u64,
    pub(crate) made: Dataset,
}

/// Why no more of a snapshot is taken.
#[derive(Clone, Copy)]
pub(crate) enum Pause {
    /// All of it is.
    Whole,
    /// More of its bytes are wanted.
    More,
    /// However the bytes go on, they make no dataset.
    Bad,
    /// Memory was lacking for the command text that comes next.
    Lack,
    /// Memory ran out within an effect.
    Spent,
}

/// What was taken up to now, and why no more.
#[derive(Drop)]
pub(crate) struct Paused {
    pub(crate) taking: Taking,
    pub(crate) pause: Pause,
}

impl Taking {
    /// Only the line was taken. Look-ups in the dataset go by a hash with this seed.
    pub(crate) fn new(alloc: Global, seed: RandomState, head: u64, size: u64) -> Self
        ensures head { result.head ≡ head }
        ensures size { result.size ≡ size }
        ensures done { result.done ≡ 0 }
        ensures made { result.made ≡ empty }
    {
        Taking {
            head,
            size,
            done: 0,
            made: Dataset::new(alloc, seed),
        }
    }
}

/// Why no more is taken: by whether all bytes of the snapshot are there, and whether all of them were done.
fn pause_of(halt: Halt, there: bool, ended: bool) -> Pause
    ensures { result ≡ pause_of halt there ended }
{
    match halt {
        Halt::Spent => Pause::Spent,
        Halt::Open => {
            if ended {
                Pause::Whole
            } else if there {
                Pause::Bad
            } else {
                Pause::More
            }
        }
        Halt::Bad => { if ended { Pause::Whole } else { Pause::Bad } }
        Halt::Lack => { if ended { Pause::Whole } else { Pause::Lack } }
    }
}

/// Takes the effects whose texts stand whole at the front of the unread bytes, as far as the snapshot reaches.
pub(crate) fn go_on(alloc: Global, taking: Taking, inbox: &mut Inbox) -> Paused
    requires { taking.done ≤ taking.size }
    ensures { (used : ℕ) × GoesOn taking inbox.old used result.pause result.taking
        × (inbox.new ≡ drop used inbox.old) }
{
    let Taking {
        head,
        size,
        done,
        mut made,
    } = taking;
    let left = size - done;
    let there = at_most(inbox.unread(), left).len() as u64;
    let replayed = inbox.replay(alloc, left, &mut made);
    let done = done + replayed.used as u64;
    let pause = pause_of(replayed.halt, there == left, done == size);
    Paused {
        taking: Taking {
            head,
            size,
            done,
            made,
        },
        pause,
    }
}
