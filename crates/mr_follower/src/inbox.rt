//! Bytes that were fed and not yet used.
ghost use Rattle.std.specs.Prelude.{◌≡◌, ◌≤◌, ◌++◌, [], length, drop, take, IfOk, OnOk, OnErr};
ghost use Rattle.mr_resp.specs.Command.{BeginsWithCommand};
ghost use Rattle.mr_resp.specs.Usual.{commands};
ghost use Rattle.mr_groups.specs.Steps.{Replays};
ghost use Rattle.mr_groups.specs.Reading.{ReadsGroup};
ghost use Rattle.mr_follower.specs.Stream.{AppliesSingle};

use crate::single::{Single, apply_single};
use mr_buffer::Buffer;
use mr_data::Dataset;
use mr_groups::{Next, Reader, Replayed, replay_front};
use mr_resp::CommandProgress;
use std::alloc::{AllocError, Global};
use std::marker::Model;

/// What was fed and not used, what is known of the command text at its front, and the `reader` that has read a part of a group of it:
/// so bytes that come in pieces are gone over once.
#[derive(Drop)]
pub(crate) struct Inbox {
    input: Buffer,
    known: CommandProgress,
    reader: Reader,
}

impl Model for Inbox {
    ghost use Rattle.std.specs.Prelude.{ℕ, List};

    ghost Value = { List ℕ };

    ghost view = { λ i. i.input };

    ghost use Rattle.mr_resp.specs.Resumed.{AgreesCommand};
    ghost use Rattle.mr_groups.specs.Readers.{HasRead};

    ghost invariant = { λ i. HasRead i.reader i.input × AgreesCommand i.known i.input };
}

impl Inbox {
    /// Nothing was fed.
    pub(crate) fn new(alloc: Global) -> Inbox
        ensures { result ≡ [] }
    {
        Inbox {
            input: Buffer::new(alloc),
            known: CommandProgress::new(),
            reader: Reader::new(alloc),
        }
    }

    /// The bytes that were fed and not used.
    pub(crate) fn unread(&self) -> &[u8]
        ensures { result.now ≡ self.now }
    {
        self.input.left()
    }

    /// Uses so many of the unread bytes.
    pub(crate) fn take(&mut self, count: usize)
        requires { count ≤ length self.old }
        ensures { self.new ≡ drop count self.old }
    {
        self.input.take(count);
        self.known = CommandProgress::new();
        self.reader.reset();
    }

    /// Puts bytes behind the unread ones.
    pub(crate) fn hear(&mut self, bytes: &[u8]) -> Result<(), AllocError>
        ensures ok { OnOk result (self.new ≡ self.old ++ bytes.now) }
        ensures err { OnErr result (self.new ≡ self.old) }
    {
        self.input.push(bytes)?;
        Ok(())
    }

    /// Reads the group at the front of the first `most` unread bytes. What was read of it before isn't read again.
    pub(crate) fn next_group(&mut self, alloc: Global, most: u64) -> Result<Next, AllocError>
        ensures found { IfOk result (λ next. ReadsGroup (take most self.old) next) }
        ensures refused { OnErr result (BeginsWithCommand commands (take most self.old)) }
        ensures kept { self.new ≡ self.old }
    {
        self.reader.next(alloc, at_most(self.input.left(), most))
    }

    /// Applies the effect that is a group of its own at the front of the first `most` unread bytes, and puts its text out. What is
    /// known of it from before isn't gone over again.
    pub(crate) fn apply_single(
        &mut self,
        alloc: Global,
        most: u64,
        held: &mut Dataset,
        out: &mut Vec<u8>,
    ) -> Single
        ensures applied { AppliesSingle self.old most held.old result held.new out.old.items
            out.new.items }
        ensures kept { self.new ≡ self.old }
    {
        let front = at_most(self.input.left(), most);
        apply_single(alloc, &mut self.known, front, held, out)
    }

    /// Does the effects whose texts stand whole at the front of the first `most` unread bytes to a dataset, and uses them. What is
    /// known of the first from before isn't gone over again.
    pub(crate) fn replay(&mut self, alloc: Global, most: u64, made: &mut Dataset) -> Replayed
        ensures done { Replays (take most self.old) result.used made.old made.new result.halt }
        ensures left { self.new ≡ drop result.used self.old }
    {
        let front = at_most(self.input.left(), most);
        let replayed = replay_front(alloc, made, &mut self.known, front);
        self.input.take(replayed.used);
        self.reader.reset();
        replayed
    }
}

/// The first bytes, at most so many.
pub(crate) fn at_most(bytes: &[u8], most: u64) -> &[u8]
    ensures { result.now ≡ take most bytes.now }
{
    if bytes.len() as u64 <= most {
        return bytes;
    }
    &bytes[..most as usize]
}
