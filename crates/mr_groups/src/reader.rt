// A group whose text comes in pieces.
ghost use Rattle.std.specs.Prelude.{◌≡◌, ◌==◌, IfOk, OnErr, drop};
ghost use Rattle.mr_resp.specs.Command.{BeginsWithCommand};
ghost use Rattle.mr_resp.specs.Resumed.{KnowsNothing, MayAgree};
ghost use Rattle.mr_resp.specs.Usual.{commands};
ghost use Rattle.mr_groups.specs.Reading.{ReadsGroup};
ghost use Rattle.mr_groups.specs.Readers.{AreRead, GivesAll, HasRead, IsAtStart, IsFresh, LeavesOf, MayRead};

use crate::part::{Gathered, Part, next_part};
use crate::reading::Next;
use mr_resp::CommandProgress;
use std::alloc::{AllocError, Global};

/// Reads the group at the front of bytes that come in pieces, each part of it once: what it has read of a frame so far is kept, and
/// how far it knows the command text behind that, which isn't whole.
#[derive(Drop)]
pub struct Reader {
    used: usize,
    effects: Gathered,
    pub(crate) known: CommandProgress,
}

impl Reader {
    /// Nothing was read. It takes no memory.
    pub fn new(alloc: Global) -> Reader
        ensures { IsFresh result }
    {
        Reader {
            used: 0,
            effects: Gathered::new(alloc),
            known: CommandProgress::new(),
        }
    }

    /// Whether no whole command text was read.
    pub(crate) fn is_at_start(&self) -> bool
        ensures { result ≡ (self.now.used == 0) }
    {
        self.used == 0
    }

    /// Lets go of what was read.
    pub fn reset(&mut self)
        ensures { IsFresh self.new }
    {
        self.used = 0;
        self.effects.clear();
        self.known = CommandProgress::new();
    }

    /// Reads the group whose text begins the bytes, as `next_group` does, but goes on behind the last part that was read before,
    /// where it is among them. Only whole command texts take memory.
    pub fn next(&mut self, alloc: Global, bytes: &[u8]) -> Result<Next, AllocError>
        requires { MayRead self.old bytes.now }
        ensures found { IfOk result (λ next. ReadsGroup bytes.now next) }
        ensures left { IfOk result (λ next. LeavesOf next self.new) }
        ensures refused { OnErr result (BeginsWithCommand commands bytes.now) }
        ensures kept { HasRead self.new bytes.now }
    {
        if self.is_at_start() {
            return self.begin(alloc, bytes);
        }
        if self.used <= bytes.len() {
            return self.go_on(alloc, bytes);
        }
        self.reset();
        self.begin(alloc, bytes)
    }

    /// Reads from the first command text on.
    fn begin(&mut self, alloc: Global, bytes: &[u8]) -> Result<Next, AllocError>
        requires start { IsAtStart self.old }
        requires known { MayAgree self.old.known bytes.now }
        ensures found { IfOk result (λ next. ReadsGroup bytes.now next) }
        ensures left { IfOk result (λ next. LeavesOf next self.new) }
        ensures refused { OnErr result (BeginsWithCommand commands bytes.now) }
        ensures kept { HasRead self.new bytes.now }
    {
        let mut effects = Gathered::new(alloc);
        match next_part(alloc, &mut self.known, bytes, &mut effects) {
            Err(e) => Err(e),
            Ok(Part::Begin(used)) => {
                self.used = used;
                self.go_on(alloc, bytes)
            }
            Ok(Part::Effect(used, _)) => Ok(Next::Whole {
                effects: effects.into_vec(),
                used,
            }),
            Ok(Part::End(_)) => Ok(Next::Bad),
            Ok(Part::More) => Ok(Next::More),
            Ok(Part::Bad) => Ok(Next::Bad),
        }
    }

    /// Gives the effects away, whose group's text has so many bytes.
    fn give(&mut self, alloc: Global, used: usize) -> Next
        requires { KnowsNothing self.old.known }
        ensures given { GivesAll self.old.effects used result }
        ensures fresh { IsFresh self.new }
    {
        self.used = 0;
        Next::Whole {
            effects: self.effects.take(alloc),
            used,
        }
    }

    /// Reads on behind the last part of a frame.
    fn go_on(&mut self, alloc: Global, bytes: &[u8]) -> Result<Next, AllocError>
        requires read { AreRead bytes.now self.old.used self.old.effects }
        requires known { MayAgree self.old.known (drop self.old.used bytes.now) }
        ensures found { IfOk result (λ next. ReadsGroup bytes.now next) }
        ensures left { IfOk result (λ next. LeavesOf next self.new) }
        ensures refused { OnErr result (BeginsWithCommand commands bytes.now) }
        ensures kept { HasRead self.new bytes.now }
    {
        'parts: loop {
            let rest = &bytes[self.used..];
            let part = next_part(alloc, &mut self.known, rest, &mut self.effects)?;
            match part {
                Part::Begin(_) => {
                    self.reset();
                    return Ok(Next::Bad);
                }
                Part::Effect(more, joins) => {
                    if !joins {
                        self.reset();
                        return Ok(Next::Bad);
                    }
                    self.used += more;
                }
                Part::End(more) => {
                    if self.effects.len() < 2 {
                        self.reset();
                        return Ok(Next::Bad);
                    }
                    let used = self.used + more;
                    return Ok(self.give(alloc, used));
                }
                Part::More => return Ok(Next::More),
                Part::Bad => {
                    self.reset();
                    return Ok(Next::Bad);
                }
            }
        }
    }
}
