//! The follower.
ghost use Rattle.std.specs.Prelude.{◌≡◌, ◌≤◌, ◌++◌, ℕ, List, [], length, drop, OnOk, OnErr, None, Some};
ghost use Rattle.mr_keyspace.specs.Dataset.{Dataset as Held};
ghost use Rattle.mr_repl.specs.Backlog.{offset_limit};
ghost use Rattle.mr_follower.specs.Handshake.{ping_line, IsGreeting};
ghost use Rattle.mr_follower.specs.Lines.{HasAnswer};
ghost use Rattle.mr_follower.specs.declared.phase.Phase.TheVariants as waits;

use crate::handshake::{first_line, next_phase, push_next};
use crate::inbox::Inbox;
use crate::status::{answer_at, length_at, status_at};
use crate::stream::apply_front;
use crate::taking::{Pause, Taking, go_on};
use crate::{FollowFault, Heard, Phase};
use mr_data::Dataset;
use mr_peer_lines::PsyncReply;
use mr_repl::{OFFSET_LIMIT, ReplId};
use std::alloc::{AllocError, Global};
use std::hash::RandomState;
use std::marker::Model;

/// A replica's end of its master's link: it answers the handshake, makes a dataset of a snapshot as it comes, which it hands
/// over with the last byte, and applies the stream, a group of effects at a step.
#[derive(Drop)]
pub struct Follower {
    phase: Phase,
    offer: Option<(ReplId, u64)>,
    port: u16,
    seed: RandomState,
    taking: Option<Taking>,
    inbox: Inbox,
}

impl Model for Follower {
    ghost use Rattle.mr_follower.specs.State.{FollowState, IsFollower, follow_code};

    ghost Value = { FollowState };

    ghost coded = { follow_code };

    ghost view = { λ f. record { phase = f.phase; offer = f.offer; port = f.port; taking = f.taking; kept = f.inbox } };

    ghost invariant = { λ f. IsFollower (record { phase = f.phase; offer = f.offer; port = f.port; taking = f.taking; kept = f.inbox }) };
}

impl Follower {
    ghost use Rattle.mr_follower.specs.State.{Agrees, IsFollower, IsOffer, IsPlaced, IsTaking, started, heard};
    ghost use Rattle.mr_follower.specs.Loading.{HandsOver, TakesOut};
    ghost use Rattle.mr_follower.specs.Rows.{Steps, StepsAside};

    /// A follower whose first line was sent. It offers to go on behind this offset of the stream under this id, and
    /// names this port. The datasets of snapshots have this seed, which changes no answer.
    pub fn new(
        alloc: Global,
        seed: RandomState,
        offer: Option<(ReplId, u64)>,
        port: u16,
    ) -> Follower
        requires { IsOffer offer }
        ensures { result ≡ started offer port }
    {
        Follower {
            phase: Phase::Ping,
            offer,
            port,
            seed,
            taking: None,
            inbox: Inbox::new(alloc),
        }
    }

    /// The line that is sent first.
    pub fn first_line() -> &'static [u8]
        ensures { result.now ≡ ping_line }
    {
        first_line()
    }

    /// What is waited for.
    pub fn phase(&self) -> Phase
        ensures phase { result ≡ self.now.phase }
        ensures placed { IsPlaced self.now.phase }
    {
        self.phase
    }

    /// The port that it names.
    pub fn port(&self) -> u16
        ensures port { result ≡ self.now.port }
        ensures follower { IsFollower self.now }
    {
        self.port
    }

    /// How many bytes were fed and not used.
    pub fn unread_len(&self) -> u64
        ensures { (u : List ℕ) → Agrees self.now u → result ≡ length u }
    {
        let kept = self.inbox.unread().len() as u64;
        match &self.taking {
            Some(taking) => taking.head + taking.done + kept,
            None => kept,
        }
    }

    /// The bytes that were fed, and of which nothing was made yet.
    pub fn kept(&self) -> &[u8]
        ensures { result.now ≡ self.now.kept }
    {
        self.inbox.unread()
    }

    /// Takes bytes that the master sent.
    pub fn feed(&mut self, bytes: &[u8]) -> Result<(), AllocError>
        ensures ok { OnOk result (self.new ≡ heard self.old bytes.now) }
        ensures err { OnErr result (self.new ≡ self.old) }
    {
        self.inbox.hear(bytes)
    }

    /// Uses a line, a snapshot or a group of effects, if one is whole: of this dataset, up to this offset. What is to be sent, or was
    /// applied, is put behind what stands in `out`.
    pub fn step(
        &mut self,
        alloc: Global,
        held: &mut Dataset,
        offset: u64,
        out: &mut Vec<u8>,
    ) -> Result<Heard, FollowFault>
        requires { offset ≤ offset_limit }
        ensures { (u : List ℕ) → Agrees self.old u →
            Steps self.old u held.old offset result self.new held.new out.old.items out.new.items }
    {
        match self.phase {
            Phase::Ping | Phase::Port | Phase::Capabilities => self.greet(out),
            Phase::Psync => self.hear_answer(),
            Phase::Snapshot(_, _) => self.load(alloc, out),
            Phase::Stream => self.follow(alloc, held, offset, out),
        }
    }

    /// Uses so many bytes, and waits for this.
    fn take(&mut self, count: usize, phase: Phase)
        requires inside { count ≤ length self.old.kept }
        requires placed { IsPlaced phase }
        ensures { self.new ≡
            record self.old { phase = phase; taking = None; kept = drop count self.old.kept } }
    {
        self.inbox.take(count);
        self.taking = None;
        self.phase = phase;
    }

    /// Uses the answer to a line of the handshake, and puts out the next line.
    fn greet(&mut self, out: &mut Vec<u8>) -> Result<Heard, FollowFault>
        requires { IsGreeting self.old.phase }
        ensures { StepsAside self.old result self.new out.old.items out.new.items }
    {
        let Some(status) = status_at(self.inbox.unread())? else {
            return Ok(Heard::Idle);
        };
        let used = status.used;
        if push_next(self.phase, self.port, self.offer, out).is_err() {
            return Err(FollowFault::Memory);
        }
        self.take(used, next_phase(self.phase));
        Ok(Heard::Say)
    }

    /// Uses the answer to PSYNC.
    fn hear_answer(&mut self) -> Result<Heard, FollowFault>
        requires { self.old.phase ≡ waits.Psync }
        ensures { (out : List ℕ) → StepsAside self.old result self.new out out }
    {
        let Some(answered) = answer_at(self.inbox.unread())? else {
            return Ok(Heard::Idle);
        };
        self.obey(answered.reply, answered.used)
    }

    /// Goes on as this answer says, whose line has so many bytes. Nothing can be continued that wasn't offered.
    fn obey(&mut self, reply: PsyncReply, used: usize) -> Result<Heard, FollowFault>
        requires asked { self.old.phase ≡ waits.Psync }
        requires answer { HasAnswer self.old.kept used reply }
        ensures { (out : List ℕ) → StepsAside self.old result self.new out out }
    {
        match reply {
            PsyncReply::FullResync(id, offset) => {
                self.take(used, Phase::Snapshot(id, offset));
                Ok(Heard::Full(id, offset))
            }
            PsyncReply::Continue(id) => {
                let Some(_) = self.offer else {
                    return Err(FollowFault::BadLine);
                };
                self.take(used, Phase::Stream);
                Ok(Heard::Continue(id))
            }
        }
    }

    /// Takes out what was taken of a snapshot. The line of its length is used first.
    fn take_out(&mut self, alloc: Global) -> Result<Option<Taking>, FollowFault>
        ensures { TakesOut self.old result self.new }
    {
        if let Some(taking) = self.taking.take() {
            return Ok(Some(taking));
        }
        let Some(announced) = length_at(self.inbox.unread())? else {
            return Ok(None);
        };
        self.inbox.take(announced.used);
        let taking = Taking::new(alloc, self.seed, announced.used as u64, announced.length);
        Ok(Some(taking))
    }

    /// Puts back what was taken of a snapshot.
    fn put_back(&mut self, taking: Taking)
        requires { IsTaking taking }
        ensures { self.new ≡ record self.old { taking = Some taking } }
    {
        self.taking = Some(taking);
    }

    /// Hands the dataset of a whole snapshot over, and puts out the commands that rebuild it.
    fn hand_over(
        &mut self,
        alloc: Global,
        taking: Taking,
        out: &mut Vec<u8>,
    ) -> Result<Heard, FollowFault>
        requires { IsTaking taking }
        ensures { HandsOver self.old taking result self.new out.old.items out.new.items }
    {
        let Ok(text) = taking.made.rebuild(alloc) else {
            self.put_back(taking);
            return Err(FollowFault::Memory);
        };
        if put_behind(out, text).is_err() {
            self.put_back(taking);
            return Err(FollowFault::Memory);
        }
        self.phase = Phase::Stream;
        self.taking = None;
        Ok(Heard::Snapshot(taking.made))
    }

    /// Makes a dataset of what is there of a snapshot, and hands it over once the last byte is. A spent one is let go.
    fn load(&mut self, alloc: Global, out: &mut Vec<u8>) -> Result<Heard, FollowFault>
        requires { (id : List ℕ) ×
            ((offset : ℕ) × (self.old.phase ≡ waits.Snapshot id offset)) }
        ensures { StepsAside self.old result self.new out.old.items out.new.items }
    {
        let Some(taking) = self.take_out(alloc)? else {
            return Ok(Heard::Idle);
        };
        let paused = go_on(alloc, taking, &mut self.inbox);
        match paused.pause {
            Pause::Whole => self.hand_over(alloc, paused.taking, out),
            Pause::More => {
                self.put_back(paused.taking);
                Ok(Heard::Idle)
            }
            Pause::Bad => {
                self.put_back(paused.taking);
                Err(FollowFault::Undecodable)
            }
            Pause::Lack => {
                self.put_back(paused.taking);
                Err(FollowFault::Memory)
            }
            Pause::Spent => Err(FollowFault::Spent),
        }
    }

    /// Applies the group at the front of the stream.
    fn follow(
        &mut self,
        alloc: Global,
        held: &mut Dataset,
        offset: u64,
        out: &mut Vec<u8>,
    ) -> Result<Heard, FollowFault>
        requires streams { self.old.phase ≡ waits.Stream }
        requires countable { offset ≤ offset_limit }
        ensures { (u : List ℕ) → Agrees self.old u →
            Steps self.old u held.old offset result self.new held.new out.old.items out.new.items }
    {
        let room = OFFSET_LIMIT - offset;
        let Some(used) = apply_front(alloc, &mut self.inbox, room, held, out)? else {
            return Ok(Heard::Idle);
        };
        self.take(used, Phase::Stream);
        Ok(Heard::Applied)
    }
}

/// Puts a text behind what stands in `out`. Where nothing does, it is taken as it is, and not copied.
fn put_behind(out: &mut Vec<u8>, text: Vec<u8>) -> Result<(), AllocError>
    ensures ok { OnOk result (out.new.items ≡ out.old.items ++ text.items) }
    ensures err { OnErr result (out.new.items ≡ out.old.items) }
{
    if out.is_empty() {
        *out = text;
        return Ok(());
    }
    out.extend_from_slice(text.as_slice())
}
