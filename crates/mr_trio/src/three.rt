// The three nodes, and their client.
ghost use Rattle.std.specs.Prelude.{◌≡◌, ◌⊎◌, IfOk, IfErr, IfSome, IfNone, IsErrOf, IsTrue, OnOk, map};
ghost use Rattle.std.specs.Cow.{cow_slice_items};
ghost use Rattle.mr_trio_script.specs.Replies.{IsReply};
ghost use Rattle.mr_trio_script.specs.Faults.{IsInner, IsOfPlay};
ghost use Rattle.mr_trio.specs.Asking.{Answers, Delays, EndsAs, GoAs, IsAskedOf, MovesIf, MovesToReply, end_at, node_at, three_conduct};
ghost use Rattle.mr_trio.specs.Levels.{AllLevel, IsAt, IsLevel};
ghost use Rattle.mr_trio.specs.Three.{trio_of};

use crate::desk::Desk;
use crate::level::is_at;
use crate::member::{Member, listening};
use crate::numbered_source::NumberedSource;
use mr_node::Role;
use mr_trio_script::{Ending, Nodes, Place, TrioFault, node_named, with_address};
use std::alloc::Global;
use std::borrow::CowSlice;
use std::hash::RandomState;

/// So many turns a line has.
const MOST_TURNS: u32 = 2_000;

/// Three nodes and a client in one loop.
pub(crate) struct Three {
    alloc: Global,
    source: NumberedSource,
    first: Member,
    second: Member,
    third: Member,
    desk: Desk,
}

// By hand, so that it is one call wherever a value goes (docs/PROVING.md).
impl Drop for Three {
    fn drop(self) {
        let Three {
            alloc: _,
            source: _,
            first: _,
            second: _,
            third: _,
            desk: _,
        } = self;
    }
}

impl Three {
    /// The nodes are started one after another, as masters.
    pub(crate) fn start(
        rt: &HostRuntime,
        alloc: Global,
        seed: RandomState,
    ) -> Result<Three, TrioFault>
        ensures { IfErr result IsInner }
    {
        let mut source = NumberedSource::new();
        let desk = match desk_of(rt, alloc) {
            Ok(desk) => desk,
            Err(fault) => return Err(fault),
        };
        let first = match Member::start(rt, alloc, seed, &mut source) {
            Ok(first) => first,
            Err(fault) => return Err(fault),
        };
        let second = match Member::start(rt, alloc, seed, &mut source) {
            Ok(second) => second,
            Err(fault) => return Err(fault),
        };
        match Member::start(rt, alloc, seed, &mut source) {
            Ok(third) => Ok(Three {
                alloc,
                source,
                first,
                second,
                third,
                desk,
            }),
            Err(fault) => Err(fault),
        }
    }

    /// The node there.
    fn member(&self, place: Place) -> &Member
        ensures node { result.now.node ≡ (node_at place (trio_of self.now)).node }
        ensures port { result.now.port ≡ (node_at place (trio_of self.now)).port }
    {
        match place {
            Place::First => &self.first,
            Place::Second => &self.second,
            Place::Third => &self.third,
        }
    }

    /// The words, with the address of the node in them that they name.
    fn named<'a>(&self, words: Vec<CowSlice<'a, u8>>) -> Result<Vec<CowSlice<'a, u8>>, TrioFault>
        ensures named { IfOk result (λ sent. GoAs (trio_of self.now)
            (map cow_slice_items words.entry.items) (map cow_slice_items sent.items)) }
        ensures fault { IfErr result IsInner }
    {
        let Some(place) = node_named(words.as_slice()) else {
            return Ok(words);
        };
        let port = self.member(place).port();
        match with_address(self.alloc, words, port) {
            Ok(words) => Ok(words),
            Err(_refused) => Err(TrioFault::Stopped),
        }
    }

    /// Asks the node there. What is sent waits until a turn.
    fn ask_first(&mut self, place: Place, words: Vec<CowSlice<'_, u8>>) -> Result<(), TrioFault>
        ensures asked { OnOk result (IsAskedOf self.old place
            (map cow_slice_items words.entry.items) (end_at place self.new.desk)) }
        ensures fault { IfErr result IsInner }
    {
        let port = self.member(place).port();
        match self.named(words) {
            Ok(words) => self.desk.ask(place, port, words.as_slice()),
            Err(fault) => Err(fault),
        }
    }

    /// Has turns pass until the reply of the node there is whole and each replica is level with its master: that reply.
    fn settle(&mut self, place: Place) -> Result<Vec<u8>, TrioFault>
        ensures reply { IfOk result (λ text. IsReply text.items) }
        ensures taken { IfOk result (λ text.
            MovesToReply (end_at place self.old.desk) (end_at place self.new.desk) text.items) }
        ensures level { IfOk result (λ text. AllLevel (trio_of self.new)) }
        ensures late { IsErrOf result TrioFault.Late →
            MovesIf (end_at place self.old.desk) (end_at place self.new.desk) }
        ensures fault { IfErr result IsOfPlay }
    {
        for _turn in 0..MOST_TURNS {
            match self.turn(place) {
                Ok(Some(reply)) => return Ok(reply),
                Ok(None) => {}
                Err(fault) => return Err(fault),
            }
        }
        Err(TrioFault::Late)
    }

    /// A turn of the client and of each node. It answers the reply of the node there, where all of it came and each replica is level.
    fn turn(&mut self, place: Place) -> Result<Option<Vec<u8>>, TrioFault>
        ensures reply { IfOk result (λ reply. IfSome reply (λ text. IsReply text.items)) }
        ensures taken { IfOk result (λ reply. IfSome reply (λ text.
            MovesToReply (end_at place self.old.desk) (end_at place self.new.desk)
            text.items)) }
        ensures level { IfOk result (λ reply.
            IfSome reply (λ text. AllLevel (trio_of self.new))) }
        ensures none { IfOk result (λ reply. IfNone reply
            (MovesIf (end_at place self.old.desk) (end_at place self.new.desk))) }
        ensures fault { IfErr result IsInner }
    {
        match self.turn_each(place) {
            Ok(()) => {}
            Err(fault) => return Err(fault),
        }
        if !self.all_are_level() {
            return Ok(None);
        }
        self.desk.take_reply(place)
    }

    /// A turn of the client, which looks to the node there, and of each node.
    fn turn_each(&mut self, place: Place) -> Result<(), TrioFault>
        ensures moves { OnOk result
            (MovesIf (end_at place self.old.desk) (end_at place self.new.desk)) }
        ensures fault { IfErr result IsInner }
    {
        match self.desk.exchange(place) {
            Ok(()) => {}
            Err(fault) => return Err(fault),
        }
        match self.first.turn(&mut self.source) {
            Ok(()) => {}
            Err(fault) => return Err(fault),
        }
        match self.second.turn(&mut self.source) {
            Ok(()) => {}
            Err(fault) => return Err(fault),
        }
        self.third.turn(&mut self.source)
    }

    /// Whether each replica has what the node has that it follows.
    fn all_are_level(&self) -> bool
        ensures { IsTrue result → AllLevel (trio_of self.now) }
    {
        if !self.is_level(&self.first) {
            return false;
        }
        if !self.is_level(&self.second) {
            return false;
        }
        self.is_level(&self.third)
    }

    /// Whether a node is a master, or in the stream of one of the three and shows what that one shows.
    fn is_level(&self, member: &Member) -> bool
        ensures { IsTrue result → IsLevel (trio_of self.now) member.now.node }
    {
        match member.role() {
            Role::Master => true,
            Role::Connect | Role::Sync => false,
            Role::Connected => self.has_master(member),
        }
    }

    /// Whether a replica follows one of the three, and shows what that one shows.
    fn has_master(&self, replica: &Member) -> bool
        ensures { IsTrue result →
            IsAt replica.now.node (trio_of self.now).first ⊎
            (IsAt replica.now.node (trio_of self.now).second ⊎
            IsAt replica.now.node (trio_of self.now).third) }
    {
        if is_at(replica, &self.first) {
            return true;
        }
        if is_at(replica, &self.second) {
            return true;
        }
        is_at(replica, &self.third)
    }
}

impl Nodes for Three {
    ghost conduct = { three_conduct };

    fn ask(&mut self, place: Place, words: Vec<CowSlice<'_, u8>>) -> Result<Vec<u8>, TrioFault> {
        match self.ask_first(place, words) {
            Ok(()) => self.settle(place),
            Err(fault) => Err(fault),
        }
    }

    fn ending(&self, place: Place) -> Result<Ending, TrioFault> {
        let member = self.member(place);
        match member.shows() {
            Some((id, offset)) => Ok(Ending {
                master: member.leads(),
                id,
                offset,
            }),
            None => Err(TrioFault::Stopped),
        }
    }
}

/// A client whose wire nobody else opens links on.
fn desk_of(rt: &HostRuntime, alloc: Global) -> Result<Desk, TrioFault>
    ensures { IfErr result IsInner }
{
    match listening(rt, alloc) {
        Ok(wire) => Desk::new(alloc, wire),
        Err(fault) => Err(fault),
    }
}
