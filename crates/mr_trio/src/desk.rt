// The client of the three nodes.
ghost use Rattle.std.specs.Prelude.{◌≡◌, IfOk, IfSome, IfNone, IfErr, OnOk, None, Some, map};
ghost use Rattle.std.specs.Cow.{cow_slice_items};
ghost use Rattle.mr_trio_script.specs.Replies.{IsReply};
ghost use Rattle.mr_trio_script.specs.State.{begun};
ghost use Rattle.mr_trio_script.specs.Faults.{IsInner};
ghost use Rattle.mr_resp.specs.Spelling.{array};
ghost use Rattle.mr_trio.specs.Asking.{IsAsked, IsFrom, IsTaken, Moves, MovesIf, end_at};

use crate::faults::of_client;
use mr_file::PIECE;
use mr_trio_script::{Client, HOST, Place, TrioFault};
use mr_wire::{SocketWire, Wire};
use std::alloc::Global;
use std::borrow::CowSlice;

/// So many milliseconds the client waits at most for something to come.
const LONGEST_WAIT: u64 = 1;

/// No more links of the client are looked at in a turn.
const MOST_READY: u32 = 64;

/// A client with a link to each node that it has asked.
pub(crate) struct Desk {
    alloc: Global,
    wire: SocketWire,
    first: Option<Client>,
    second: Option<Client>,
    third: Option<Client>,
    piece: Vec<u8>,
}

// By hand, so that it is one call wherever a value goes (docs/PROVING.md).
impl Drop for Desk {
    fn drop(self) {
        let Desk {
            alloc: _,
            wire: _,
            first: _,
            second: _,
            third: _,
            piece: _,
        } = self;
    }
}

impl Desk {
    /// No link is open. The wire's own port is for nobody.
    pub(crate) fn new(alloc: Global, wire: SocketWire) -> Result<Desk, TrioFault>
        ensures { IfErr result IsInner }
    {
        match Vec::from_elem(alloc, 0u8, PIECE) {
            Ok(piece) => Ok(Desk {
                alloc,
                wire,
                first: None,
                second: None,
                third: None,
                piece,
            }),
            Err(_refused) => Err(TrioFault::Stopped),
        }
    }

    /// Asks the node at this port a request, over its link or over a new one.
    pub(crate) fn ask(
        &mut self,
        place: Place,
        port: u16,
        words: &[CowSlice<'_, u8>],
    ) -> Result<(), TrioFault>
        ensures asked { OnOk result (IsAsked (array (map cow_slice_items words.now))
            (end_at place self.old) (end_at place self.new)) }
        ensures fault { IfErr result IsInner }
    {
        let mut client = match self.client(place, port) {
            Ok(client) => client,
            Err(fault) => return Err(fault),
        };
        match client.ask(self.alloc, words) {
            Ok(()) => {
                self.put(place, client);
                Ok(())
            }
            Err(_refused) => Err(TrioFault::Stopped),
        }
    }

    /// The link to a node, taken out: a new one where there was none that goes on.
    fn client(&mut self, place: Place, port: u16) -> Result<Client, TrioFault>
        ensures from { IfOk result (λ client. IsFrom (end_at place self.old) client) }
        ensures fault { IfErr result IsInner }
    {
        match self.take(place) {
            Some(client) => self.renewed(client, port),
            None => self.connect(port),
        }
    }

    /// The same link, or a new one where the node has closed it meanwhile.
    fn renewed(&mut self, mut client: Client, port: u16) -> Result<Client, TrioFault>
        ensures from { IfOk result (λ next. IsFrom (Some client) next) }
        ensures fault { IfErr result IsInner }
    {
        if self.wait().is_err() {
            return Err(TrioFault::Socket);
        }
        match self.move_bytes(&mut client) {
            Ok(()) => {
                if !client.has_ended() {
                    return Ok(client);
                }
            }
            Err(TrioFault::Socket) => {}
            Err(fault) => return Err(fault),
        }
        self.wire.close(client.link());
        self.connect(port)
    }

    /// A new link to the node at this port.
    fn connect(&mut self, port: u16) -> Result<Client, TrioFault>
        ensures new { IfOk result (λ client. client ≡ begun client.link) }
        ensures fault { IfErr result IsInner }
    {
        match Client::connect(self.alloc, &mut self.wire, HOST, port) {
            Ok(client) => Ok(client),
            Err(_failed) => Err(TrioFault::Socket),
        }
    }

    /// Takes the link to the node at this place out, if there is one.
    fn take(&mut self, place: Place) -> Option<Client>
        ensures taken { result ≡ end_at place self.old }
        ensures none { end_at place self.new ≡ None }
    {
        match place {
            Place::First => self.first.take(),
            Place::Second => self.second.take(),
            Place::Third => self.third.take(),
        }
    }

    /// Keeps a link to the node at this place, instead of the one before.
    fn put(&mut self, place: Place, client: Client)
        ensures { end_at place self.new ≡ Some client }
    {
        match place {
            Place::First => self.first = Some(client),
            Place::Second => self.second = Some(client),
            Place::Third => self.third = Some(client),
        }
    }

    /// Sends what waits for a node, and takes in what came of it.
    pub(crate) fn exchange(&mut self, place: Place) -> Result<(), TrioFault>
        ensures moves { OnOk result (MovesIf (end_at place self.old) (end_at place self.new)) }
        ensures fault { IfErr result IsInner }
    {
        if self.wait().is_err() {
            return Err(TrioFault::Socket);
        }
        let Some(mut client) = self.take(place) else {
            return Ok(());
        };
        match self.move_bytes(&mut client) {
            Ok(()) => {
                self.put(place, client);
                Ok(())
            }
            Err(fault) => Err(fault),
        }
    }

    /// Waits until something is ready, or for as long as the client may.
    fn wait(&mut self) -> Result<(), TrioFault>
        ensures first { self.new.first ≡ self.old.first }
        ensures second { self.new.second ≡ self.old.second }
        ensures third { self.new.third ≡ self.old.third }
    {
        if self.wire.wait(LONGEST_WAIT).is_err() {
            return Err(TrioFault::Socket);
        }
        for _ in 0..MOST_READY {
            if self.wire.ready().is_none() {
                return Ok(());
            }
        }
        Ok(())
    }

    /// Moves bytes both ways.
    fn move_bytes(&mut self, client: &mut Client) -> Result<(), TrioFault>
        ensures moves { OnOk result (Moves client.old client.new) }
        ensures fault { IfErr result IsInner }
    {
        match client.send(&mut self.wire) {
            Ok(()) => {}
            Err(fault) => return Err(of_client(fault)),
        }
        match client.hear(&mut self.wire, self.piece.as_mut_slice()) {
            Ok(()) => Ok(()),
            Err(fault) => Err(of_client(fault)),
        }
    }

    /// Takes the next reply of a node, where all of it came.
    pub(crate) fn take_reply(&mut self, place: Place) -> Result<Option<Vec<u8>>, TrioFault>
        ensures reply { IfOk result (λ reply. IfSome reply (λ text. IsReply text.items)) }
        ensures taken { IfOk result (λ reply. IfSome reply (λ text.
            IsTaken (end_at place self.old) (end_at place self.new) text.items)) }
        ensures none { IfOk result (λ reply.
            IfNone reply (end_at place self.new ≡ end_at place self.old)) }
        ensures fault { IfErr result IsInner }
    {
        let Some(mut client) = self.take(place) else {
            return Ok(None);
        };
        match client.take_reply(self.alloc) {
            Ok(reply) => {
                self.put(place, client);
                Ok(reply)
            }
            Err(_refused) => Err(TrioFault::Stopped),
        }
    }
}
