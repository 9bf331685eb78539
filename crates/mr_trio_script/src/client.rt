// A client's end of a link.
ghost use Rattle.std.specs.Prelude.{◌≡◌, map, IfOk, IfErr, OnOk, OnErr, IsErrOf};
ghost use Rattle.std.specs.Cow.{cow_slice_items};
ghost use Rattle.mr_resp.specs.Spelling.{array};
ghost use Rattle.mr_file.specs.LogFile.{Rose};
ghost use Rattle.mr_wire.specs.Wire.{AcceptsNone, Connects};
ghost use Rattle.mr_trio_script.specs.State.{asked, begun, Heard, Sent, TakesReply};

use crate::reply::reply_end;
use crate::request::request_of;
use mr_buffer::Buffer;
use mr_links::LinkId;
use mr_wire::{Failed, Moved, Wire};
use std::alloc::{AllocError, Global};
use std::borrow::CowSlice;
use std::marker::Model;
use thiserror::Error;

/// Why a client's bytes can't be moved.
#[derive(Clone, Copy, Debug, PartialEq, Eq, Error)]
pub enum ClientFault {
    #[error("socket failed")]
    Link,
    #[error("out of memory")]
    Memory,
}

/// A client's end of a link over a wire.
#[derive(Drop)]
pub struct Client {
    link: LinkId,
    /// What was asked and isn't sent yet.
    waiting: Buffer,
    /// What came and wasn't taken as a reply.
    came: Buffer,
    /// The peer sends no more.
    ended: bool,
}

impl Model for Client {
    ghost use Rattle.mr_trio_script.specs.State.{ClientState};

    ghost Value = { ClientState };

    ghost view = { λ c. record { link = c.link; waiting = c.waiting; came = c.came; ended = c.ended } };
}

impl Client {
    /// A client of the peer that this host and this port name. Nothing is waited for.
    pub fn connect<W: Wire>(
        alloc: Global,
        wire: &mut W,
        host: &[u8],
        port: u16,
    ) -> Result<Client, Failed>
        ensures link { IfOk result (λ client.
            Connects (W.links wire.old) host.now port client.link (W.links wire.new)) }
        ensures begun { IfOk result (λ client. client ≡ begun client.link) }
        ensures err { OnErr result (AcceptsNone (W.links wire.old) (W.links wire.new)) }
        ensures cause { OnErr result (Rose (W.failures wire.old) (W.failures wire.new)) }
    {
        let link = wire.connect(host, port)?;
        Ok(Client {
            link,
            waiting: Buffer::new(alloc),
            came: Buffer::new(alloc),
            ended: false,
        })
    }

    /// The link's name on the wire.
    pub fn link(&self) -> LinkId
        ensures { result ≡ self.now.link }
    {
        self.link
    }

    /// Whether the peer sends no more.
    pub fn has_ended(&self) -> bool
        ensures { result ≡ self.now.ended }
    {
        self.ended
    }

    /// Asks a request, which waits until it is sent.
    pub fn ask(&mut self, alloc: Global, words: &[CowSlice<'_, u8>]) -> Result<(), AllocError>
        ensures ok { OnOk result (self.new ≡
            asked (array (map cow_slice_items words.now)) self.old) }
        ensures err { OnErr result (self.new ≡ self.old) }
    {
        let request = request_of(alloc, words)?;
        self.waiting.push(request.as_slice())
    }

    /// Sends a beginning of what waits.
    pub fn send<W: Wire>(&mut self, wire: &mut W) -> Result<(), ClientFault>
        ensures sent { Sent W.tells self.old self.new (W.links wire.old) (W.links wire.new) }
        ensures cause { OnErr result (Rose (W.failures wire.old) (W.failures wire.new)) }
        ensures fault { IfErr result (λ fault. fault ≡ ClientFault.Link) }
    {
        match wire.write(self.link, self.waiting.left()) {
            Moved::Bytes(count) => {
                self.waiting.take(count);
                Ok(())
            }
            Moved::NotReady => Ok(()),
            Moved::End => {
                self.ended = true;
                Ok(())
            }
            Moved::Failed => {
                self.ended = true;
                Err(ClientFault::Link)
            }
        }
    }

    /// Takes in some of what came, through a buffer.
    pub fn hear<W: Wire>(&mut self, wire: &mut W, piece: &mut [u8]) -> Result<(), ClientFault>
        ensures heard { IfOk result (λ _.
            Heard W.tells self.old self.new (W.links wire.old) (W.links wire.new)) }
        ensures cause { IsErrOf result ClientFault.Link →
            Rose (W.failures wire.old) (W.failures wire.new) }
    {
        match wire.read(self.link, piece) {
            Moved::Bytes(count) => match self.came.push(&piece[..count]) {
                Ok(()) => Ok(()),
                Err(_refused) => Err(ClientFault::Memory),
            },
            Moved::NotReady => Ok(()),
            Moved::End => {
                self.ended = true;
                Ok(())
            }
            Moved::Failed => {
                self.ended = true;
                Err(ClientFault::Link)
            }
        }
    }

    /// Takes the next reply, where all of it came.
    pub fn take_reply(&mut self, alloc: Global) -> Result<Option<Vec<u8>>, AllocError>
        ensures taken { IfOk result (λ reply. TakesReply self.old self.new reply) }
        ensures refused { OnErr result (self.new ≡ self.old) }
    {
        let Some(end) = reply_end(self.came.left()) else {
            return Ok(None);
        };
        let mut reply = Vec::new(alloc);
        reply.extend_from_slice(&self.came.left()[..end])?;
        self.came.take(end);
        Ok(Some(reply))
    }
}
