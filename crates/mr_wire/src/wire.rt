ghost use Rattle.std.specs.Prelude.{◌≡◌, ◌≤◌, [], Bool, true, ℕ, None, length, IfOk, IfSome, IfNone, IsSome, OnErr};
ghost use Rattle.std.specs.FinMap as map;
ghost use Rattle.mr_file.specs.LogFile.{Rose};
ghost use Rattle.mr_wire.specs.declared.waited.Waited.{Waited};
ghost use Rattle.mr_wire.specs.Wire.{WireState, Accepts, AcceptsNone, Connects, ChangesLink, WaitsOnce, behind_read, behind_write, count_of, bytes_moved};

use mr_links::LinkId;
use thiserror::Error;

/// The wire answered that it failed.
#[derive(Clone, Copy, Debug, PartialEq, Eq, Error)]
#[error("socket failed")]
pub struct Failed;

/// What a read or a write came to.
#[derive(Clone, Copy, Debug, PartialEq, Eq)]
pub enum Moved {
    /// So many bytes were moved. None says no more than `NotReady`.
    Bytes(usize),
    /// Nothing can be moved now.
    NotReady,
    /// The peer sends no more.
    End,
    /// The link failed, or isn't there.
    Failed,
}

/// A wire has links, each under a name that is never given twice. One in memory tells the bytes that its reads gave and its
/// writes moved, those of closed links too, whether the last write of a link moved none, and how often and how long it was asked to
/// wait; of one of the system they count as none. A failure is answered only where the count of failures rose, or stands at its greatest.
pub trait Wire {
    /// Whether it tells the bytes.
    ghost tells: { Bool };

    /// The open links, how many there ever were, and all that was sent, on links that are closed too.
    ghost links: { Self → WireState };

    ghost failures: { Self → ℕ };

    /// How often it was asked to wait, and for how long last, of a wire that tells the bytes.
    ghost waited: { Self → Waited };

    /// Waits until something is ready, and at most so many milliseconds.
    fn wait(&mut self, millis: u64) -> Result<(), Failed>
        ensures same { links self.new ≡ links self.old }
        ensures waited { tells ≡ true → WaitsOnce millis (waited self.old) (waited self.new) }
        ensures later { failures self.old ≤ failures self.new }
        ensures cause { OnErr result (Rose (failures self.old) (failures self.new)) };

    /// The next link that a peer opened, if there is one.
    fn accept(&mut self) -> Result<Option<LinkId>, Failed>
        ensures some { IfOk result (λ next.
            IfSome next (λ link. Accepts (links self.old) link (links self.new))) }
        ensures none { IfOk result (λ next. IfNone next (links self.new ≡ links self.old)) }
        ensures err { OnErr result (AcceptsNone (links self.old) (links self.new)) }
        ensures waited { waited self.new ≡ waited self.old }
        ensures later { failures self.old ≤ failures self.new }
        ensures cause { OnErr result (Rose (failures self.old) (failures self.new)) };

    /// Opens a link to a peer. The host is an IPv4 address as text, or `localhost`: any other fails, for no name is looked up. The
    /// call doesn't wait: until the peer has answered, nothing can be moved on the link. Where it refuses, the next read or write
    /// fails, or finds the end.
    fn connect(&mut self, host: &[u8], port: u16) -> Result<LinkId, Failed>
        ensures ok { IfOk result (λ link.
            Connects (links self.old) host.now port link (links self.new)) }
        ensures err { OnErr result (AcceptsNone (links self.old) (links self.new)) }
        ensures waited { waited self.new ≡ waited self.old }
        ensures later { failures self.old ≤ failures self.new }
        ensures cause { OnErr result (Rose (failures self.old) (failures self.new)) };

    /// The next open link on which a read or a write may move bytes, or find its end. Between two waits each is named once, in the
    /// order in which they became ready. One whose last call was cut short, as a read by its buffer's end, is named again behind the
    /// next wait, and so is one of which not all was read that is there, once a write moved all its bytes; any other once something
    /// new comes of it.
    fn ready(&mut self) -> Option<LinkId>
        ensures there { IfSome result (λ link. IsSome (map.get (links self.new).open_links link)) }
        ensures same { links self.new ≡ links self.old }
        ensures waited { waited self.new ≡ waited self.old }
        ensures failures { failures self.new ≡ failures self.old };

    /// Reads the next bytes of a link into the front of a buffer.
    fn read(&mut self, link: LinkId, into: &mut [u8]) -> Moved
        ensures within { count_of result ≤ length into.new }
        ensures read { ChangesLink (links self.old) link (behind_read tells result into.new) []
            (links self.new) }
        ensures absent { map.get (links self.old).open_links link ≡ None →
            (result ≡ Moved.Failed) × (links self.new ≡ links self.old) }
        ensures waited { waited self.new ≡ waited self.old }
        ensures later { failures self.old ≤ failures self.new }
        ensures cause { result ≡ Moved.Failed → Rose (failures self.old) (failures self.new) };

    /// Writes a beginning of the bytes on a link.
    fn write(&mut self, link: LinkId, bytes: &[u8]) -> Moved
        ensures within { count_of result ≤ length bytes.now }
        ensures written { ChangesLink (links self.old) link (behind_write tells result bytes.now)
            (bytes_moved tells result bytes.now) (links self.new) }
        ensures absent { map.get (links self.old).open_links link ≡ None →
            (result ≡ Moved.Failed) × (links self.new ≡ links self.old) }
        ensures waited { waited self.new ≡ waited self.old }
        ensures later { failures self.old ≤ failures self.new }
        ensures cause { result ≡ Moved.Failed → Rose (failures self.old) (failures self.new) };

    /// Closes a link. Where it isn't there nothing changes.
    fn close(&mut self, link: LinkId)
        ensures closed { (links self.new).open_links ≡
            map.remove (links self.old).open_links link }
        ensures opened { (links self.new).opened ≡ (links self.old).opened }
        ensures sent { (links self.new).sent ≡ (links self.old).sent }
        ensures waited { waited self.new ≡ waited self.old }
        ensures failures { failures self.new ≡ failures self.old };
}
