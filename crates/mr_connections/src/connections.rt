ghost use Rattle.std.specs.Prelude.{◌≡◌, ◌≤◌, ◌<◌, ◌-◌, ◌↔◌, [], cond, false, true, length, IfNone, IfSome, IsTrue, None, not, OnErr, OnOk, Some, option_copied, slice_index_or, vec_capacity};
ghost use Rattle.std.specs.FinMap as map;
ghost use Rattle.std.specs.List.{filter};
ghost use Rattle.std.specs.Ordering.{eq_by_cmp};
ghost use Rattle.mr_links.specs.LinkId.{id_cmp};
ghost use Rattle.mr_connections.specs.State.{AreOnce, AreToldApart, HasLink, NoneDone, NoneHas, begun, changed, is_among, is_done_at, left, listing, parted, pushed, sent, wrote};

use crate::connection::Connection;
use crate::one;
use crate::table::Table;
use mr_links::LinkId;
use std::alloc::{AllocError, Global};
use std::marker::Model;
use std::rc::Rc;

/// So many rounds of writes there are from one connection's rest to the next one's.
const ROUNDS_APART: u8 = 8;

/// The connections of an event loop, each under the name of its socket.
#[derive(Drop)]
pub struct Connections {
    alloc: Global,
    rows: Table<Connection>,
    /// The socket of each of the node's links.
    sockets: Table<LinkId>,
    /// Who is served in this turn, in order.
    ready: Vec<LinkId>,
    /// Who is written to next, in order.
    noted: Vec<LinkId>,
    /// Those whose end the node has closed and for which nothing waits, each once. There is room for all.
    done: Vec<LinkId>,
    /// In this place who rests next is looked for.
    resting: usize,
    /// How often it was said that nobody is written to next any more, as a count that begins anew.
    rounds: u8,
    /// How many connections there are.
    count: usize,
}

impl Model for Connections {
    ghost use Rattle.std.specs.FinMap as map;
    ghost use Rattle.mr_links.specs.LinkId.{id_cmp, coded_id};
    ghost use Rattle.std.specs.Prelude.{vec_capacity};
    ghost use Rattle.mr_connections.specs.State.{ConnectionState, IsIndexed, IsListed, connection_code};

    ghost Value = { map.FinMap id_cmp ConnectionState };

    ghost coded = { map.code coded_id connection_code };

    ghost view = { λ c. c.rows };

    ghost invariant = { λ c. IsIndexed c.rows c.sockets c.count × IsListed c.rows c.done.items (vec_capacity c.done) };
}

impl Connections {
    /// No connections.
    pub fn new(alloc: Global) -> Connections
        ensures { result ≡ map.empty }
    {
        Connections {
            alloc,
            rows: Table::new(alloc),
            sockets: Table::new(alloc),
            ready: Vec::new(alloc),
            noted: Vec::new(alloc),
            done: Vec::new(alloc),
            resting: 0,
            rounds: 0,
            count: 0,
        }
    }

    /// How many there are.
    pub fn len(&self) -> usize
        ensures { result ≡ map.len self.now }
    {
        self.count
    }

    /// Whether there is none.
    pub fn is_empty(&self) -> bool
        ensures { IsTrue result ↔ (map.len self.now ≡ 0) }
    {
        self.count == 0
    }

    /// The connection under the name of a socket, if there is one.
    pub fn get(&self, socket: LinkId) -> Option<&Connection>
        ensures { option_copied result ≡ map.get self.now socket }
    {
        self.rows.get(socket)
    }

    /// The socket of the connection that has one of the node's links. No two have the same.
    pub fn socket_of(&self, link: LinkId) -> Option<LinkId>
        ensures some { IfSome result (λ socket. HasLink self.now socket link) }
        ensures none { IfNone result (NoneHas self.now link) }
        ensures apart { AreToldApart self.now }
    {
        let socket = *self.sockets.get(link)?;
        if one::has_link(&self.rows, socket, link) {
            Some(socket)
        } else {
            None
        }
    }

    /// A connection begins, under the name of its socket and with the node's link. It is refused where either is taken, or the
    /// place of either, or memory is lacking.
    pub fn join(&mut self, socket: LinkId, link: LinkId) -> Result<(), AllocError>
        ensures absent { OnOk result (map.get self.old socket ≡ None) }
        ensures alone { OnOk result (NoneHas self.old link) }
        ensures joined { OnOk result (self.new ≡ map.insert self.old socket (begun link)) }
        ensures err { OnErr result (self.new ≡ self.old) }
    {
        let Some(count) = self.count.checked_add(1) else {
            return Err(AllocError);
        };
        self.ready.reserve(count)?;
        self.noted.reserve(count)?;
        self.done.reserve(count)?;
        self.sockets.put(link, socket)?;
        let connection = Connection::new(self.alloc, link);
        if self.rows.put(socket, connection).is_err() {
            self.sockets.remove(link);
            return Err(AllocError);
        }
        self.count = count;
        Ok(())
    }

    /// The node's end of a link is closed: on the connection that has it what waits is still written, which comes next, and nothing is
    /// read. Where nobody has it nothing happens.
    pub fn part(&mut self, link: LinkId)
        ensures { self.new ≡ parted link self.old }
    {
        let Some(socket) = self.socket_of(link) else {
            return;
        };
        self.leave(socket);
        self.note(socket);
    }

    /// The node's end of a connection is closed, which wasn't before.
    fn leave(&mut self, socket: LinkId)
        requires { is_done_at (map.get self.old socket) ≡ false }
        ensures { self.new ≡ changed socket left self.old }
    {
        one::forget_link(&self.rows, &mut self.sockets, socket);
        one::leave(&mut self.rows, socket);
        list_done(&self.rows, &mut self.done, socket);
    }

    /// A connection whose end the node has closed and for which nothing waits, if there is one.
    pub fn next_done(&self) -> Option<LinkId>
        ensures some { IfSome result (λ socket.
            map.get self.now socket ≡ Some (record { link = None; waiting = [] })) }
        ensures none { IfNone result (NoneDone self.now) }
    {
        self.done.last().copied()
    }

    /// Takes a connection out.
    pub fn remove(&mut self, socket: LinkId)
        ensures { self.new ≡ map.remove self.old socket }
    {
        if self.get(socket).is_none() {
            return;
        }
        one::forget_link(&self.rows, &mut self.sockets, socket);
        unlist(&mut self.done, socket);
        self.rows.remove(socket);
        self.count = self.count.saturating_sub(1);
    }

    /// Puts bytes behind what waits for whoever has a link, who is written to next. Where nobody has it nothing happens.
    pub fn send(&mut self, link: LinkId, bytes: &[u8]) -> Result<(), AllocError>
        ensures ok { OnOk result (self.new ≡ sent link bytes.now self.old) }
        ensures err { OnErr result (self.new ≡ self.old) }
    {
        if bytes.is_empty() {
            return Ok(());
        }
        let Some(socket) = self.socket_of(link) else {
            return Ok(());
        };
        self.push(socket, bytes)?;
        self.note(socket);
        Ok(())
    }

    /// Puts bytes behind what waits for a connection that isn't done.
    fn push(&mut self, socket: LinkId, bytes: &[u8]) -> Result<(), AllocError>
        requires { is_done_at (map.get self.old socket) ≡ false }
        ensures ok { OnOk result (self.new ≡ changed socket (pushed bytes.now) self.old) }
        ensures err { OnErr result (self.new ≡ self.old) }
    {
        one::push(&mut self.rows, socket, bytes)
    }

    /// As `send`, of bytes that aren't copied where nothing waits: they change places with the room of what waits, and what stands
    /// in `bytes` then says nothing.
    pub fn send_whole(&mut self, link: LinkId, bytes: &mut Vec<u8>) -> Result<(), AllocError>
        ensures ok { OnOk result (self.new ≡ sent link bytes.old.items self.old) }
        ensures err { OnErr result (self.new ≡ self.old) }
    {
        if bytes.as_slice().is_empty() {
            return Ok(());
        }
        let Some(socket) = self.socket_of(link) else {
            return Ok(());
        };
        self.push_whole(socket, bytes)?;
        self.note(socket);
        Ok(())
    }

    /// Puts bytes behind what waits for a connection that isn't done, as `send_whole` does.
    fn push_whole(&mut self, socket: LinkId, bytes: &mut Vec<u8>) -> Result<(), AllocError>
        requires { is_done_at (map.get self.old socket) ≡ false }
        ensures ok { OnOk result (self.new ≡ changed socket (pushed bytes.old.items) self.old) }
        ensures err { OnErr result (self.new ≡ self.old) }
    {
        one::push_whole(&mut self.rows, socket, bytes)
    }

    /// As `send`, of a text that is shared with others and isn't copied, unless another such waits already.
    pub fn send_shared(&mut self, link: LinkId, text: Rc<Vec<u8>>) -> Result<(), AllocError>
        ensures ok { OnOk result (self.new ≡ sent link text.value.items self.old) }
        ensures err { OnErr result (self.new ≡ self.old) }
    {
        if text.as_slice().is_empty() {
            return Ok(());
        }
        let Some(socket) = self.socket_of(link) else {
            return Ok(());
        };
        self.push_shared(socket, text)?;
        self.note(socket);
        Ok(())
    }

    /// Puts a text behind what waits for a connection that isn't done, as `send_shared` does.
    fn push_shared(&mut self, socket: LinkId, text: Rc<Vec<u8>>) -> Result<(), AllocError>
        requires { is_done_at (map.get self.old socket) ≡ false }
        ensures ok { OnOk result (self.new ≡ changed socket (pushed text.value.items) self.old) }
        ensures err { OnErr result (self.new ≡ self.old) }
    {
        one::push_shared(&mut self.rows, socket, text)
    }

    /// A write moved so many of the bytes that wait for a connection.
    pub fn wrote(&mut self, socket: LinkId, count: usize)
        requires { IfSome (map.get self.old socket) (λ c. count ≤ length c.waiting) }
        ensures { self.new ≡ changed socket (wrote count) self.old }
    {
        if one::is_done(&self.rows, socket) {
            return;
        }
        one::advance(&mut self.rows, socket, count);
        list_done(&self.rows, &mut self.done, socket);
    }

    /// The replies of a connection were large: less of it is read at once.
    pub fn narrow(&mut self, socket: LinkId)
        ensures { self.new ≡ self.old }
    {
        one::narrow(&mut self.rows, socket);
    }

    /// So many bytes of a connection were read at once.
    pub fn widen(&mut self, socket: LinkId, count: usize)
        ensures { self.new ≡ self.old }
    {
        one::widen(&mut self.rows, socket, count);
    }

    /// A turn begins, in which nobody is served yet.
    pub fn serve_nobody(&mut self)
        ensures { self.new ≡ self.old }
    {
        self.ready.clear();
    }

    /// Serves a connection behind the others, if it is there. Its room was taken as it joined.
    pub fn serve(&mut self, socket: LinkId)
        ensures { self.new ≡ self.old }
    {
        if self.get(socket).is_some() {
            let _room = self.ready.push(socket);
        }
    }

    /// How many connections are served in this turn, one after another.
    pub fn ready_count(&self) -> usize {
        self.ready.len()
    }

    /// Who is served there. It may be gone.
    pub fn ready_at(&self, index: usize) -> Option<LinkId> {
        self.ready.get(index).copied()
    }

    /// A connection is written to next, behind the others, where something waits for it. Its room was taken as it joined.
    pub fn note(&mut self, socket: LinkId)
        ensures { self.new ≡ self.old }
    {
        if one::note(&mut self.rows, socket) {
            let _room = self.noted.push(socket);
        }
    }

    /// How many connections are written to next, one after another.
    pub fn noted_count(&self) -> usize {
        self.noted.len()
    }

    /// Who is written to there. It may be gone.
    pub fn noted_at(&self, index: usize) -> Option<LinkId> {
        self.noted.get(index).copied()
    }

    /// Nobody is written to next any more. One connection after another rests: each eighth time another.
    pub fn forget_noted(&mut self)
        ensures { self.new ≡ self.old }
    {
        forget_each(&mut self.rows, &self.noted);
        self.noted.clear();
        self.rounds = self.rounds.wrapping_add(1);
        if self.rounds % ROUNDS_APART == 0 {
            self.rest_next();
        }
    }

    /// The connection in the next place rests, if there is one.
    fn rest_next(&mut self)
        ensures { self.new ≡ self.old }
    {
        if let Some(socket) = self.rows.name_at(self.resting) {
            one::rest(&mut self.rows, socket);
        }
        self.resting = self.rows.place_behind(self.resting);
    }
}

/// Lists a connection that is done.
fn list_done(rows: &Table<Connection>, done: &mut Vec<LinkId>, socket: LinkId)
    requires { is_done_at (map.get rows.now socket) ≡ true →
        length done.old.items < vec_capacity done.old }
    ensures items { done.new.items ≡
        listing (is_done_at (map.get rows.now socket)) socket done.old.items }
    ensures room { vec_capacity done.old ≤ vec_capacity done.new }
{
    if one::is_done(rows, socket) {
        let _room = done.push(socket);
    }
}

/// Takes a connection out of those that are done.
fn unlist(done: &mut Vec<LinkId>, socket: LinkId)
    requires { AreOnce done.old.items }
    ensures others { (k : LinkId) →
        is_among k done.new.items ≡
        cond (eq_by_cmp id_cmp k socket) false (is_among k done.old.items) }
    ensures once { AreOnce done.new.items }
    ensures room { vec_capacity done.new ≡ vec_capacity done.old }
{
    if is_last(done, socket) {
        let _last = done.pop();
    } else {
        drop_socket(done, socket);
    }
}

/// Drops a socket, wherever it stands.
fn drop_socket(sockets: &mut Vec<LinkId>, socket: LinkId)
    ensures items { sockets.new.items ≡
        filter (λ s. not (eq_by_cmp id_cmp s socket)) sockets.old.items }
    ensures room { vec_capacity sockets.new ≡ vec_capacity sockets.old }
{
    sockets.retain(|name| is_other(*name, socket));
}

/// Whether two sockets differ.
fn is_other(name: LinkId, socket: LinkId) -> bool
    ensures { result ≡ not (eq_by_cmp id_cmp name socket) }
{
    name != socket
}

/// Whether this is the last of some sockets.
fn is_last(sockets: &[LinkId], socket: LinkId) -> bool
    ensures { result ≡ true →
        (0 < length sockets.now) ×
        (slice_index_or sockets.now (length sockets.now - 1) socket ≡ socket) }
{
    match sockets.last() {
        Some(last) => *last == socket,
        None => false,
    }
}

/// These connections aren't among those any more that are written to next.
fn forget_each(rows: &mut Table<Connection>, noted: &[LinkId])
    ensures { rows.new ≡ rows.old }
{
    for socket in noted {
        one::forget_noted(rows, *socket);
    }
}
