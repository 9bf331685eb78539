//! What is done with one connection of a table.
ghost use Rattle.std.specs.Prelude.{◌≡◌, ◌≤◌, ◌↔◌, length, IfSome, IsTrue, OnErr, OnOk};
ghost use Rattle.std.specs.FinMap as map;
ghost use Rattle.mr_connections.specs.State.{HasLink, changed, is_done_at, left, pushed, without, wrote};

use crate::connection::Connection;
use crate::table::Table;
use mr_links::LinkId;
use std::alloc::AllocError;
use std::rc::Rc;

/// Whether a connection is there under this name and has this link.
pub(crate) fn has_link(rows: &Table<Connection>, socket: LinkId, link: LinkId) -> bool
    ensures { IsTrue result ↔ HasLink rows.now socket link }
{
    match rows.get(socket) {
        Some(connection) => connection.is_of(link),
        None => false,
    }
}

/// Takes the link of a connection out of the sockets of links.
pub(crate) fn forget_link(rows: &Table<Connection>, sockets: &mut Table<LinkId>, socket: LinkId)
    ensures { sockets.new ≡ without (map.get rows.now socket) sockets.old }
{
    match rows.get(socket) {
        Some(connection) => match connection.link() {
            Some(link) => sockets.remove(link),
            None => {}
        },
        None => {}
    }
}

/// The node's end is closed.
pub(crate) fn leave(rows: &mut Table<Connection>, socket: LinkId)
    ensures { rows.new ≡ changed socket left rows.old }
{
    match rows.get_mut(socket) {
        Some(connection) => connection.leave(),
        None => {}
    }
}

/// Whether a connection is there that is done.
pub(crate) fn is_done(rows: &Table<Connection>, socket: LinkId) -> bool
    ensures { result ≡ is_done_at (map.get rows.now socket) }
{
    match rows.get(socket) {
        Some(connection) => connection.is_done(),
        None => false,
    }
}

/// A while has passed.
pub(crate) fn rest(rows: &mut Table<Connection>, socket: LinkId)
    ensures { rows.new ≡ rows.old }
{
    match rows.get_mut(socket) {
        Some(connection) => connection.rest(),
        None => {}
    }
}

/// Puts bytes behind what waits.
pub(crate) fn push(
    rows: &mut Table<Connection>,
    socket: LinkId,
    bytes: &[u8],
) -> Result<(), AllocError>
    ensures ok { OnOk result (rows.new ≡ changed socket (pushed bytes.now) rows.old) }
    ensures err { OnErr result (rows.new ≡ rows.old) }
{
    match rows.get_mut(socket) {
        Some(connection) => connection.push(bytes),
        None => Ok(()),
    }
}

/// The same of bytes that may change places with the room of what waits.
pub(crate) fn push_whole(
    rows: &mut Table<Connection>,
    socket: LinkId,
    bytes: &mut Vec<u8>,
) -> Result<(), AllocError>
    ensures ok { OnOk result (rows.new ≡ changed socket (pushed bytes.old.items) rows.old) }
    ensures err { OnErr result (rows.new ≡ rows.old) }
{
    match rows.get_mut(socket) {
        Some(connection) => connection.push_whole(bytes),
        None => Ok(()),
    }
}

/// The same of a text that is shared with others.
pub(crate) fn push_shared(
    rows: &mut Table<Connection>,
    socket: LinkId,
    text: Rc<Vec<u8>>,
) -> Result<(), AllocError>
    ensures ok { OnOk result (rows.new ≡ changed socket (pushed text.value.items) rows.old) }
    ensures err { OnErr result (rows.new ≡ rows.old) }
{
    match rows.get_mut(socket) {
        Some(connection) => connection.push_shared(text),
        None => Ok(()),
    }
}

/// A write moved so many of the bytes that wait.
pub(crate) fn advance(rows: &mut Table<Connection>, socket: LinkId, count: usize)
    requires { IfSome (map.get rows.old socket) (λ c. count ≤ length c.waiting) }
    ensures { rows.new ≡ changed socket (wrote count) rows.old }
{
    match rows.get_mut(socket) {
        Some(connection) => connection.advance(count),
        None => {}
    }
}

/// Its replies were large: less of it is read at once.
pub(crate) fn narrow(rows: &mut Table<Connection>, socket: LinkId)
    ensures { rows.new ≡ rows.old }
{
    match rows.get_mut(socket) {
        Some(connection) => connection.narrow(),
        None => {}
    }
}

/// So many bytes of it were read at once.
pub(crate) fn widen(rows: &mut Table<Connection>, socket: LinkId, count: usize)
    ensures { rows.new ≡ rows.old }
{
    match rows.get_mut(socket) {
        Some(connection) => connection.widen(count),
        None => {}
    }
}

/// Whether it is written to next, and wasn't before.
pub(crate) fn note(rows: &mut Table<Connection>, socket: LinkId) -> bool
    ensures { rows.new ≡ rows.old }
{
    match rows.get_mut(socket) {
        Some(connection) => connection.note(),
        None => false,
    }
}

/// It isn't among those any more that are written to next.
pub(crate) fn forget_noted(rows: &mut Table<Connection>, socket: LinkId)
    ensures { rows.new ≡ rows.old }
{
    match rows.get_mut(socket) {
        Some(connection) => connection.forget_noted(),
        None => {}
    }
}
