//! Peers for whom there is no room.
ghost use Rattle.mr_wire.specs.Room.{ComesIn};

use mio::net::{TcpListener, TcpStream};
use std::io;
use std::io::Write;

/// What a peer is told for whom there is no room.
const NO_ROOM: &[u8] = b"-ERR max number of clients reached\r\n";

/// So many peers are turned away at once.
const MOST_AT_ONCE: u32 = 64;

/// The socket of the next peer that opened a link. Where all room is taken each is told so and closed, and the answer is none behind
/// the last that waits, or so many.
pub(crate) fn let_in(listener: &TcpListener, is_full: bool) -> io::Result<Option<TcpStream>>
    ensures { ComesIn is_full result }
{
    for _ in 0..MOST_AT_ONCE {
        let (stream, _address) = listener.accept()?;
        if !is_full {
            return Ok(Some(stream));
        }
        turn_away(stream);
    }
    Ok(None)
}

/// Tells a peer that there is no room for it, and closes its link. What a new socket can't take at once is left out.
fn turn_away(mut stream: TcpStream) {
    let _told = stream.write(NO_ROOM);
}
