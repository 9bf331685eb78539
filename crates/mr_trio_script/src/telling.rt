// The lines that are answered.
ghost use Rattle.std.specs.Prelude.{◌≡◌, IfOk};
ghost use Rattle.mr_trio_script.specs.Telling.{end_line, reply_line, role_word};

use crate::ending::Ending;
use crate::place::Place;
use crate::showing::shown;
use itoa::Buffer;
use std::alloc::{AllocError, Global};

/// What a line that asks nobody is answered.
pub(crate) const BAD_LINE: &[u8] = b"bad line\n";

/// What is said of a line whose turns are over.
pub(crate) const LATE: &[u8] = b"late\n";

/// The bytes of a reply as a line.
pub(crate) fn reply_line(alloc: Global, reply: &[u8]) -> Result<Vec<u8>, AllocError>
    ensures { IfOk result (λ line. line.items ≡ reply_line reply.now) }
{
    let mut line = shown(alloc, reply)?;
    line.push(b'\n')?;
    Ok(line)
}

/// What a node is at the end: its number, its role, its id and its offset.
pub(crate) fn end_line(alloc: Global, place: Place, ending: Ending) -> Result<Vec<u8>, AllocError>
    ensures { IfOk result (λ line. line.items ≡ end_line place ending) }
{
    let mut digits = Buffer::new();
    let mut line = Vec::from_slice(alloc, &[place.digit(), b' '])?;
    line.extend_from_slice(role_word(ending.master))?;
    line.push(b' ')?;
    line.extend_from_slice(&ending.id.digits())?;
    line.push(b' ')?;
    line.extend_from_slice(digits.format(ending.offset).as_bytes())?;
    line.push(b'\n')?;
    Ok(line)
}

/// The word for a master's or a replica's role.
fn role_word(master: bool) -> &'static [u8]
    ensures { result.now ≡ role_word master }
{
    if master { b"master" } else { b"slave" }
}
