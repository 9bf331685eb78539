// A line, played.
ghost use Rattle.std.specs.Prelude.{◌≡◌, OnOk, OnErr};
ghost use Rattle.mr_world_player.specs.Asking.{IsBacklog};
ghost use Rattle.mr_world_player.specs.Playing.{Adds, Lacks};

use crate::asked::{Asked, asked_by};
use crate::telling::{got, happen, shown};
use mr_world::World;
use mr_world_script::{Line, ScriptAnswer};
use std::alloc::{AllocError, Global};

/// Plays a line of a script, with the line feed at its end, in a World whose nodes start with this backlog: what it asks happens, and its
/// answer is put behind the others. A line without words has none. `AllocError` where memory is lacking for the line, for its event, or for its
/// answer: nothing is put there then, and the event may have happened.
pub fn play(
    alloc: Global,
    world: &mut World,
    backlog: usize,
    text: &[u8],
    out: &mut Vec<u8>,
) -> Result<(), AllocError>
    requires { IsBacklog backlog }
    ensures ok { OnOk result
        (Adds backlog world.old text.now world.new out.old.items out.new.items) }
    ensures err { OnErr result
        (Lacks backlog world.old text.now world.new out.old.items out.new.items) }
{
    let Some(line) = Line::read(alloc, text)? else {
        return ScriptAnswer::Bad.write(out);
    };
    match asked_by(alloc, world, backlog, line)? {
        Asked::Nothing => Ok(()),
        Asked::Event(event) => happen(world, event).write(out),
        Asked::Show(node) => shown(world, node).write(out),
        Asked::Got(link) => got(world, link).write(out),
    }
}
