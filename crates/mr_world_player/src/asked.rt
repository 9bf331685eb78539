// What a line asks of a World.
ghost use Rattle.std.specs.Prelude.{◌≡◌, IfOk, take, slice_get};
ghost use Rattle.mr_world_script.specs.Reading.{said_of};
ghost use Rattle.mr_world_script.specs.Said.{restarts};
ghost use Rattle.mr_world_player.specs.Asking.{file_at, IsAsked, IsBacklog, IsConfig, IsEvent};

use mr_node::Config;
use mr_repl::ReplId;
use mr_world::{Event, World};
use mr_world_script::Line;
use std::alloc::{AllocError, Global};

/// What a line asks of a World.
#[derive(Drop)]
pub(crate) enum Asked {
    /// Nothing.
    Nothing,
    /// That an event happens.
    Event(Event),
    /// What a node shows.
    Show(usize),
    /// What the client of a link took.
    Got(usize),
}

/// What a node of a script starts with: it has no port.
fn config_of(is_replica: bool, backlog: usize) -> Config
    requires { IsBacklog backlog }
    ensures role { result.replica ≡ is_replica }
    ensures rest { IsConfig backlog result }
{
    let Some(config) = Config::new(is_replica, 0, backlog) else {
        unreachable!()
    };
    config
}

/// So many bytes of a node's file, or all where it has fewer; none where there is no such node.
fn kept_of(alloc: Global, world: &World, node: usize, count: usize) -> Result<Vec<u8>, AllocError>
    ensures { IfOk result (λ kept.
        kept.items ≡ take count (file_at (slice_get world.now.slots node))) }
{
    match world.file(node) {
        Some(file) => Vec::from_slice(alloc, &file[..count.min(file.len())]),
        None => Ok(Vec::new(alloc)),
    }
}

/// A node begins anew, with so many bytes of its file.
fn restart_of(
    alloc: Global,
    world: &World,
    backlog: usize,
    node: usize,
    count: usize,
    id: ReplId,
) -> Result<Event, AllocError>
    requires { IsBacklog backlog }
    ensures { IfOk result (IsEvent backlog world.now (restarts node count id)) }
{
    let kept = kept_of(alloc, world, node, count)?;
    let config = config_of(false, backlog);
    Ok(Event::Restart {
        node,
        kept,
        id,
        config,
    })
}

/// What a line asks of a World whose nodes start with this backlog.
pub(crate) fn asked_by(
    alloc: Global,
    world: &World,
    backlog: usize,
    line: Line,
) -> Result<Asked, AllocError>
    requires { IsBacklog backlog }
    ensures { IfOk result (IsAsked backlog world.now (said_of line)) }
{
    let event = match line {
        Line::Blank => return Ok(Asked::Nothing),
        Line::Show { node } => return Ok(Asked::Show(node)),
        Line::Got { link } => return Ok(Asked::Got(link)),
        Line::Dial { node, to } => Event::Dial { node, to },
        Line::Connect { node } => Event::Connect { node },
        Line::Accept { link, node } => Event::Accept { link, node },
        Line::Start { id, is_replica } => {
            let config = config_of(is_replica, backlog);
            Event::Start { id, config }
        }
        Line::Client { node } => Event::Client { node },
        Line::Command { link, bytes } => Event::Command { link, bytes },
        Line::Deliver { link, side, count } => Event::Deliver { link, side, count },
        Line::Step {
            link,
            side,
            given,
            fresh,
        } => Event::Step {
            link,
            side,
            given,
            fresh,
        },
        Line::Tick { node, given } => Event::Tick { node, given },
        Line::Break { link, side } => Event::Break { link, side },
        Line::Restart { node, count, id } => restart_of(alloc, world, backlog, node, count, id)?,
    };
    Ok(Asked::Event(event))
}
