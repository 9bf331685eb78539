// What a line is answered.
ghost use Rattle.std.specs.Prelude.{◌≡◌, slice_get};
ghost use Rattle.mr_world_player.specs.Telling.{cause_number, Happens, got_at, link_answer, shown_at, taken_answer};

use mr_world::{Event, Refusal, Side, World};
use mr_world_script::ScriptAnswer;

/// The number of the cause for which an event is refused.
fn number_of(refusal: Refusal) -> u8
    ensures { result ≡ cause_number refusal }
{
    match refusal {
        Refusal::Drawn => 1,
        Refusal::Nobody => 2,
        Refusal::TooMuch => 3,
        Refusal::Memory => 4,
        Refusal::InputFull => 5,
    }
}

/// What an event is answered by which a link comes, or nothing happens.
fn joined(links: usize, links_now: usize) -> ScriptAnswer<'static>
    ensures { result ≡ link_answer links links_now }
{
    if links < links_now {
        ScriptAnswer::Link(links)
    } else {
        ScriptAnswer::Done
    }
}

/// What an event is answered that was taken, where there were so many nodes and links before, and so many links since.
fn taken(event: &Event, nodes: usize, links: usize, links_now: usize) -> ScriptAnswer<'static>
    ensures { result ≡ taken_answer event.now nodes links links_now }
{
    match event {
        Event::Start { id: _, config: _ } => ScriptAnswer::Node(nodes),
        Event::Client { node: _ } | Event::Dial { node: _, to: _ } | Event::Connect { node: _ } => {
            joined(links, links_now)
        }
        _ => ScriptAnswer::Done,
    }
}

/// An event happens: what it is answered.
pub(crate) fn happen(world: &mut World, event: Event) -> ScriptAnswer<'static>
    ensures { Happens world.old event world.new result }
{
    let nodes = world.nodes();
    let links = world.links();
    let events = [event];
    match world.run(events.as_slice()) {
        Ok(()) => taken(&events[0], nodes, links, world.links()),
        Err((_number, refusal)) => ScriptAnswer::Refused(number_of(refusal)),
    }
}

/// What a node shows.
pub(crate) fn shown(world: &World, node: usize) -> ScriptAnswer<'static>
    ensures { result ≡ shown_at node (slice_get world.now.slots node) }
{
    let Some(found) = world.node(node) else {
        return ScriptAnswer::Refused(2);
    };
    match found.shows() {
        Some((id, offset)) => ScriptAnswer::Shows { node, id, offset },
        None => ScriptAnswer::Stopped { node },
    }
}

/// What the client of a link took.
pub(crate) fn got(world: &World, link: usize) -> ScriptAnswer<'_>
    ensures { got_at (slice_get world.now.links link) result }
{
    if world.is_between_nodes(link) {
        return ScriptAnswer::Refused(2);
    }
    match world.took(link, Side::Opener) {
        Some(bytes) => ScriptAnswer::Bytes(bytes),
        None => ScriptAnswer::Refused(2),
    }
}
