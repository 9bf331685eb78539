// A World, and the line of a script that is being read.
ghost use Rattle.std.specs.Prelude.{◌≡◌, []};
ghost use Rattle.law_refinement.specs.Worlds.{no_world};
ghost use Rattle.mr_world_player.specs.Asking.{IsBacklog};

use mr_world::World;
use std::alloc::Global;
use std::hash::RandomState;

/// A World, the bytes of the line that is being read, and the answer to the last.
#[derive(Drop)]
pub(crate) struct Stage {
    pub(crate) alloc: Global,
    pub(crate) backlog: usize,
    pub(crate) world: World,
    pub(crate) line: Vec<u8>,
    pub(crate) answer: Vec<u8>,
    ghost limited: { IsBacklog backlog },
}

impl Stage {
    /// Nothing has begun, and nothing was read.
    pub(crate) fn new(alloc: Global, seed: RandomState, backlog: usize) -> Stage
        requires { IsBacklog backlog }
        ensures backlog { result.backlog ≡ backlog }
        ensures world { result.world ≡ no_world }
        ensures line { result.line.items ≡ [] }
    {
        Stage {
            alloc,
            backlog,
            world: World::new(alloc, seed),
            line: Vec::new(alloc),
            answer: Vec::new(alloc),
        }
    }
}
