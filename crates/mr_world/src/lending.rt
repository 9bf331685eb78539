// What a World shows.
ghost use Rattle.std.specs.Prelude.{◌≡◌, length, slice_get};
ghost use Rattle.std.specs.Option.{option_copied, option_map};
ghost use Rattle.mr_world_parts.specs.Lending.{file_in, node_in, took_at};

use crate::world::World;
use mr_links::Side;
use mr_node::Node;

impl World {
    /// How many nodes there are. They are numbered from 0, in the order in which they started.
    pub fn nodes(&self) -> usize
        ensures { result ≡ length self.now.slots }
    {
        self.parts.slots.len()
    }

    /// How many links there are. They are numbered from 0, in the order in which they came.
    pub fn links(&self) -> usize
        ensures { result ≡ length self.now.links }
    {
        self.parts.links.len()
    }

    /// A node, if there is one of this number.
    pub fn node(&self, n: usize) -> Option<&Node>
        ensures { option_copied result ≡ option_map node_in (slice_get self.now.slots n) }
    {
        match self.parts.slots.get(n) {
            Some(slot) => Some(slot.node()),
            None => None,
        }
    }

    /// The bytes of a node's file, if there is a node of this number.
    pub fn file(&self, n: usize) -> Option<&[u8]>
        ensures { option_map (λ bytes. bytes.now) result ≡
            option_map file_in (slice_get self.now.slots n) }
    {
        match self.parts.slots.get(n) {
            Some(slot) => Some(slot.file()),
            None => None,
        }
    }

    /// All bytes that this end of a link took, if there is a link of this number. An end that is closed took what it took.
    pub fn took(&self, link: usize, side: Side) -> Option<&[u8]>
        ensures { option_map (λ bytes. bytes.now) result ≡
            option_map (took_at side) (slice_get self.now.links link) }
    {
        match self.parts.links.get(link) {
            Some(link) => Some(link.took(side)),
            None => None,
        }
    }
}
