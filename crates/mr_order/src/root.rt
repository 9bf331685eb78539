// What stands at the top of a list: one chunk, or blocks.
ghost use Rattle.std.specs.Prelude.{◌≡◌, ◌<◌, ◌≤◌, ◌^◌, IfOk, OnErr, OnOk, length};
ghost use Rattle.std.specs.List.{All, flat_map};
ghost use Rattle.mr_order.specs.Blocks.{block_items, root_items, HasRoom, IsBlock, IsChunk, IsKeptRoot, IsSingle};
ghost use Rattle.mr_order.specs.Changes.{IsTaken};
ghost use Rattle.mr_order.specs.Parts.{IsSound};
ghost use Rattle.mr_order.specs.Standing.{IsDivided};

use crate::descent::take_out;
use crate::level::Level;
use crate::part::Part;
use crate::parts::total;
use crate::query::Query;
use crate::shrink::put_in_room;
use std::alloc::AllocError;
use std::mem::replace;

/// Three levels of chunks, some million items: what is above them is gone through part by part.
pub(crate) type Block<T> = Level<Level<Level<Vec<T>>>>;

/// One chunk while it suffices, and blocks from then on. It has no count of its own: a root lies in each value of a dataset.
#[derive(Drop)]
pub(crate) enum Root<T: Ord + Drop> {
    Chunk(Vec<T>),
    Blocks(Vec<Block<T>>),
}

impl<T: Ord + Drop> Root<T> {
    /// How many items there are.
    pub(crate) fn len(&self) -> usize
        requires kept { IsKeptRoot self.now }
        requires small { length (root_items self.now) < 2 ^ 63 }
        ensures { result ≡ length (root_items self.now) }
    {
        match self {
            Root::Chunk(chunk) => Part::len(chunk),
            Root::Blocks(blocks) => total(blocks),
        }
    }

    /// Makes room for a further item. A chunk that is full becomes a block. Where memory runs out, the items stay.
    pub(crate) fn make_room(&mut self) -> Result<(), AllocError>
        requires { IsKeptRoot self.old }
        ensures kept { IsKeptRoot self.new }
        ensures same { root_items self.new ≡ root_items self.old }
        ensures room { OnOk result (HasRoom self.new) }
        ensures few { IsSingle self.old → length (root_items self.old) < 64 →
            IsSingle self.new }
    {
        let Root::Chunk(chunk) = self else {
            return Ok(());
        };
        if chunk.is_empty() {
            // Room for one: a push would take room for four.
            chunk.reserve_exact(1)?;
        }
        if Part::is_full(chunk) {
            let blocks = to_blocks(chunk)?;
            *self = Root::Blocks(blocks);
        }
        Ok(())
    }

    /// Takes the item to which a query is equal, if there is one.
    pub(crate) fn take<Q: Query<T>>(&mut self, query: Q) -> Option<T>
        requires kept { IsKeptRoot self.old }
        requires small { length (root_items self.old) < 2 ^ 63 }
        requires divided { IsDivided (Q.compare query) (root_items self.old) }
        ensures kept { IsKeptRoot self.new }
        ensures taken { IsTaken (Q.compare query) (root_items self.old) result
            (root_items self.new) }
    {
        match self {
            Root::Chunk(chunk) => Part::take(chunk, query),
            Root::Blocks(blocks) => take_out(blocks, query),
        }
    }
}

/// Moves a chunk into a block. All memory is taken before the chunk changes.
fn to_blocks<T: Ord + Drop>(chunk: &mut Vec<T>) -> Result<Vec<Block<T>>, AllocError>
    requires some { 0 < length chunk.old.items }
    requires kept { IsChunk chunk.old }
    ensures sound { IfOk result (λ blocks. All (IsSound block_items IsBlock) blocks.items) }
    ensures same { IfOk result (λ blocks. flat_map block_items blocks.items ≡ chunk.old.items) }
    ensures one { IfOk result (λ blocks. length blocks.items ≡ 1) }
    ensures err { OnErr result (chunk.new.items ≡ chunk.old.items) }
{
    let alloc = *chunk.allocator();
    let chunks = Vec::with_capacity(alloc, 1)?;
    let lower = Vec::with_capacity(alloc, 1)?;
    let upper = Vec::with_capacity(alloc, 1)?;
    let mut blocks = Vec::with_capacity(alloc, 1)?;
    let whole = replace(chunk, Vec::new(alloc));
    let block = Level::of(upper, Level::of(lower, Level::of(chunks, whole)));
    put_in_room(&mut blocks, 0, block);
    Ok(blocks)
}
