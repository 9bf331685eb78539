// How much room a queue of items has.
ghost use Rattle.std.specs.Prelude.{◌≡◌};

use crate::compact_bytes::CompactBytes;
use std::alloc::AllocError;
use std::collections::VecDeque;

// A longer queue that is full doubles.
const DOUBLES: usize = 1024;

// A queue with room for no more items keeps it.
const KEPT: usize = 64;

/// Makes room for a further item where there is none: for a quarter more while items are not many. So few slots lie idle in
/// a short queue, which by itself begins with four, and doubles.
pub(crate) fn make_room(items: &mut VecDeque<CompactBytes>) -> Result<(), AllocError>
    ensures { items.new.items ≡ items.old.items }
{
    let len = items.len();
    if len < items.capacity() || DOUBLES < len {
        return Ok(());
    }
    items.reserve_exact(len / 4 + 1)
}

/// Gives room back where the items take less than a quarter of it, and keeps as much again as they take. More items have gone
/// since the room was last changed than are moved for it.
pub(crate) fn give_room_back(items: &mut VecDeque<CompactBytes>)
    ensures { items.new.items ≡ items.old.items }
{
    let room = items.capacity();
    if room <= KEPT {
        return;
    }
    let len = items.len();
    if len < room / 4 {
        items.shrink_to(len * 2);
    }
}
