// Room for bytes that come piece by piece.
ghost use Rattle.std.specs.Prelude.{◌≡◌};

use std::alloc::AllocError;

/// Where there are more bytes, room is taken for a quarter of them more, and not for as many again.
const MUCH_ROOM: usize = 16_777_216;

/// Takes room for so many bytes more, where many are there: less than twice theirs.
pub fn reserve(bytes: &mut Vec<u8>, count: usize) -> Result<(), AllocError>
    ensures { bytes.new.items ≡ bytes.old.items }
{
    let len = bytes.len();
    if len > MUCH_ROOM && bytes.capacity().saturating_sub(len) < count {
        bytes.reserve_exact(count.max(len / 4))?;
    }
    Ok(())
}
