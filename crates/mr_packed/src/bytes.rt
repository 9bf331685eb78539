// Bytes that are put between others, and taken from between them.
ghost use Rattle.std.specs.Prelude.{◌≡◌, ◌+◌, ◌-◌, ◌++◌, ◌<◌, ◌≤◌, drop, get_or, IsOk, length, OnErr, OnOk, slice_range, take, vec_capacity, vec_len};
ghost use Rattle.mr_packed.specs.Packing.{IsPacking, spelled, start_of, strings_of};

use std::alloc::AllocError;

/// The string whose length stands at a place.
pub(crate) fn read(bytes: &[u8], start: usize) -> &[u8]
    requires start { start < length bytes.now }
    requires end { start + 1 + get_or bytes.now start 0 ≤ length bytes.now }
    ensures text { result.now ≡ take (get_or bytes.now start 0) (drop (start + 1) bytes.now) }
    ensures len { length result.now ≡ get_or bytes.now start 0 }
    ensures short { length result.now < 256 }
{
    let len = bytes[start] as usize;
    let text = &bytes[start + 1..];
    &text[..len]
}

/// Where the string at a place begins, by a walk from where one begins that isn't behind it.
pub(crate) fn walk(bytes: &[u8], from: usize, start: usize, to: usize) -> usize
    requires packing { IsPacking bytes.now }
    requires start { start ≡ start_of (strings_of bytes.now) from }
    requires ordered { from ≤ to }
    requires within { to ≤ length (strings_of bytes.now) }
    ensures { result ≡ start_of (strings_of bytes.now) to }
{
    let mut here = start;
    for _ in from..to {
        here += bytes[here] as usize + 1;
    }
    here
}

/// How many strings the bytes are.
pub(crate) fn count(bytes: &[u8]) -> usize
    requires { IsPacking bytes.now }
    ensures { result ≡ length (strings_of bytes.now) }
{
    let mut here = 0;
    for at in 0..bytes.len() {
        if here == bytes.len() {
            return at;
        }
        here += bytes[here] as usize + 1;
    }
    bytes.len()
}

/// The bytes from a place on.
pub(crate) fn after(bytes: &[u8], start: usize) -> &[u8]
    requires within { start ≤ length bytes.now }
    ensures { result.now ≡ drop start bytes.now }
{
    &bytes[start..]
}

/// The bytes in front of a place.
pub(crate) fn before(bytes: &[u8], end: usize) -> &[u8]
    requires within { end ≤ length bytes.now }
    ensures { result.now ≡ take end bytes.now }
{
    &bytes[..end]
}

/// The bytes from one place to another, the second left out.
pub(crate) fn between(bytes: &[u8], start: usize, end: usize) -> &[u8]
    requires ordered { start ≤ end }
    requires within { end ≤ length bytes.now }
    ensures { result.now ≡ slice_range bytes.now start end }
{
    &bytes[start..end]
}

/// Puts bytes behind others, with no room for more. Where memory is lacking nothing has changed.
pub(crate) fn extend(bytes: &mut Vec<u8>, more: &[u8]) -> Result<(), AllocError>
    ensures ok { OnOk result (bytes.new.items ≡ bytes.old.items ++ more.now) }
    ensures err { OnErr result (bytes.new.items ≡ bytes.old.items) }
{
    bytes.reserve_exact(more.len())?;
    bytes.extend_from_slice(more)
}

/// Puts a string, its length before it, at the end. Where memory is lacking nothing has changed, and none is needed where there
/// is room.
pub(crate) fn append(bytes: &mut Vec<u8>, string: &[u8]) -> Result<(), AllocError>
    requires short { length string.now < 256 }
    ensures ok { OnOk result (bytes.new.items ≡ bytes.old.items ++ spelled string.now) }
    ensures err { OnErr result (bytes.new.items ≡ bytes.old.items) }
    ensures fits { vec_len bytes.old + (length string.now + 1) ≤ vec_capacity bytes.old →
        IsOk result }
    ensures room { vec_capacity bytes.old ≤ vec_capacity bytes.new }
{
    bytes.reserve_exact(string.len() + 1)?;
    bytes.push(string.len() as u8)?;
    bytes.extend_from_slice(string)
}

/// Puts two strings at the end, each with its length before it. Where memory is lacking nothing has changed.
pub(crate) fn append_two(bytes: &mut Vec<u8>, first: &[u8], second: &[u8]) -> Result<(), AllocError>
    requires first { length first.now < 256 }
    requires second { length second.now < 256 }
    ensures ok { OnOk result (bytes.new.items ≡
        bytes.old.items ++ (spelled first.now ++ spelled second.now)) }
    ensures err { OnErr result (bytes.new.items ≡ bytes.old.items) }
{
    bytes.reserve_exact(first.len() + second.len() + 2)?;
    append(bytes, first)?;
    append(bytes, second)
}

/// Puts a string, its length before it, between the bytes in front of a place and the others. Where memory is lacking nothing
/// has changed, and none is needed where there is room.
pub(crate) fn insert(bytes: &mut Vec<u8>, place: usize, string: &[u8]) -> Result<(), AllocError>
    requires short { length string.now < 256 }
    requires within { place ≤ length bytes.old.items }
    ensures ok { OnOk result (bytes.new.items ≡
        take place bytes.old.items ++ (spelled string.now ++ drop place bytes.old.items)) }
    ensures err { OnErr result (bytes.new.items ≡ bytes.old.items) }
    ensures fits { vec_len bytes.old + (length string.now + 1) ≤ vec_capacity bytes.old →
        IsOk result }
{
    append(bytes, string)?;
    let tail = &mut bytes[place..];
    tail.rotate_right(string.len() + 1);
    Ok(())
}

/// Puts two strings, each with its length before it, between the bytes in front of a place and the others. Where memory is
/// lacking nothing has changed.
pub(crate) fn insert_two(
    bytes: &mut Vec<u8>,
    place: usize,
    first: &[u8],
    second: &[u8],
) -> Result<(), AllocError>
    requires first { length first.now < 256 }
    requires second { length second.now < 256 }
    requires within { place ≤ length bytes.old.items }
    ensures ok { OnOk result (bytes.new.items ≡ take place bytes.old.items ++
        ((spelled first.now ++ spelled second.now) ++ drop place bytes.old.items)) }
    ensures err { OnErr result (bytes.new.items ≡ bytes.old.items) }
{
    append_two(bytes, first, second)?;
    let tail = &mut bytes[place..];
    tail.rotate_right(first.len() + second.len() + 2);
    Ok(())
}

/// Gives room back where less than half of it is used.
pub(crate) fn give_room_back(bytes: &mut Vec<u8>)
    ensures { bytes.new.items ≡ bytes.old.items }
{
    if bytes.len() < bytes.capacity() / 2 {
        bytes.shrink_to_fit();
    }
}

/// Writes a text over as many bytes from a place on.
fn overwrite(bytes: &mut Vec<u8>, place: usize, text: &[u8])
    requires within { place + length text.now ≤ length bytes.old.items }
    ensures { bytes.new.items ≡ take place bytes.old.items ++
        (text.now ++ drop (place + length text.now) bytes.old.items) }
{
    bytes[place..place + text.len()].copy_from_slice(text);
}

/// Puts a string, its length before it, in the place of as many bytes.
fn put_over(bytes: &mut Vec<u8>, place: usize, string: &[u8])
    requires short { length string.now < 256 }
    requires within { place + (length string.now + 1) ≤ length bytes.old.items }
    ensures { bytes.new.items ≡ take place bytes.old.items ++
        (spelled string.now ++ drop (place + (length string.now + 1)) bytes.old.items) }
{
    bytes[place] = string.len() as u8;
    overwrite(bytes, place + 1, string);
}

/// Puts a string, its length before it, in the place of the bytes from one place to another. Where memory is lacking nothing has
/// changed, and none is needed where the string isn't longer.
pub(crate) fn replace(
    bytes: &mut Vec<u8>,
    start: usize,
    end: usize,
    string: &[u8],
) -> Result<(), AllocError>
    requires short { length string.now < 256 }
    requires ordered { start ≤ end }
    requires within { end ≤ length bytes.old.items }
    ensures ok { OnOk result (bytes.new.items ≡
        take start bytes.old.items ++ (spelled string.now ++ drop end bytes.old.items)) }
    ensures err { OnErr result (bytes.new.items ≡ bytes.old.items) }
    ensures fits { length string.now + 1 ≤ end - start → IsOk result }
{
    let size = string.len() + 1;
    let gap = end - start;
    if size == gap {
        put_over(bytes, start, string);
        return Ok(());
    }
    bytes.reserve_exact(size.saturating_sub(gap))?;
    bytes.drain(start..end);
    insert(bytes, start, string)
}
