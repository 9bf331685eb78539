// The group at the front of the stream.
ghost use Rattle.std.specs.Prelude.{◌≡◌};
ghost use Rattle.mr_groups.specs.Groups.{IsGroup};
ghost use Rattle.mr_follower.specs.Stream.{AppliesEffects, AppliesFront, HasFrame, WaitsWithin, told_as};

use crate::FollowFault;
use crate::inbox::Inbox;
use crate::single::{Single, lack_of};
use mr_data::{Dataset, Effect};
use mr_groups::{GroupFault, Next, apply_group_owned};
use std::alloc::Global;

/// Why a group wasn't applied, as a follower tells it.
fn fault_of(fault: GroupFault) -> FollowFault
    ensures { result ≡ told_as fault }
{
    match fault {
        GroupFault::Refused => FollowFault::Undecodable,
        GroupFault::Memory => FollowFault::Spent,
        GroupFault::Torn => FollowFault::Torn,
    }
}

/// Applies the group of these effects, and puts its text out. Answers how many bytes it has.
fn apply_effects(
    text: &[u8],
    effects: Vec<Effect<'static>>,
    held: &mut Dataset,
    out: &mut Vec<u8>,
) -> Result<Option<usize>, FollowFault>
    requires { IsGroup effects.items }
    ensures { AppliesEffects text.now effects.entry.items held.old result held.new out.old.items
        out.new.items }
{
    let before = out.len();
    if out.extend_from_slice(text).is_err() {
        return Err(lack_of(held, &effects[0]));
    }
    match apply_group_owned(held, effects) {
        Ok(()) => Ok(Some(text.len())),
        Err(fault) => {
            out.truncate(before);
            Err(fault_of(fault))
        }
    }
}

/// Applies the group in the frame that begins the stream, as `apply_front` does.
fn apply_framed(
    alloc: Global,
    inbox: &mut Inbox,
    room: u64,
    held: &mut Dataset,
    out: &mut Vec<u8>,
) -> Result<Option<usize>, FollowFault>
    requires { HasFrame inbox.old room }
    ensures applied { AppliesFront inbox.old room held.old result held.new out.old.items
        out.new.items }
    ensures kept { inbox.new ≡ inbox.old }
{
    match inbox.next_group(alloc, room) {
        Err(_) => Err(FollowFault::Memory),
        Ok(Next::More) => waits(inbox.unread(), room),
        Ok(Next::Bad) => Err(FollowFault::Undecodable),
        Ok(Next::Whole { effects, used }) => {
            apply_effects(&inbox.unread()[..used], effects, held, out)
        }
    }
}

/// A group's text is waited for that the first `room` bytes are a beginning of: there may be no more bytes than these.
fn waits(unread: &[u8], room: u64) -> Result<Option<usize>, FollowFault>
    ensures { WaitsWithin unread.now room result }
{
    if room < unread.len() as u64 {
        return Err(FollowFault::Undecodable);
    }
    Ok(None)
}

/// Applies the group at the front of the stream, if its text is whole and has at most `room` bytes, and puts its text
/// out. Answers how many bytes it has.
pub(crate) fn apply_front(
    alloc: Global,
    inbox: &mut Inbox,
    room: u64,
    held: &mut Dataset,
    out: &mut Vec<u8>,
) -> Result<Option<usize>, FollowFault>
    ensures applied { AppliesFront inbox.old room held.old result held.new out.old.items
        out.new.items }
    ensures kept { inbox.new ≡ inbox.old }
{
    match inbox.apply_single(alloc, room, held, out) {
        Single::Told(told) => told,
        Single::Open => waits(inbox.unread(), room),
        Single::Framed => apply_framed(alloc, inbox, room, held, out),
    }
}
