//! The law of following, over the definitions that the contracts cite. The calls do nothing.
ghost use Rattle.mr_follower.specs.Following.{FollowsTheStream, StreamIsTaken, SnapshotIsTaken, SnapshotIsHandedOver};
ghost use Rattle.mr_follower.specs.State.{FedIsUnread};
ghost use Rattle.mr_follower.specs.Stream.{MoreIsWantedInFrames};

/// What is fed comes behind the unread bytes.
pub fn fed_bytes_are_unread()
    ensures { FedIsUnread }
{}

/// Fed a beginning of the texts of groups that can be applied one after another, in any pieces and with any steps between, a
/// follower in its stream has applied the first of them, each as a whole, holds what they make of its dataset at the offset
/// behind their texts, and keeps the rest of what it was fed.
pub fn follows_the_stream()
    ensures { FollowsTheStream }
{}

/// Then no step is refused but for want of memory.
pub fn stream_is_taken()
    ensures { StreamIsTaken }
{}

/// Fed a beginning of a snapshot that makes a dataset, no step is refused but for want of memory; and where all of it is there,
/// its dataset is handed over.
pub fn snapshot_is_taken()
    ensures taken { SnapshotIsTaken }
    ensures whole { SnapshotIsHandedOver }
{}

/// Where memory can be lacking in the stream, more bytes are wanted within a frame alone.
pub fn more_is_wanted_in_frames()
    ensures { MoreIsWantedInFrames }
{}
