//! A replica's end of its master's link: the handshake, the snapshot, the stream.
#![tactic(auto)]

mod follower;
mod handshake;
mod heard;
mod inbox;
mod laws;
mod phase;
mod single;
mod status;
mod stream;
mod taking;

pub use follower::Follower;
pub use heard::{FollowFault, Heard};
pub use laws::{
    fed_bytes_are_unread, follows_the_stream, more_is_wanted_in_frames, snapshot_is_taken,
    stream_is_taken,
};
pub use phase::Phase;
