//! The line in the place of an answer.
ghost use Rattle.mr_follower.specs.Lines.{HearsStatus, HearsAnswer, HearsLength};

use crate::FollowFault;
use mr_peer_lines::{PeerLine, PeerLineScan, PsyncReply, next_line, read_reply};

/// What a `+` line says, and its length with its end.
#[derive(Clone, Copy)]
pub(crate) struct Status<'a> {
    pub(crate) text: &'a [u8],
    pub(crate) used: usize,
}

/// The answer to PSYNC, and the length of its line with its end.
#[derive(Clone, Copy)]
pub(crate) struct Answered {
    pub(crate) reply: PsyncReply,
    pub(crate) used: usize,
}

/// A `$` line, and its length with its end.
#[derive(Clone, Copy)]
pub(crate) struct Announced {
    pub(crate) length: u64,
    pub(crate) used: usize,
}

/// The answer at the front of the input, if its line is whole.
pub(crate) fn status_at(input: &[u8]) -> Result<Option<Status<'_>>, FollowFault>
    ensures { HearsStatus input.now result }
{
    match next_line(input) {
        PeerLineScan::Whole { line, used } => match line {
            PeerLine::Status(text) => Ok(Some(Status { text, used })),
            PeerLine::Refusal(_) => Err(FollowFault::Refused),
            PeerLine::Length(_) => Err(FollowFault::BadLine),
        },
        PeerLineScan::More => Ok(None),
        PeerLineScan::Bad => Err(FollowFault::BadLine),
    }
}

/// The answer to PSYNC at the front of the input, if its line is whole.
pub(crate) fn answer_at(input: &[u8]) -> Result<Option<Answered>, FollowFault>
    ensures { HearsAnswer input.now result }
{
    let Some(status) = status_at(input)? else {
        return Ok(None);
    };
    match read_reply(status.text) {
        Some(reply) => Ok(Some(Answered {
            reply,
            used: status.used,
        })),
        None => Err(FollowFault::BadLine),
    }
}

/// The length at the front of the input, if its line is whole.
pub(crate) fn length_at(input: &[u8]) -> Result<Option<Announced>, FollowFault>
    ensures { HearsLength input.now result }
{
    match next_line(input) {
        PeerLineScan::Whole { line, used } => match line {
            PeerLine::Length(length) => Ok(Some(Announced { length, used })),
            PeerLine::Refusal(_) => Err(FollowFault::Refused),
            PeerLine::Status(_) => Err(FollowFault::BadLine),
        },
        PeerLineScan::More => Ok(None),
        PeerLineScan::Bad => Err(FollowFault::BadLine),
    }
}
