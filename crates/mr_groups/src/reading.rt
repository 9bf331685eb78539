// The group at the front of bytes.
ghost use Rattle.std.specs.Prelude.{IfOk, OnErr};
ghost use Rattle.mr_resp.specs.Command.{BeginsWithCommand};
ghost use Rattle.mr_resp.specs.Usual.{commands};
ghost use Rattle.mr_groups.specs.Reading.{ReadsGroup};

use crate::reader::Reader;
use mr_data::Effect;
use std::alloc::{AllocError, Global};

/// What stands at the front of bytes.
#[derive(Drop)]
pub enum Next {
    /// The first so many bytes are the text of a group of these effects, which own their words.
    Whole {
        effects: Vec<Effect<'static>>,
        used: usize,
    },
    /// No group's text, but a beginning of one, of command texts: the last of them isn't whole.
    More,
    /// No group's text, and none will come, however the bytes go on.
    Bad,
}

/// Reads the group whose text begins the bytes: one effect, or two or more that aren't PING in a frame. Only whole command
/// texts take memory, and what was read of a group that isn't whole is let go.
pub fn next_group(alloc: Global, bytes: &[u8]) -> Result<Next, AllocError>
    ensures found { IfOk result (λ next. ReadsGroup bytes.now next) }
    ensures refused { OnErr result (BeginsWithCommand commands bytes.now) }
{
    Reader::new(alloc).next(alloc, bytes)
}
