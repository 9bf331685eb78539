// A line of a script.
ghost use Rattle.std.specs.Prelude.{IfOk, OnErr, slice_index, ◌≢◌, ◌↔◌, IsTrue, ◌≡◌};
ghost use Rattle.mr_inline.specs.Bytes.{star};
ghost use Rattle.mr_inline.specs.Scans.{BeginsWithLine};
ghost use Rattle.mr_inline.specs.Limits.{line_limit};
ghost use Rattle.mr_world_script.specs.Lines.{Reads};

use crate::reading::read_words;
use mr_data::Given;
use mr_inline::{LINE_LIMIT, LineScan, next_line};
use mr_links::Side;
use mr_repl::ReplId;
use std::alloc::{AllocError, Global};

/// What a line of a script says. Nodes and links are numbered from 0, in the order in which they came.
#[derive(Drop)]
pub enum Line {
    /// Nothing: it has no words.
    Blank,
    /// `start ID`, `replica ID`: a node starts under a drawn id.
    Start {
        id: ReplId,
        is_replica: bool,
    },
    /// `client N`: a client's link to a node comes.
    Client {
        node: usize,
    },
    /// `send L word ..`, `raw L text`: a client sends bytes, which are a request of the words in array form, or the text.
    Command {
        link: usize,
        bytes: Vec<u8>,
    },
    /// `deliver L side n`: an end takes the next n bytes of those that the other sent.
    Deliver {
        link: usize,
        side: Side,
        count: usize,
    },
    /// `step L side now word ID`: the node at an end makes a step, at this moment, by this word of chance.
    Step {
        link: usize,
        side: Side,
        given: Given,
        fresh: ReplId,
    },
    /// `tick N now`: time passes at a node.
    Tick {
        node: usize,
        given: Given,
    },
    /// `break L side`: an end closes.
    Break {
        link: usize,
        side: Side,
    },
    /// `dial N M`: a node opens a link to another, which accepts it at once.
    Dial {
        node: usize,
        to: usize,
    },
    /// `connect N`: a node opens its end of a link, which waits for a node to accept it.
    Connect {
        node: usize,
    },
    /// `accept L N`: a node accepts a link that waits.
    Accept {
        link: usize,
        node: usize,
    },
    /// `restart N n ID`: a node begins anew under a drawn id, with n bytes of its file, or all where it has fewer.
    Restart {
        node: usize,
        count: usize,
        id: ReplId,
    },
    /// `show N`: the state of a node is asked for.
    Show {
        node: usize,
    },
    /// `got L`: the bytes are asked for that the client of a link took.
    Got {
        link: usize,
    },
}

impl Line {
    /// Reads a line, with the line feed at its end. `None` where it is a bad line.
    pub fn read(alloc: Global, text: &[u8]) -> Result<Option<Line>, AllocError>
        ensures read { IfOk result (λ line. Reads text.now line) }
        // Only a line with words takes memory.
        ensures refused { OnErr result (BeginsWithLine line_limit text.now) }
    {
        if begins_array(text) {
            return Ok(None);
        }
        match next_line(alloc, LINE_LIMIT, text)? {
            LineScan::Whole { words, used } => {
                if used < text.len() {
                    return Ok(None);
                }
                read_words(alloc, &words)
            }
            LineScan::Skip { used } => {
                if used < text.len() {
                    return Ok(None);
                }
                Ok(Some(Line::Blank))
            }
            LineScan::More | LineScan::Bad(_) => Ok(None),
        }
    }
}

/// Whether the bytes begin with `*`, as no line does.
fn begins_array(text: &[u8]) -> bool
    ensures { IsTrue result ↔ (slice_index text.now 0 ≡ star) }
{
    !text.is_empty() && text[0] == b'*'
}
