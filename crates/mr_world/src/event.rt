// What happens to a World.
use mr_data::Given;
use mr_links::Side;
use mr_node::Config;
use mr_repl::ReplId;

/// What happens to a World. Nodes and links are numbered from 0, in the order in which they came.
#[derive(Drop)]
pub enum Event {
    /// A node starts under a drawn id, with an empty dataset and an empty file.
    Start {
        id: ReplId,
        config: Config,
    },
    /// A client's link to a node comes.
    Client {
        node: usize,
    },
    /// A client sends bytes.
    Command {
        link: usize,
        bytes: Vec<u8>,
    },
    /// An end takes the next bytes of those that the other sent, so many.
    Deliver {
        link: usize,
        side: Side,
        count: usize,
    },
    /// A node makes a step at its end, with what it is given from outside, and an id that it may take.
    Step {
        link: usize,
        side: Side,
        given: Given,
        fresh: ReplId,
    },
    /// Time passes at a node.
    Tick {
        node: usize,
        given: Given,
    },
    /// An end closes, and loses what it hasn't taken.
    Break {
        link: usize,
        side: Side,
    },
    /// A replica that follows nobody dials a node, itself or another, whichever it was told to follow, which accepts at once: `Connect` and
    /// `Accept` in one.
    Dial {
        node: usize,
        to: usize,
    },
    /// A replica that follows nobody opens its end of a link, which waits for a node to accept it.
    Connect {
        node: usize,
    },
    /// A node accepts a link that waits, its own or another's.
    Accept {
        link: usize,
        node: usize,
    },
    /// A node, stopped or not, begins anew under a drawn id, in the role in which it started, whatever bytes are found as its file. Its port
    /// and its backlog are those of the config.
    Restart {
        node: usize,
        kept: Vec<u8>,
        id: ReplId,
        config: Config,
    },
}
