//! What a server does after each turn: the wire asks the node whom its links lead to, and what came in the turn is told.
use crate::kept_file::SeesChange;
use crate::telling::Telling;
use crate::told_wire::{SeesPeers, ToldWire};
use mr_file::LogFile;
use mr_loop::{Links, Turn, Watch};
use mr_node::Node;

/// Tells on standard error what comes in so many turns.
#[derive(Drop)]
pub struct Watching {
    pub telling: Telling,
    pub turns: u64,
}

impl<F: LogFile + SeesChange> Watch<ToldWire, F> for Watching {
    ghost turns = { λ w. w.turns };

    fn turns(&self) -> u64 {
        self.turns
    }

    fn look(&mut self, turn: Turn, node: &Node, links: &Links, wire: &mut ToldWire, file: &F) {
        wire.look(node, links);
        self.telling.look(node, wire, file, turn);
    }
}
