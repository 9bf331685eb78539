ghost use Rattle.std.specs.Prelude.{◌≡◌, ℕ};

use crate::links::Links;
use crate::told::Turn;
use mr_file::LogFile;
use mr_node::Node;
use mr_wire::Wire;

/// Who looks on while turns are made, and says how many.
pub trait Watch<W: Wire, F: LogFile> {
    /// So many turns are to be made.
    ghost turns: { Self → ℕ };

    /// How many turns are to be made.
    fn turns(&self) -> u64
        ensures { result ≡ turns self.now };

    /// A turn was made, of which this is told. The wire may hear of the node whom its links lead to, and they stay as they are.
    fn look(&mut self, turn: Turn, node: &Node, links: &Links, wire: &mut W, file: &F)
        ensures links { W.links wire.new ≡ W.links wire.old }
        ensures failures { W.failures wire.new ≡ W.failures wire.old };
}

/// So many turns, and nobody looks on.
#[derive(Clone, Copy, Debug, PartialEq, Eq)]
pub struct Unwatched {
    pub turns: u64,
}

impl<W: Wire, F: LogFile> Watch<W, F> for Unwatched {
    ghost turns = { λ w. w.turns };

    fn turns(&self) -> u64 {
        self.turns
    }

    fn look(&mut self, _turn: Turn, _node: &Node, _links: &Links, _wire: &mut W, _file: &F) {}
}
