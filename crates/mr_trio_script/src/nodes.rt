ghost use Rattle.std.specs.Prelude.{IfOk, IfErr, IsErrOf, map};
ghost use Rattle.std.specs.Cow.{cow_slice_items};
ghost use Rattle.mr_trio_script.specs.Replies.{IsReply};
ghost use Rattle.mr_trio_script.specs.Conduct.{Conduct};
ghost use Rattle.mr_trio_script.specs.Faults.{IsInner, IsOfPlay};

use crate::ending::Ending;
use crate::fault::TrioFault;
use crate::place::Place;
use std::borrow::CowSlice;

/// Three nodes that can be asked. What asking one of them comes to, and what one is, each kind says of itself.
pub trait Nodes {
    ghost conduct: { Conduct Self };

    /// Asks the node there a request: the bytes of its reply, or that there was none in time.
    fn ask(&mut self, place: Place, words: Vec<CowSlice<'_, u8>>) -> Result<Vec<u8>, TrioFault>
        ensures reply { IfOk result (λ bytes. IsReply bytes.items) }
        ensures answered { IfOk result (λ bytes.
            conduct.answers self.old place (map cow_slice_items words.entry.items) bytes.items
            self.new) }
        ensures late { IsErrOf result TrioFault.Late →
            conduct.delays self.old place (map cow_slice_items words.entry.items) self.new }
        ensures fault { IfErr result IsOfPlay };

    /// What the node there is.
    fn ending(&self, place: Place) -> Result<Ending, TrioFault>
        ensures ending { IfOk result (λ ending. conduct.ends_as self.now place ending) }
        ensures fault { IfErr result IsInner };
}
