// Transactions that clients have open.
ghost use Rattle.std.specs.Prelude.{◌≡◌, ℕ, List, Some, take, OnOk, OnErr};
ghost use Rattle.mr_node_links.specs.State.{CanWait, Transaction as Open, end_at};
ghost use Rattle.mr_node_links.specs.State.EndState.{waiting};
ghost use Rattle.mr_node_links.specs.Parts.{BeginsAt, HasOpen, IsClient, MarksAt, PutsBack, TakesOut, WaitsAt};
ghost use Rattle.mr_node_state.specs.Parts.{OnlyEnds};

use crate::state::State;
use mr_links::LinkId;
use mr_node_links::Transaction;
use std::alloc::AllocError;

impl State {
    /// A client begins a transaction, behind so many bytes that are used.
    pub fn begin(&mut self, link: LinkId, count: usize)
        requires { IsClient self.old.ends link count }
        ensures begins { BeginsAt self.old.ends link count self.new.ends }
        ensures only { OnlyEnds self.old self.new }
    {
        self.ends.begin(link, count);
    }

    /// So many unread bytes, which are a request, wait for the end of the transaction that is open. Where memory is lacking nothing has
    /// changed.
    pub fn wait(&mut self, link: LinkId, count: usize) -> Result<(), AllocError>
        requires open { HasOpen self.old.ends link count }
        requires request { (t : Open) (unread : List ℕ) →
            end_at self.old.ends link ≡ Some (waiting t unread) → CanWait (take count unread) }
        ensures ok { OnOk result (WaitsAt self.old.ends link count self.new.ends) }
        ensures only { OnlyEnds self.old self.new }
        ensures err { OnErr result (self.new ≡ self.old) }
    {
        self.ends.wait(link, count)
    }

    /// The transaction that is open does nothing at its end, behind so many bytes that are used.
    pub fn mark_open(&mut self, link: LinkId, count: usize)
        requires { HasOpen self.old.ends link count }
        ensures marks { MarksAt self.old.ends link count self.new.ends }
        ensures only { OnlyEnds self.old self.new }
    {
        self.ends.mark(link, count);
    }

    /// Takes out the transaction that is open.
    pub fn take_out(&mut self, link: LinkId) -> Transaction
        requires { HasOpen self.old.ends link 0 }
        ensures takes { TakesOut self.old.ends link result self.new.ends }
        ensures only { OnlyEnds self.old self.new }
    {
        self.ends.take_out(link)
    }

    /// Puts it back.
    pub fn put_back(&mut self, link: LinkId, transaction: Transaction)
        requires { IsClient self.old.ends link 0 }
        ensures puts { PutsBack self.old.ends link transaction self.new.ends }
        ensures only { OnlyEnds self.old self.new }
    {
        self.ends.put_back(link, transaction);
    }
}
