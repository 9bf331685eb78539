ghost use Rattle.std.specs.Prelude.{◌≡◌, ◌+◌, ◌<◌, ℕ, List, None, Some, [], length, take, false, IfOk, not, filter, OnOk, OnErr, IsSome, option_copied};
ghost use Rattle.std.specs.FinMap as map;
ghost use Rattle.std.specs.Ordering.{eq_by_cmp};
ghost use Rattle.mr_links.specs.LinkId.{id_cmp};
ghost use Rattle.mr_links.specs.Links.{links_limit};
ghost use Rattle.mr_node_links.specs.State.{CanWait, Transaction as Open, end_at, opened_as, put_end, streams, without};
ghost use Rattle.mr_node_links.specs.State.EndState.{client, shut, upstream, waiting};
ghost use Rattle.mr_node_links.specs.Replicas.{Lists, ShutsReplicas};
ghost use Rattle.mr_node_links.specs.Parts.{BeginsAt, HasAhead, HasOpen, HasRoom, HearsAt, IsClient, KeepsOn, MarksAt, PutsBack, TakesOut, TurnsAt, UsesAt, WaitsAt};

use crate::end::LinkEnd;
use crate::introduction::Introduction;
use crate::shutting::shut_all;
use crate::transaction::Transaction;
use mr_links::{LinkId, Links};
use mr_resp::Progress;
use std::alloc::{AllocError, Global};
use std::marker::Model;

/// The ends of a node's links by their names. Beside them stand the names of the replicas', so that what is sent to these costs
/// nothing more with more clients.
#[derive(Drop)]
pub struct Ends {
    alloc: Global,
    links: Links<LinkEnd>,
    replicas: Vec<LinkId>,
}

impl Model for Ends {
    ghost use Rattle.mr_links.specs.Links.{Links, links_code};
    ghost use Rattle.mr_node_links.specs.State.{EndState, end_code};
    ghost use Rattle.mr_node_links.specs.Replicas.{Lists};

    ghost Value = { Links EndState };

    ghost coded = { links_code end_code };

    ghost view = { λ e. e.links };

    ghost invariant = { λ e. Lists e.replicas.items e.links.open_links };
}

// What is asked of them.
impl Ends {
    /// No ends.
    pub fn new(alloc: Global) -> Ends
        ensures none { result.open_links ≡ map.empty }
        ensures opened { result.opened ≡ 0 }
    {
        Ends {
            alloc,
            links: Links::new(alloc),
            replicas: Vec::new(alloc),
        }
    }

    /// How many ends were ever opened.
    pub fn opened(&self) -> u64
        ensures { result ≡ self.now.opened }
    {
        self.links.opened()
    }

    /// The end of this name, if it is there.
    pub fn get(&self, link: LinkId) -> Option<&LinkEnd>
        ensures { option_copied result ≡ end_at self.now link }
    {
        self.links.get(link)
    }

    /// The names of the ends that the stream is sent to, in the order in which they became replicas'.
    pub fn replicas(&self) -> &[LinkId]
        ensures { Lists result.now self.now.open_links }
    {
        self.replicas.as_slice()
    }
}

// What becomes of one.
impl Ends {
    /// Opens an end that the stream isn't sent to, under a new name. Where memory is lacking nothing has changed.
    fn insert(&mut self, end: LinkEnd) -> Result<LinkId, AllocError>
        requires few { self.old.opened < links_limit }
        requires quiet { streams (Some end) ≡ false }
        ensures fresh { IfOk result (λ id. end_at self.old id ≡ None) }
        ensures generation { IfOk result (λ id. id.generation ≡ self.old.opened) }
        ensures opens { IfOk result (λ id. self.new ≡ opened_as self.old id end) }
        ensures err { OnErr result (self.new ≡ self.old) }
    {
        let Ok(link) = self.links.insert(end) else {
            return Err(AllocError);
        };
        Ok(link)
    }

    /// Opens a client's end under a new name. Where memory is lacking nothing has changed.
    pub fn open(&mut self) -> Result<LinkId, AllocError>
        requires { self.old.opened < links_limit }
        ensures fresh { IfOk result (λ id. end_at self.old id ≡ None) }
        ensures generation { IfOk result (λ id. id.generation ≡ self.old.opened) }
        ensures opens { IfOk result (λ id. self.new ≡ opened_as self.old id (client [])) }
        ensures err { OnErr result (self.new ≡ self.old) }
    {
        self.insert(LinkEnd::client(self.alloc))
    }

    /// Undoes `open`: takes out a client's end that was opened last, and of which nothing is unread, as if it had never been opened.
    pub fn take_back(&mut self, link: LinkId)
        requires open { end_at self.old link ≡ Some (client []) }
        requires last { self.old.opened ≡ link.generation + 1 }
        ensures fresh { end_at self.new link ≡ None }
        ensures generation { link.generation ≡ self.new.opened }
        ensures opens { self.old ≡ opened_as self.new link (client []) }
    {
        let _ = self.links.take_back(link);
    }

    /// Opens the end of a link to a master under a new name. Where memory is lacking nothing has changed.
    pub fn dial(&mut self) -> Result<LinkId, AllocError>
        requires { self.old.opened < links_limit }
        ensures fresh { IfOk result (λ id. end_at self.old id ≡ None) }
        ensures generation { IfOk result (λ id. id.generation ≡ self.old.opened) }
        ensures opens { IfOk result (λ id. self.new ≡ opened_as self.old id upstream) }
        ensures err { OnErr result (self.new ≡ self.old) }
    {
        self.insert(LinkEnd::upstream(self.alloc))
    }

    /// Puts bytes behind the unread ones.
    pub fn hear(&mut self, link: LinkId, bytes: &[u8]) -> Result<(), AllocError>
        requires { HasRoom self.old link (length bytes.now) }
        ensures ok { OnOk result (HearsAt self.old link bytes.now self.new) }
        ensures err { OnErr result (self.new ≡ self.old) }
    {
        let Some(end) = self.links.get_mut(link) else {
            unreachable!()
        };
        end.hear(bytes)?;
        Ok(())
    }

    /// Keeps how far the reader has gone over the unread bytes.
    pub fn keep(&mut self, link: LinkId, progress: Progress)
        requires { KeepsOn self.old link progress }
        ensures { self.new ≡ self.old }
    {
        let Some(end) = self.links.get_mut(link) else {
            unreachable!()
        };
        end.keep(progress);
    }

    /// Uses so many unread bytes.
    pub fn take(&mut self, link: LinkId, count: usize)
        requires { HasAhead self.old link count }
        ensures { UsesAt self.old link count self.new }
    {
        let Some(end) = self.links.get_mut(link) else {
            unreachable!()
        };
        end.take(count);
    }

    /// A client's end becomes a replica's, behind so many bytes that are used. Where memory is lacking nothing has changed.
    pub fn turn(&mut self, link: LinkId, count: usize) -> Result<(), AllocError>
        requires { IsClient self.old link count }
        ensures ok { OnOk result (TurnsAt self.old link count self.new) }
        ensures err { OnErr result (self.new ≡ self.old) }
    {
        if self.replicas.push(link).is_err() {
            return Err(AllocError);
        }
        let Some(end) = self.links.get_mut(link) else {
            unreachable!()
        };
        end.take(count);
        end.turn();
        Ok(())
    }

    /// A client begins a transaction, behind so many bytes that are used.
    pub fn begin(&mut self, link: LinkId, count: usize)
        requires { IsClient self.old link count }
        ensures { BeginsAt self.old link count self.new }
    {
        let Some(end) = self.links.get_mut(link) else {
            unreachable!()
        };
        end.take(count);
        end.begin(self.alloc);
    }

    /// So many unread bytes, which are a request, wait for the end of the transaction that is open. Where memory is lacking nothing has
    /// changed.
    pub fn wait(&mut self, link: LinkId, count: usize) -> Result<(), AllocError>
        requires open { HasOpen self.old link count }
        requires request { (t : Open) (unread : List ℕ) →
            end_at self.old link ≡ Some (waiting t unread) → CanWait (take count unread) }
        ensures ok { OnOk result (WaitsAt self.old link count self.new) }
        ensures err { OnErr result (self.new ≡ self.old) }
    {
        let Some(end) = self.links.get_mut(link) else {
            unreachable!()
        };
        end.wait(self.alloc, count)?;
        Ok(())
    }

    /// The transaction that is open does nothing at its end, behind so many bytes that are used.
    pub fn mark(&mut self, link: LinkId, count: usize)
        requires { HasOpen self.old link count }
        ensures { MarksAt self.old link count self.new }
    {
        let Some(end) = self.links.get_mut(link) else {
            unreachable!()
        };
        end.take(count);
        end.mark();
    }

    /// Takes out the transaction that is open.
    pub fn take_out(&mut self, link: LinkId) -> Transaction
        requires { HasOpen self.old link 0 }
        ensures { TakesOut self.old link result self.new }
    {
        let Some(end) = self.links.get_mut(link) else {
            unreachable!()
        };
        let Some(transaction) = end.take_out() else {
            unreachable!()
        };
        transaction
    }

    /// Puts it back.
    pub fn put_back(&mut self, link: LinkId, transaction: Transaction)
        requires { IsClient self.old link 0 }
        ensures { PutsBack self.old link transaction self.new }
    {
        let Some(end) = self.links.get_mut(link) else {
            unreachable!()
        };
        end.put_back(transaction);
    }

    /// A client said this of itself by REPLCONF, which no claim speaks of. Where the link isn't there nothing changes.
    pub fn introduce(&mut self, link: LinkId, introduction: Introduction)
        ensures { self.new ≡ self.old }
    {
        let Some(end) = self.links.get_mut(link) else {
            return;
        };
        end.introduce(introduction);
    }

    /// A replica acknowledged this offset, which no claim speaks of. Where the link isn't there nothing changes.
    pub fn acknowledge(&mut self, link: LinkId, offset: i64)
        ensures { self.new ≡ self.old }
    {
        let Some(end) = self.links.get_mut(link) else {
            return;
        };
        end.acknowledge(offset);
    }

    /// Closes an end. What is fed to it from now on is dropped.
    pub fn shut(&mut self, link: LinkId)
        requires { IsSome (end_at self.old link) }
        ensures { self.new ≡ put_end self.old link shut }
    {
        forget(&mut self.replicas, link);
        let Some(end) = self.links.get_mut(link) else {
            unreachable!()
        };
        end.shut();
    }

    /// Takes an end out, if it is there.
    pub fn remove(&mut self, link: LinkId)
        ensures { self.new ≡ without self.old link }
    {
        forget(&mut self.replicas, link);
        let _ = self.links.remove(link);
    }

    /// Closes all ends that the stream was sent to.
    pub fn shut_replicas(&mut self)
        ensures { ShutsReplicas self.old self.new }
    {
        shut_all(&mut self.links, self.replicas.as_slice());
        self.replicas.clear();
    }
}

/// Whether two names are not the same.
fn is_another(name: LinkId, link: LinkId) -> bool
    ensures { result ≡ not (eq_by_cmp id_cmp name link) }
{
    !(name.index == link.index && name.generation == link.generation)
}

/// Takes a name out of the list.
fn forget(names: &mut Vec<LinkId>, link: LinkId)
    ensures { names.new.items ≡ filter (λ n. not (eq_by_cmp id_cmp n link)) names.old.items }
{
    names.retain(|name| is_another(*name, link));
}
