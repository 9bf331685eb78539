// A node's end of a link.
ghost use Rattle.std.specs.Prelude.{◌≡◌, ◌≤◌, ◌↔◌, ℕ, List, [], true, IsTrue, length, take, drop, Some, OnOk, OnErr, option_copied};
ghost use Rattle.mr_node_links.specs.State.{CanWait, EndState, Transaction as Open, as_marked, begun, full, transaction_in, serves, streams, unread_in, with_text};
ghost use Rattle.mr_node_links.specs.State.EndState.{client, waiting, replica, upstream, shut};
ghost use Rattle.mr_node_links.specs.Ending.{kind_of, HasUnread, Takes, AgreesAt, IsRoom, used_of, heard_of};

use crate::introduction::Introduction;
use crate::kind::Kind;
use crate::transaction::Transaction;
use mr_buffer::Buffer;
use mr_inline::TEXT_LIMIT;
use mr_resp::Progress;
use std::alloc::{AllocError, Global};
use std::marker::Model;

/// Whose it is, what a client has begun there and not ended, what was fed and not used, how far the reader has gone over it, and what a replica told of itself.
#[derive(Drop)]
pub struct LinkEnd {
    kind: Kind,
    transaction: Option<Transaction>,
    unread: Buffer,
    progress: Progress,
    introduction: Introduction,
    acknowledged: i64,
}

impl Model for LinkEnd {
    ghost use Rattle.mr_node_links.specs.State.{EndState, end_code};
    ghost use Rattle.mr_node_links.specs.Ending.{end_as};
    ghost use Rattle.mr_node_links.specs.Progresses.{Fits};

    ghost Value = { EndState };

    ghost coded = { end_code };

    ghost view = { λ e. end_as e.kind e.transaction e.unread };

    ghost invariant = { λ e. Fits e.unread e.progress };
}

// What is asked of it.
impl LinkEnd {
    /// Whose it is.
    pub fn kind(&self) -> Kind
        ensures { result ≡ kind_of self.now }
    {
        self.kind
    }

    /// Whether the node serves it: it is a client's or a replica's, and open.
    pub fn serves(&self) -> bool
        ensures { result ≡ serves self.now }
    {
        match self.kind {
            Kind::Client | Kind::Replica => true,
            Kind::Upstream | Kind::Shut => false,
        }
    }

    /// Whether the stream is sent there.
    pub fn streams(&self) -> bool
        ensures { result ≡ streams (Some self.now) }
    {
        match self.kind {
            Kind::Replica => true,
            Kind::Client | Kind::Upstream | Kind::Shut => false,
        }
    }

    /// The bytes that were fed and not used.
    pub fn unread(&self) -> &[u8]
        requires { serves self.now ≡ true }
        ensures { unread_in self.now ≡ result.now }
    {
        self.unread.left()
    }

    /// How far the reader has gone over the unread bytes.
    pub fn progress(&self) -> Progress
        requires { serves self.now ≡ true }
        ensures { AgreesAt result self.now }
    {
        self.progress
    }

    /// What a client has begun there and not ended.
    pub fn transaction(&self) -> Option<&Transaction>
        requires { serves self.now ≡ true }
        ensures { option_copied result ≡ transaction_in self.now }
    {
        match self.kind {
            Kind::Client => self.transaction.as_ref(),
            Kind::Replica | Kind::Upstream | Kind::Shut => None,
        }
    }

    /// How many bytes may come.
    pub fn room(&self) -> usize
        requires { serves self.now ≡ true }
        ensures { IsRoom result self.now }
    {
        TEXT_LIMIT - self.unread.len()
    }

    /// What it said of itself by REPLCONF.
    pub fn introduction(&self) -> &Introduction {
        &self.introduction
    }

    /// The offset that it acknowledged last, 0 before it did.
    pub fn acknowledged(&self) -> i64 {
        self.acknowledged
    }
}

// What becomes of it.
impl LinkEnd {
    /// An end of this kind, to which nothing was fed, and which said nothing of itself.
    #[tactic(auto, using(crate::proofs::Progressing::fresh_along))]
    fn of(alloc: Global, kind: Kind) -> LinkEnd
        ensures client { kind ≡ Kind.Client → result ≡ client [] }
        ensures upstream { kind ≡ Kind.Upstream → result ≡ upstream }
    {
        LinkEnd {
            kind,
            transaction: None,
            unread: Buffer::new(alloc),
            progress: Progress::new(),
            introduction: Introduction::none(),
            acknowledged: 0,
        }
    }

    /// A client's end, to which nothing was fed.
    pub(crate) fn client(alloc: Global) -> LinkEnd
        ensures { result ≡ client [] }
    {
        LinkEnd::of(alloc, Kind::Client)
    }

    /// The end of a link to a master.
    pub(crate) fn upstream(alloc: Global) -> LinkEnd
        ensures { result ≡ upstream }
    {
        LinkEnd::of(alloc, Kind::Upstream)
    }

    /// Keeps how far the reader has gone.
    pub(crate) fn keep(&mut self, progress: Progress)
        requires { AgreesAt progress self.old }
        ensures { self.new ≡ self.old }
    {
        self.progress = progress;
    }

    /// Uses so many of the unread bytes.
    #[tactic(auto, using(crate::proofs::Progressing::fresh_along))]
    pub(crate) fn take(&mut self, count: usize)
        requires { HasUnread count self.old }
        ensures { self.new ≡ used_of count self.old }
    {
        self.unread.take(count);
        self.progress = Progress::new();
    }

    /// Puts bytes behind the unread ones.
    pub(crate) fn hear(&mut self, bytes: &[u8]) -> Result<(), AllocError>
        requires { Takes (length bytes.now) self.old }
        ensures ok { OnOk result (self.new ≡ heard_of bytes.now self.old) }
        ensures err { OnErr result (self.new ≡ self.old) }
    {
        self.unread.push(bytes)?;
        Ok(())
    }

    /// A client begins a transaction.
    pub(crate) fn begin(&mut self, alloc: Global)
        ensures { (unread : List ℕ) → self.old ≡ client unread →
            self.new ≡ waiting begun unread }
    {
        self.transaction = Some(Transaction::new(alloc));
    }

    /// A request of so many unread bytes waits.
    pub(crate) fn wait(&mut self, alloc: Global, count: usize) -> Result<(), AllocError>
        requires enough { HasUnread count self.old }
        requires request { CanWait (take count (unread_in self.old)) }
        ensures ok { OnOk result ((t : Open) (unread : List ℕ) →
            self.old ≡ waiting t unread →
            self.new ≡ waiting (with_text (take count unread) t) (drop count unread)) }
        ensures err { OnErr result (self.new ≡ self.old) }
    {
        if let Some(transaction) = &mut self.transaction {
            transaction.push(alloc, &self.unread.left()[..count])?;
        }
        self.take(count);
        Ok(())
    }

    /// The transaction does nothing at its end.
    pub(crate) fn mark(&mut self)
        ensures { (t : Open) (unread : List ℕ) → self.old ≡ waiting t unread →
            self.new ≡ waiting (as_marked t) unread }
    {
        if let Some(transaction) = &mut self.transaction {
            transaction.mark();
        }
    }

    /// Takes the transaction out, if one is open.
    pub(crate) fn take_out(&mut self) -> Option<Transaction>
        ensures taken { (t : Open) (unread : List ℕ) → self.old ≡ waiting t unread →
            result ≡ Some t }
        ensures left { (t : Open) (unread : List ℕ) → self.old ≡ waiting t unread →
            self.new ≡ client unread }
    {
        self.transaction.take()
    }

    /// Puts one back.
    pub(crate) fn put_back(&mut self, transaction: Transaction)
        ensures { (unread : List ℕ) → self.old ≡ client unread →
            self.new ≡ waiting transaction unread }
    {
        self.transaction = Some(transaction);
    }

    /// A client's becomes a replica's.
    pub(crate) fn turn(&mut self)
        ensures { (unread : List ℕ) → self.old ≡ client unread →
            self.new ≡ replica unread }
    {
        self.kind = Kind::Replica;
    }

    /// Closes it. What was fed goes, with its memory.
    #[tactic(auto, using(crate::proofs::Progressing::fresh_along))]
    pub(crate) fn shut(&mut self)
        ensures { self.new ≡ shut }
    {
        self.kind = Kind::Shut;
        self.transaction = None;
        self.unread.release();
        self.progress = Progress::new();
        self.introduction = Introduction::none();
    }

    /// It said this of itself.
    pub(crate) fn introduce(&mut self, introduction: Introduction)
        ensures { self.new ≡ self.old }
    {
        self.introduction.renew(introduction);
    }

    /// It acknowledged this offset.
    pub(crate) fn acknowledge(&mut self, offset: i64)
        ensures { self.new ≡ self.old }
    {
        self.acknowledged = offset;
    }
}
