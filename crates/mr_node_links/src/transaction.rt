// What a client has begun and not ended.
ghost use Rattle.std.specs.Prelude.{◌≡◌, All, map, OnOk, OnErr};
ghost use Rattle.mr_node_links.specs.State.{CanWait, as_marked, begun, with_text};

use std::alloc::{AllocError, Global};
use std::marker::Model;

/// The texts of the requests that wait for the end, in order, and whether nothing is done then.
#[derive(Drop)]
pub struct Transaction {
    requests: Vec<Vec<u8>>,
    marked: bool,
}

impl Model for Transaction {
    ghost use Rattle.std.specs.Prelude.{All, map};
    ghost use Rattle.mr_node_links.specs.State.{CanWait, Transaction as Open, transaction_code};

    ghost Value = { Open };

    ghost coded = { transaction_code };

    ghost view = { λ t. record { queued = map (λ r. r.items) t.requests.items; marked = t.marked } };

    ghost invariant = { λ t. All CanWait (map (λ r. r.items) t.requests.items) };
}

impl Transaction {
    /// Nothing waits yet.
    pub(crate) fn new(alloc: Global) -> Transaction
        ensures { result ≡ begun }
    {
        Transaction {
            requests: Vec::new(alloc),
            marked: false,
        }
    }

    /// Puts a request behind those that wait.
    pub(crate) fn push(&mut self, alloc: Global, text: &[u8]) -> Result<(), AllocError>
        requires { CanWait text.now }
        ensures ok { OnOk result (self.new ≡ with_text text.now self.old) }
        ensures err { OnErr result (self.new ≡ self.old) }
    {
        let mut request = Vec::new(alloc);
        request.extend_from_slice(text)?;
        self.requests.push(request)?;
        Ok(())
    }

    /// Nothing will be done at the end.
    pub(crate) fn mark(&mut self)
        ensures { self.new ≡ as_marked self.old }
    {
        self.marked = true;
    }

    /// Whether nothing is done at the end.
    pub fn is_marked(&self) -> bool
        ensures { result ≡ self.now.marked }
    {
        self.marked
    }

    /// The texts that wait, in order.
    pub fn requests(&self) -> &[Vec<u8>]
        ensures texts { map (λ r. r.items) result.now ≡ self.now.queued }
        ensures requests { All CanWait self.now.queued }
    {
        self.requests.as_slice()
    }
}
