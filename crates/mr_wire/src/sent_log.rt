ghost use Rattle.std.specs.Prelude.{◌≡◌, List, [], if◌then◌else◌};
ghost use Rattle.mr_wire.specs.Wire.{SentState, sent_on};

use mr_links::LinkId;
use std::alloc::Global;
use std::collections::LinkedList;
use std::marker::Model;

/// Bytes that were sent on a link.
#[derive(Drop)]
pub(crate) struct Sent {
    link: LinkId,
    bytes: Vec<u8>,
}

impl Model for Sent {
    ghost use Rattle.mr_wire.specs.Wire.{SentState};

    ghost Value = { SentState };

    ghost view = { λ s. record { link = s.link; bytes = s.bytes.items } };
}

/// All that a wire in memory has sent, on links that are closed too, the newest first.
#[derive(Drop)]
pub(crate) struct SentLog {
    alloc: Global,
    items: LinkedList<Sent>,
}

impl Model for SentLog {
    ghost use Rattle.std.specs.Prelude.{List};
    ghost use Rattle.mr_wire.specs.Wire.{SentState};

    ghost Value = { List SentState };

    ghost view = { λ l. l.items };
}

impl SentLog {
    /// Nothing was sent.
    pub(crate) fn new(alloc: Global) -> SentLog
        ensures { result ≡ [] }
    {
        SentLog {
            alloc,
            items: LinkedList::new(alloc),
        }
    }

    /// Notes bytes that are sent on a link, if there are any. Whether there is memory for them: else nothing changes.
    pub(crate) fn note(&mut self, link: LinkId, bytes: &[u8]) -> bool
        ensures { self.new ≡ (if result then sent_on link bytes.now self.old else self.old) }
    {
        if bytes.is_empty() {
            return true;
        }
        let Ok(bytes) = bytes.to_vec(self.alloc) else {
            return false;
        };
        self.items.push_front(Sent { link, bytes }).is_ok()
    }

    /// Takes back what was noted last: these bytes on this link.
    pub(crate) fn forget(&mut self, link: LinkId, bytes: &[u8])
        ensures { (before : List SentState) → self.old ≡ sent_on link bytes.now before →
            self.new ≡ before }
    {
        if !bytes.is_empty() {
            let _ = self.items.pop_front();
        }
    }
}
