// The dataset, and the text of its last whole copy.
ghost use Rattle.std.specs.Prelude.{◌≡◌, ◌≢◌, ◌≤◌, [], Err, IfOk, IfSome, IsSome, OnOk, Some, true};
ghost use Rattle.std.specs.List.{AllByRecursion};
ghost use Rattle.std.specs.FinMap as map;
ghost use Rattle.mr_keyspace.specs.Changes.{NeedsNoMemory};
ghost use Rattle.mr_data.specs.Meaning.{apply_all};
ghost use Rattle.mr_repl.specs.Backlog.{offset_limit};
ghost use Rattle.mr_replication.specs.Rows.{Listens};
ghost use Rattle.mr_node_state.specs.Copies.{IsCopy};

use mr_data::{ApplyFault, Dataset, Effect};
use mr_peer_lines::{write_full, write_length};
use mr_repl::{OFFSET_LIMIT, ReplId};
use mr_replication::{Course, UpstreamFault, UpstreamStep};
use std::alloc::{AllocError, Global};
use std::marker::Model;
use std::rc::Rc;

/// The text of a whole copy, and the id and the offset at which its dataset stood.
#[derive(Drop)]
pub(crate) struct Copied {
    id: ReplId,
    offset: u64,
    text: Rc<Vec<u8>>,
}

/// The dataset, and the text of its last whole copy: it is made once for all replicas that ask at one offset, and shared by them. It
/// goes where the dataset changes or the stream grows.
#[derive(Drop)]
pub(crate) struct Held {
    alloc: Global,
    dataset: Dataset,
    copied: Option<Copied>,
}

impl Model for Held {
    ghost use Rattle.std.specs.Prelude.{IfSome};
    ghost use Rattle.mr_keyspace.specs.Dataset.{Dataset as Entries};
    ghost use Rattle.mr_data.specs.contracts.dataset.Dataset as dataset_row;
    ghost use Rattle.mr_node_state.specs.Copies.{IsCopy};

    ghost Value = { Entries };

    ghost coded = { dataset_row.the_row.coded };

    ghost view = { λ h. h.dataset };

    ghost invariant = { λ h. IfSome h.copied (λ c. IsCopy c.id c.offset h.dataset c.text.value.items) };
}

impl Held {
    /// This dataset, of which no copy was made.
    pub(crate) fn of(alloc: Global, dataset: Dataset) -> Held
        ensures { result ≡ dataset }
    {
        Held {
            alloc,
            dataset,
            copied: None,
        }
    }

    /// The dataset.
    pub(crate) fn dataset(&self) -> &Dataset
        ensures { result.now ≡ self.now }
    {
        &self.dataset
    }

    /// The text of a whole copy, where the dataset stands at this id and this offset. It is kept for who asks next.
    pub(crate) fn copy(&mut self, id: ReplId, offset: u64) -> Result<Rc<Vec<u8>>, AllocError>
        requires { offset ≤ offset_limit }
        ensures text { IfOk result (λ t. IsCopy id offset self.old t.value.items) }
        ensures same { self.new ≡ self.old }
    {
        if let Some(copied) = &self.copied
            && is_at(copied, id, offset)
        {
            let text = copied.text.clone()?;
            return Ok(text);
        }
        let text = copy_of(self.alloc, &self.dataset, id, offset)?;
        let kept = text.clone()?;
        self.copied = Some(Copied {
            id,
            offset,
            text: kept,
        });
        Ok(text)
    }

    /// The text of the last copy goes, once nobody waits for it any more.
    pub(crate) fn forget_copy(&mut self)
        ensures { self.new ≡ self.old }
    {
        self.copied = None;
    }

    /// Applies effects.
    pub(crate) fn apply_all(&mut self, effects: Vec<Effect<'static>>) -> Result<(), ApplyFault>
        ensures ok { OnOk result (apply_all effects.entry.items self.old ≡ Some self.new) }
        ensures refused { result ≡ Err ApplyFault.Refused →
            apply_all effects.entry.items self.old ≡ None }
        ensures emptied { result ≡ Err ApplyFault.Memory → self.new ≡ map.empty }
        ensures memory { AllByRecursion NeedsNoMemory effects.entry.items →
            result ≢ Err ApplyFault.Memory }
    {
        drop(self.copied.take());
        self.dataset.apply_all(effects)
    }

    /// Makes a step at the link to the master, on this course.
    pub(crate) fn listen(
        &mut self,
        course: &mut Course,
        out: &mut Vec<u8>,
    ) -> Result<UpstreamStep, UpstreamFault>
        requires follows { IsSome course.old.follow }
        requires empty { out.old.items ≡ [] }
        ensures { Listens course.old self.old result course.new self.new out.new.items }
    {
        self.copied = None;
        course.listen(self.alloc, &mut self.dataset, out)
    }
}

/// Whether a text is that of a copy at this id and this offset.
fn is_at(copied: &Copied, id: ReplId, offset: u64) -> bool
    ensures { result ≡ true → (copied.now.id ≡ id) × (copied.now.offset ≡ offset) }
{
    copied.id == id && copied.offset == offset
}

/// Makes the text of a whole copy of a dataset that stands at this id and this offset. Where its length can't be told, memory counts as
/// lacking.
fn copy_of(
    alloc: Global,
    dataset: &Dataset,
    id: ReplId,
    offset: u64,
) -> Result<Rc<Vec<u8>>, AllocError>
    requires { offset ≤ offset_limit }
    ensures { IfOk result (λ t. IsCopy id offset dataset.now t.value.items) }
{
    let texts = dataset.rebuild(alloc)?;
    if texts.len() as u64 > OFFSET_LIMIT {
        return Err(AllocError);
    }
    let mut text = Vec::new(alloc);
    write_full(id, offset, &mut text)?;
    write_length(texts.len() as u64, &mut text)?;
    text.extend_from_slice(texts.as_slice())?;
    match Rc::new(alloc, text) {
        Ok(shared) => Ok(shared),
        Err(_refused) => Err(AllocError),
    }
}
