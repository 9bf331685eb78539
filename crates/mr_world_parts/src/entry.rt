// What is known of an id.
ghost use Rattle.std.specs.Prelude.{◌≡◌, ◌≢◌, [], ◌||◌, ◌++◌, bytes_eq, is_some, take, option_copied, IfOk, OnOk, OnErr};
ghost use Rattle.mr_repl.specs.ReplId.{zero_id};
ghost use Rattle.law_refinement.specs.Books.{branched, entry_of, extended};
ghost use Rattle.mr_world_parts.specs.AtNode.{is_spent};

use mr_repl::ReplId;
use std::alloc::{AllocError, Global};
use std::marker::Model;

/// The history of an id: the commands that make the dataset that it began with, and the texts of the groups since.
#[derive(Drop)]
pub struct BookEntry {
    id: ReplId,
    start: Vec<u8>,
    texts: Vec<u8>,
}

impl Model for BookEntry {
    ghost use Rattle.law_refinement.specs.State.{BookEntry as BookEntryState};
    ghost use Rattle.mr_world_parts.specs.Codes.{entry_code};

    ghost Value = { BookEntryState };

    ghost coded = { entry_code };

    ghost view = { λ e. record { id = e.id; start = e.start.items; texts = e.texts.items } };
}

impl BookEntry {
    /// An id that begins with the empty dataset.
    pub fn begun(alloc: Global, id: ReplId) -> BookEntry
        ensures { result ≡ record { id = id; start = []; texts = [] } }
    {
        BookEntry {
            id,
            start: Vec::new(alloc),
            texts: Vec::new(alloc),
        }
    }

    /// An id that begins with the dataset that these commands make.
    pub fn begun_with(alloc: Global, id: ReplId, start: &[u8]) -> Result<BookEntry, AllocError>
        ensures { IfOk result (λ e. e ≡ record { id = id; start = start.now; texts = [] }) }
    {
        let start = Vec::from_slice(alloc, start)?;
        Ok(BookEntry {
            id,
            start,
            texts: Vec::new(alloc),
        })
    }

    /// Whether it is under this id.
    fn is_of(&self, id: ReplId) -> bool
        ensures { result ≡ bytes_eq self.now.id id }
    {
        self.id == id
    }

    /// More texts stand behind.
    fn lengthen(&mut self, bytes: &[u8]) -> Result<(), AllocError>
        ensures ok { OnOk result (self.new ≡
            record self.old { texts = self.old.texts ++ bytes.now }) }
        ensures err { OnErr result (self.new ≡ self.old) }
        ensures some { OnErr result (bytes.now ≢ []) }
    {
        self.texts.extend_from_slice(bytes)?;
        Ok(())
    }

    /// The history of a new id, which is this one up to an offset.
    fn cut(&self, alloc: Global, fresh: ReplId, offset: u64) -> Result<BookEntry, AllocError>
        ensures { IfOk result (λ e.
            e ≡ record {
              id = fresh;
              start = self.now.start;
              texts = take offset
                  self.now.texts;
            }) }
    {
        let start = Vec::from_slice(alloc, self.start.as_slice())?;
        let texts = Vec::from_slice(alloc, front_of(self.texts.as_slice(), offset))?;
        Ok(BookEntry {
            id: fresh,
            start,
            texts,
        })
    }
}

/// The first bytes, as many as there are of so many.
pub(crate) fn front_of(bytes: &[u8], count: u64) -> &[u8]
    ensures { result.now ≡ take count bytes.now }
{
    let count = count as usize;
    if count >= bytes.len() {
        return bytes;
    }
    let (front, _) = bytes.split_at(count);
    front
}

/// The history of an id.
fn find(book: &[BookEntry], id: ReplId) -> Option<&BookEntry>
    ensures { option_copied result ≡ entry_of book.now id }
{
    for entry in book.iter() {
        if entry.is_of(id) {
            return Some(entry);
        }
    }
    None
}

/// Puts texts behind the history of an id.
pub(crate) fn lengthen(book: &mut [BookEntry], id: ReplId, bytes: &[u8]) -> Result<(), AllocError>
    ensures ok { OnOk result (book.new ≡ extended book.old id bytes.now) }
    ensures err { OnErr result (book.new ≡ book.old) }
    ensures some { OnErr result (bytes.now ≢ []) }
{
    for entry in book.iter_mut() {
        if entry.is_of(id) {
            return entry.lengthen(bytes);
        }
    }
    Ok(())
}

/// A new id, whose history is that of another up to an offset.
pub(crate) fn branch(
    alloc: Global,
    book: &mut Vec<BookEntry>,
    id: ReplId,
    offset: u64,
    fresh: ReplId,
) -> Result<(), AllocError>
    ensures ok { OnOk result (book.new.items ≡ branched book.old.items id offset fresh) }
    ensures err { OnErr result (book.new.items ≡ book.old.items) }
{
    match find(book.as_slice(), id) {
        Some(entry) => {
            let cut = entry.cut(alloc, fresh, offset)?;
            if book.push(cut).is_err() {
                return Err(AllocError);
            }
            Ok(())
        }
        None => Ok(()),
    }
}

/// Whether the id can't be drawn: it was drawn before, or is that of zeros.
pub fn is_spent(book: &[BookEntry], id: ReplId) -> bool
    ensures { result ≡ is_spent book.now id }
{
    is_zero(id) || is_drawn(book, id)
}

/// Whether it is the id of zeros, which is nobody's.
fn is_zero(id: ReplId) -> bool
    ensures { result ≡ bytes_eq id zero_id }
{
    id == ReplId::zeros()
}

/// Whether the id stands in the book.
fn is_drawn(book: &[BookEntry], id: ReplId) -> bool
    ensures { result ≡ is_some (entry_of book.now id) }
{
    for entry in book.iter() {
        if entry.is_of(id) {
            return true;
        }
    }
    false
}
