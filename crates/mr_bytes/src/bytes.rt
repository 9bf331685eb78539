// Bytes that own their memory.
ghost use Rattle.std.specs.Prelude.{◌≡◌, ◌≤◌, ◌+◌, ◌-◌, ◌++◌, drop, length, replicate, take, IfOk, IsTrue, OnErr, OnOk};
ghost use Rattle.mr_bytes.specs.Texts.{overwritten};
ghost use Rattle.mr_bytes.specs.Words.{fits};

use crate::word::fits;
use mr_inline::WORD_LIMIT;
use std::alloc::{AllocError, Global};
use std::marker::Model;

/// Bytes that own their memory, seen as a list.
#[derive(Drop)]
pub struct Bytes {
    items: Vec<u8>,
}

impl Model for Bytes {
    ghost use Rattle.std.specs.Prelude.{List, ℕ};

    ghost Value = { List ℕ };

    ghost view = { λ a. a.items.items };
}

impl Bytes {
    /// A copy of the bytes.
    pub fn from_slice(alloc: Global, bytes: &[u8]) -> Result<Bytes, AllocError>
        ensures { IfOk result (λ b. b ≡ bytes.now) }
    {
        Ok(Bytes {
            items: Vec::from_slice(alloc, bytes)?,
        })
    }

    /// The bytes of a vector, which are not copied.
    pub fn from_vec(items: Vec<u8>) -> Bytes
        ensures { result ≡ items.items }
    {
        Bytes { items }
    }

    /// The vector that holds the bytes, which are not copied.
    pub fn into_vec(self) -> Vec<u8>
        ensures { result.items ≡ self }
    {
        let Self { items } = self;
        items
    }

    /// The bytes.
    pub fn as_slice(&self) -> &[u8]
        ensures { result.now ≡ self.now }
    {
        self.items.as_slice()
    }

    /// Whether these bytes with more behind them are within the word limit.
    pub fn fits_with(&self, more: &[u8]) -> bool
        ensures { result ≡ fits (self.now ++ more.now) }
    {
        self.items.len() <= WORD_LIMIT && more.len() <= WORD_LIMIT - self.items.len()
    }

    /// Puts more bytes behind these.
    pub fn extend_from_slice(&mut self, more: &[u8]) -> Result<(), AllocError>
        ensures ok { OnOk result (self.new ≡ self.old ++ more.now) }
        ensures err { OnErr result (self.new ≡ self.old) }
    {
        self.items.extend_from_slice(more)?;
        Ok(())
    }

    /// Whether these bytes, once a text is written over them from an offset on, are within the word limit.
    #[tactic(auto, unfolding(crate::specs::Texts::overwritten))]
    pub fn fits_overwritten(&self, offset: usize, text: &[u8]) -> bool
        ensures { result ≡ fits (overwritten offset text.now self.now) }
    {
        fits(self.as_slice()) && text.len() <= WORD_LIMIT && offset <= WORD_LIMIT - text.len()
    }

    /// Writes a text over the bytes from an offset on. Where they end before it, zero bytes come between.
    #[tactic(auto, using(crate::proofs::Texts::overwritten_is, crate::proofs::Texts::ends_within))]
    pub fn overwrite(&mut self, offset: usize, text: &[u8]) -> Result<(), AllocError>
        requires { IsTrue (fits (overwritten offset text.now self.old)) }
        ensures ok { OnOk result (self.new ≡ overwritten offset text.now self.old) }
        ensures err { OnErr result (self.new ≡ self.old) }
    {
        fill_up(&mut self.items, offset + text.len())?;
        put(&mut self.items, offset, text);
        Ok(())
    }
}

/// Puts zero bytes behind others, as many as are missing to a length. Where memory runs out, the bytes stay.
fn fill_up(bytes: &mut Vec<u8>, len: usize) -> Result<(), AllocError>
    ensures ok { OnOk result (bytes.new.items ≡
        bytes.old.items ++ replicate (len - length bytes.old.items) 0) }
    ensures err { OnErr result (bytes.new.items ≡ bytes.old.items) }
{
    if bytes.len() < len {
        bytes.resize(len, 0)?;
    }
    Ok(())
}

/// Writes a text over bytes, from an offset on.
fn put(bytes: &mut Vec<u8>, offset: usize, text: &[u8])
    requires { offset + length text.now ≤ length bytes.old.items }
    ensures { bytes.new.items ≡
        take offset bytes.old.items ++
        (text.now ++ drop (offset + length text.now) bytes.old.items) }
{
    bytes[offset..offset + text.len()].copy_from_slice(text);
}
