// Byte strings of which few bytes lie in the value itself.
ghost use Rattle.std.specs.Prelude.{◌≡◌, ◌≤◌, ◌+◌, [], ◌++◌, drop, length, take, IfOk, IfSome, IsTrue, OnErr, OnOk};
ghost use Rattle.std.specs.BTreeMap.Comparable.{le_lt_trans};
ghost use Rattle.std.specs.Cmp.{eq_by_cmp_equiv, partial_equiv_from_equiv, partial_order_from_total};
ghost use Rattle.std.specs.Cmp.Lexicographic.{nat_list_cmp_total};
ghost use Rattle.std.specs.Fmt.{signed_decimal};
ghost use Rattle.std.specs.Ordering.{as_partial_cmp, eq_by_cmp};
ghost use Rattle.std.proofs.Common.{refl};
ghost use Rattle.mr_bytes.specs.Texts.{overwritten};
ghost use Rattle.mr_bytes.specs.Words.{fits};
ghost use Rattle.mr_map.specs.Bytes.{bytes_cmp, held_bytes};

use itoa::Buffer;
use mr_bytes::{Bytes, Word, fits};
use mr_inline::WORD_LIMIT;
use mr_map::{HeldKey, ShortKey};
use mr_order::Query;
use std::alloc::{AllocError, Global};
use std::cmp::Ordering;
use std::marker::Model;

// How many bytes lie in the value itself at most.
const ROOM: usize = 23;

// Where the bytes lie.
#[derive(Drop)]
enum Kept {
    Short(ShortKey),
    // Once bytes have memory of their own, they keep it while they change.
    Long(Bytes),
}

/// A byte string, seen as its bytes: few bytes lie in it, more have memory of their own. It stands in byte order to others.
///
/// Two of few bytes compare as numbers, with no look at other memory. So does a [`ShortKey`] with one of few bytes, which a
/// look-up makes once.
pub struct CompactBytes {
    kept: Kept,
}

// By hand, so that it is one call wherever a value goes (docs/PROVING.md).
impl Drop for CompactBytes {
    fn drop(self) {
        let CompactBytes { kept: _ } = self;
    }
}

impl Model for CompactBytes {
    ghost use Rattle.std.specs.Prelude.{ℕ, List};
    ghost use Rattle.mr_value.specs.Compact.{kept_bytes};

    ghost Value = { List ℕ };

    ghost view = { λ a. kept_bytes a.kept };
}

impl CompactBytes {
    /// No bytes. It takes no memory.
    pub fn new() -> CompactBytes
        ensures { result ≡ [] }
    {
        CompactBytes::of_short(no_bytes())
    }

    /// The text of a number, which is short.
    pub fn from_i64(alloc: Global, number: i64) -> Result<CompactBytes, AllocError>
        ensures { IfOk result (λ text. text ≡ signed_decimal number) }
    {
        let mut buffer = Buffer::new();
        CompactBytes::copied(alloc, buffer.format(number).as_bytes())
    }

    /// A copy of the bytes. Few bytes take no memory.
    pub fn copied(alloc: Global, bytes: &[u8]) -> Result<CompactBytes, AllocError>
        ensures { IfOk result (λ copy. copy ≡ bytes.now) }
    {
        match ShortKey::of(bytes) {
            Some(short) => Ok(CompactBytes::of_short(short)),
            None => Ok(CompactBytes::of_long(Bytes::from_slice(alloc, bytes)?)),
        }
    }

    /// The bytes of a word. Few bytes take no memory; more are moved where the word owns them, and copied where it borrows
    /// them.
    pub fn from_word(alloc: Global, word: Word<'_>) -> Result<CompactBytes, AllocError>
        ensures { IfOk result (λ bytes. bytes ≡ word.entry) }
    {
        match ShortKey::of(word.as_slice()) {
            Some(short) => Ok(CompactBytes::of_short(short)),
            None => Ok(CompactBytes::of_long(word.into_bytes(alloc)?)),
        }
    }

    /// The same bytes. It takes no memory, and gives that of few bytes back.
    pub fn from_bytes(bytes: Bytes) -> CompactBytes
        ensures { result ≡ bytes }
    {
        match ShortKey::of(bytes.as_slice()) {
            Some(short) => CompactBytes::of_short(short),
            None => CompactBytes::of_long(bytes),
        }
    }

    /// The bytes of a key that a map held, which stay where they are. It takes no memory.
    pub fn from_held(key: HeldKey) -> CompactBytes
        ensures { result ≡ held_bytes key }
    {
        match key {
            HeldKey::Short(short) => CompactBytes::of_short(short),
            HeldKey::Long(bytes) => CompactBytes::of_long(Bytes::from_vec(bytes)),
        }
    }

    /// The few bytes of a key, which lie in it.
    fn of_short(short: ShortKey) -> CompactBytes
        ensures { result ≡ short }
    {
        CompactBytes {
            kept: Kept::Short(short),
        }
    }

    /// These bytes, which keep their memory.
    fn of_long(bytes: Bytes) -> CompactBytes
        ensures { result ≡ bytes }
    {
        CompactBytes {
            kept: Kept::Long(bytes),
        }
    }

    /// The bytes.
    pub fn as_slice(&self) -> &[u8]
        ensures { result.now ≡ self.now }
    {
        match &self.kept {
            Kept::Short(short) => short.as_slice(),
            Kept::Long(bytes) => bytes.as_slice(),
        }
    }

    /// Whether these bytes with more behind them are within the word limit.
    pub fn fits_with(&self, more: &[u8]) -> bool
        ensures { result ≡ fits (self.now ++ more.now) }
    {
        let len = self.as_slice().len();
        len <= WORD_LIMIT && more.len() <= WORD_LIMIT - len
    }

    /// Puts more bytes behind these. Where memory runs out, the bytes stay.
    pub fn extend_from_slice(&mut self, alloc: Global, more: &[u8]) -> Result<(), AllocError>
        ensures ok { OnOk result (self.new ≡ self.old ++ more.now) }
        ensures err { OnErr result (self.new ≡ self.old) }
    {
        if let Kept::Long(bytes) = &mut self.kept {
            return bytes.extend_from_slice(more);
        }
        *self = extended(alloc, self.as_slice(), more)?;
        Ok(())
    }

    /// Whether these bytes, once a text is written over them from an offset on, are within the word limit.
    #[tactic(auto, unfolding(mr_bytes::specs::Texts::overwritten))]
    pub fn fits_overwritten(&self, offset: usize, text: &[u8]) -> bool
        ensures { result ≡ fits (overwritten offset text.now self.now) }
    {
        fits(self.as_slice()) && text.len() <= WORD_LIMIT && offset <= WORD_LIMIT - text.len()
    }

    /// Writes a text over the bytes from an offset on. Where they end before it, zero bytes come between. Where memory runs
    /// out, the bytes stay.
    pub fn overwrite(&mut self, alloc: Global, offset: usize, text: &[u8]) -> Result<(), AllocError>
        requires { IsTrue (fits (overwritten offset text.now self.old)) }
        ensures ok { OnOk result (self.new ≡ overwritten offset text.now self.old) }
        ensures err { OnErr result (self.new ≡ self.old) }
    {
        if let Kept::Long(bytes) = &mut self.kept {
            return bytes.overwrite(offset, text);
        }
        *self = overwritten(alloc, self.as_slice(), offset, text)?;
        Ok(())
    }

    /// How few bytes stand to these.
    #[inline]
    fn compare_short(&self, short: &ShortKey) -> Ordering
        ensures { result ≡ bytes_cmp short.now self.now }
    {
        match &self.kept {
            Kept::Short(kept) => short.cmp(kept),
            Kept::Long(kept) => compare_slices(short.as_slice(), kept.as_slice()),
        }
    }
}

/// The key of no bytes.
fn no_bytes() -> ShortKey
    ensures { result ≡ [] }
{
    match ShortKey::of(b"") {
        Some(none) => none,
        None => unreachable!(),
    }
}

/// Bytes with more behind them. They take no memory where they are few.
fn extended(alloc: Global, bytes: &[u8], more: &[u8]) -> Result<CompactBytes, AllocError>
    ensures { IfOk result (λ all. all ≡ bytes.now ++ more.now) }
{
    if let Some(short) = few_overwritten(bytes, bytes.len(), more) {
        return Ok(CompactBytes::of_short(short));
    }
    let mut all = Bytes::from_slice(alloc, bytes)?;
    all.extend_from_slice(more)?;
    Ok(CompactBytes::of_long(all))
}

/// Bytes over which a text is written from an offset on. They take no memory where they are few.
fn overwritten(
    alloc: Global,
    bytes: &[u8],
    offset: usize,
    text: &[u8],
) -> Result<CompactBytes, AllocError>
    requires { IsTrue (fits (overwritten offset text.now bytes.now)) }
    ensures { IfOk result (λ all. all ≡ overwritten offset text.now bytes.now) }
{
    if let Some(short) = few_overwritten(bytes, offset, text) {
        return Ok(CompactBytes::of_short(short));
    }
    let mut all = Bytes::from_slice(alloc, bytes)?;
    all.overwrite(offset, text)?;
    Ok(CompactBytes::of_long(all))
}

/// Bytes over which a text is written from an offset on, where they are few. None where the text ends past that.
fn few_overwritten(bytes: &[u8], offset: usize, text: &[u8]) -> Option<ShortKey>
    ensures { IfSome result (λ all. all ≡ overwritten offset text.now bytes.now) }
{
    if bytes.len() > ROOM || text.len() > ROOM || offset > ROOM - text.len() {
        return None;
    }
    let mut room = [0u8; ROOM];
    let all = &mut room[..bytes.len().max(offset + text.len())];
    put(all, 0, bytes);
    put(all, offset, text);
    ShortKey::of(all)
}

/// Writes a text over bytes, from an offset on.
fn put(bytes: &mut [u8], offset: usize, text: &[u8])
    requires { offset + length text.now ≤ length bytes.old }
    ensures { bytes.new ≡
        take offset bytes.old ++ (text.now ++ drop (offset + length text.now) bytes.old) }
{
    bytes[offset..offset + text.len()].copy_from_slice(text);
}

/// How two byte strings stand to each other, in byte order.
fn compare_slices<'x>(a: &'x [u8], b: &'x [u8]) -> Ordering
    ensures { result ≡ bytes_cmp a.now b.now }
{
    a.cmp(&b)
}

impl PartialEq for CompactBytes {
    ghost eq = { eq_by_cmp bytes_cmp };

    ghost laws = { partial_equiv_from_equiv (eq_by_cmp_equiv nat_list_cmp_total) };

    fn eq(&self, other: &CompactBytes) -> bool {
        self.cmp(other).is_eq()
    }
}

impl Eq for CompactBytes {
    ghost laws = { eq_by_cmp_equiv nat_list_cmp_total };
}

impl PartialOrd for CompactBytes {
    ghost partial_cmp = { as_partial_cmp bytes_cmp };

    ghost laws = { partial_order_from_total nat_list_cmp_total };

    fn partial_cmp(&self, other: &CompactBytes) -> Option<Ordering> {
        Some(self.cmp(other))
    }
}

impl Ord for CompactBytes {
    ghost cmp = { bytes_cmp };

    ghost total = { nat_list_cmp_total };

    ghost matches_partial_cmp = { λ x y. refl };

    ghost matches_eq = { λ x y. refl };

    fn cmp(&self, other: &CompactBytes) -> Ordering {
        match &self.kept {
            Kept::Short(short) => other.compare_short(short),
            Kept::Long(bytes) => compare_slices(bytes.as_slice(), other.as_slice()),
        }
    }
}

impl Query<CompactBytes> for &ShortKey {
    ghost compare = { λ q. bytes_cmp q.now };

    ghost below_greater = { λ q. le_lt_trans nat_list_cmp_total q.now };

    fn compare(&self, item: &CompactBytes) -> Ordering {
        item.compare_short(*self)
    }
}

impl Query<CompactBytes> for &[u8] {
    ghost compare = { λ q. bytes_cmp q.now };

    ghost below_greater = { λ q. le_lt_trans nat_list_cmp_total q.now };

    fn compare(&self, item: &CompactBytes) -> Ordering {
        compare_slices(*self, item.as_slice())
    }
}
