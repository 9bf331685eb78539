// Short keys, which lie in a tree as they are.
ghost use Rattle.std.specs.Prelude.{◌≡◌, ◌+◌, ◌≤◌, ◌∷◌, ◌++◌, [], IfSome, length};
ghost use Rattle.std.specs.Slice.Scan.{big_endian};
ghost use Rattle.std.specs.Ordering.{as_partial_cmp, eq_by_cmp, nat_cmp, ordering_then};
ghost use Rattle.std.specs.Cmp.{eq_by_cmp_equiv, partial_equiv_from_equiv, partial_order_from_total};
ghost use Rattle.std.specs.Cmp.Lexicographic.{nat_list_cmp_total, same_text, texts_ties};
ghost use Rattle.std.proofs.Common.{ap, refl, sym, ◌∙◌};
ghost use Rattle.mr_map.specs.Bytes.{bytes_cmp};
ghost use Rattle.mr_map.specs.Hashing.{key_words};
ghost use Rattle.mr_map.specs.Short.{if_short, part, room};

use std::cmp::Ordering;
use std::hash::{Hash, Hasher};
use std::marker::Model;

// How many bytes a short key has at most.
const ROOM: usize = 23;

/// A key of at most 23 bytes, seen as its bytes. They lie in the key itself, and compare as numbers do.
#[derive(Drop)]
pub struct ShortKey {
    // The key, and zeros behind it.
    bytes: [u8; ROOM],
    len: u8,
}

impl Model for ShortKey {
    ghost use Rattle.std.specs.Prelude.{ℕ, List, take};
    ghost use Rattle.mr_map.specs.Short.{IsPadded};

    ghost Value = { List ℕ };

    ghost view = { λ a. take a.len a.bytes };

    ghost invariant = { λ a. IsPadded a.bytes a.len };
}

impl ShortKey {
    /// The key with these bytes, if they are few enough.
    pub fn of(key: &[u8]) -> Option<ShortKey>
        ensures few { result ≡ if_short key.now }
        ensures same { IfSome result (λ short. short ≡ key.now) }
    {
        if key.len() > ROOM {
            return None;
        }
        let mut bytes = [0u8; ROOM];
        bytes[..key.len()].copy_from_slice(key);
        Some(ShortKey {
            bytes,
            len: key.len() as u8,
        })
    }

    /// The bytes.
    pub fn as_slice(&self) -> &[u8]
        ensures bytes { result.now ≡ self.now }
        ensures few { length self.now ≤ room }
    {
        &self.bytes[..self.len as usize]
    }
}

/// The number that eight bytes spell, the first of them highest.
#[inline]
fn word_at(bytes: &[u8], at: usize) -> u64
    requires { at + 8 ≤ length bytes.now }
    ensures { result ≡ big_endian 0 (part at 8 bytes.now) }
{
    u64::from_be_bytes([
        bytes[at],
        bytes[at + 1],
        bytes[at + 2],
        bytes[at + 3],
        bytes[at + 4],
        bytes[at + 5],
        bytes[at + 6],
        bytes[at + 7],
    ])
}

/// The number that the last bytes of a key's room spell with its length behind them: the eight bytes before the length are
/// one word in memory, of which the first goes.
#[inline]
fn last_word(bytes: &[u8], len: u8) -> u64
    requires { length bytes.now ≡ room }
    ensures { result ≡ big_endian 0 (part 16 7 bytes.now ++ len ∷ []) }
{
    word_at(bytes, 15)
        .wrapping_mul(256)
        .wrapping_add(u64::from(len))
}

/// Compares padded keys, and then their lengths, as three numbers each.
#[inline]
fn order(a: &[u8], a_len: u8, b: &[u8], b_len: u8) -> Ordering
    requires left { length a.now ≡ room }
    requires right { length b.now ≡ room }
    ensures { result ≡ ordering_then (bytes_cmp a.now b.now) (nat_cmp a_len b_len) }
{
    let (x, y) = (word_at(a, 0), word_at(b, 0));
    if x != y {
        return x.cmp(&y);
    }
    let (z, w) = (word_at(a, 8), word_at(b, 8));
    if z != w {
        return z.cmp(&w);
    }
    last_word(a, a_len).cmp(&last_word(b, b_len))
}

impl PartialEq for ShortKey {
    ghost eq = { eq_by_cmp bytes_cmp };

    ghost laws = { partial_equiv_from_equiv (eq_by_cmp_equiv nat_list_cmp_total) };

    fn eq(&self, other: &ShortKey) -> bool {
        self.cmp(other).is_eq()
    }
}

impl Eq for ShortKey {
    ghost laws = { eq_by_cmp_equiv nat_list_cmp_total };
}

impl PartialOrd for ShortKey {
    ghost partial_cmp = { as_partial_cmp bytes_cmp };

    ghost laws = { partial_order_from_total nat_list_cmp_total };

    fn partial_cmp(&self, other: &ShortKey) -> Option<Ordering> {
        Some(self.cmp(other))
    }
}

impl Ord for ShortKey {
    ghost cmp = { bytes_cmp };

    ghost total = { nat_list_cmp_total };

    ghost matches_partial_cmp = { λ x y. refl };

    ghost matches_eq = { λ x y. refl };

    #[inline]
    fn cmp(&self, other: &ShortKey) -> Ordering {
        order(&self.bytes, self.len, &other.bytes, other.len)
    }
}

impl Hash for ShortKey {
    ghost hash_input = { key_words };

    ghost respects_eq = { λ x y tied. ap key_words (same_text x y (sym (texts_ties x y ∙ tied))) };

    #[inline]
    fn hash<H: Hasher>(&self, state: &mut H) {
        state.write_u64(word_at(&self.bytes, 0));
        state.write_u64(word_at(&self.bytes, 8));
        state.write_u64(last_word(&self.bytes, self.len));
    }
}
