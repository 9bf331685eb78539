// How keys are hashed: SipHash-1-3 (Aumasson and Bernstein, 2012) over words, or over groups of seven bytes.
ghost use Rattle.std.specs.Prelude.{◌≡◌};
ghost use Rattle.mr_map.specs.Hashing.{absorbed, fed_by, finished, rounded, with_byte};

use std::hash::{BuildHasher, Hasher, RandomState};

// Seven bytes behind a 1 are this number or a larger one.
const FULL: u64 = 0x100_0000_0000_0000;

/// The seeded hash of a key. A short key hands over three words, and each is fed at once. Of a longer one std hands over its
/// length and then byte by byte: seven bytes are fed at a time, and these groups tell the length as well, so it isn't fed.
#[derive(Clone, Copy)]
pub(crate) struct KeyHasher {
    v0: u64,
    v1: u64,
    v2: u64,
    v3: u64,
    // A 1 and the bytes that aren't fed yet, the last of them lowest. 0 behind words, which leave none open.
    group: u64,
}

impl KeyHasher {
    /// This hasher after one round of SipHash (its authors' SipRound).
    #[inline]
    #[tactic(auto, unfolding(crate::specs::Hashing::rounded))]
    fn round(self) -> KeyHasher
        ensures { result ≡ rounded self }
    {
        let a0 = self.v0.wrapping_add(self.v1);
        let a2 = self.v2.wrapping_add(self.v3);
        let a1 = self.v1.rotate_left(13) ^ a0;
        let a3 = self.v3.rotate_left(16) ^ a2;
        let b2 = a2.wrapping_add(a1);
        let b0 = a0.rotate_left(32).wrapping_add(a3);
        KeyHasher {
            v0: b0,
            v1: a1.rotate_left(17) ^ b2,
            v2: b2.rotate_left(32),
            v3: a3.rotate_left(21) ^ b0,
            group: self.group,
        }
    }

    /// This hasher once a group has gone in: the next one is open.
    #[inline]
    #[tactic(auto, unfolding(crate::specs::Hashing::absorbed))]
    fn absorb(self, word: u64) -> KeyHasher
        ensures { result ≡ absorbed self word }
    {
        let mixed = KeyHasher {
            v0: self.v0,
            v1: self.v1,
            v2: self.v2,
            v3: self.v3 ^ word,
            group: 1,
        }
        .round();
        KeyHasher {
            v0: mixed.v0 ^ word,
            v1: mixed.v1,
            v2: mixed.v2,
            v3: mixed.v3,
            group: mixed.group,
        }
    }

    /// A byte goes in, behind those that went in before.
    #[inline]
    #[tactic(auto, unfolding(crate::specs::Hashing::with_byte))]
    fn push(&mut self, byte: u8)
        ensures { self.new ≡ with_byte self.old byte }
    {
        let group = self.group.wrapping_mul(256).wrapping_add(u64::from(byte));
        if group < FULL {
            self.group = group;
        } else {
            *self = self.absorb(group);
        }
    }
}

impl Hasher for KeyHasher {
    ghost write = { fed_by };

    ghost finish = { finished };

    #[inline]
    fn write(&mut self, bytes: &[u8]) {
        match bytes {
            [byte] => self.push(*byte),
            [a, b, c, d, e, f, g, h] => {
                *self = self.absorb(u64::from_le_bytes([*a, *b, *c, *d, *e, *f, *g, *h]));
                self.group = 0;
            }
            _ => {}
        }
    }

    #[inline]
    #[tactic(auto, unfolding(crate::specs::Hashing::finished))]
    fn finish(&self) -> u64 {
        let fed = if self.group == 0 {
            *self
        } else {
            self.absorb(self.group)
        };
        let last = KeyHasher {
            v0: fed.v0,
            v1: fed.v1,
            v2: fed.v2 ^ 0xff,
            v3: fed.v3,
            group: 1,
        }
        .round()
        .round()
        .round();
        last.v0 ^ last.v1 ^ last.v2 ^ last.v3
    }
}

/// Makes the hasher of each key, by two keys of its own.
#[derive(Clone, Copy)]
pub(crate) struct KeySeed {
    key0: u64,
    key1: u64,
}

impl KeySeed {
    /// Two keys that nobody can tell who doesn't know the seed.
    pub(crate) fn of(seed: RandomState) -> KeySeed {
        KeySeed {
            key0: drawn(seed, 0),
            key1: drawn(seed, 1),
        }
    }
}

/// What a seed makes of a number.
fn drawn(seed: RandomState, which: u64) -> u64 {
    let mut hasher = seed.build_hasher();
    hasher.write_u64(which);
    hasher.finish()
}

impl BuildHasher for KeySeed {
    type Hasher = KeyHasher;

    ghost use Rattle.mr_map.specs.Hashing.{fresh};

    ghost build_hasher = { fresh };

    #[inline]
    #[tactic(auto, unfolding(crate::specs::Hashing::fresh))]
    fn build_hasher(&self) -> KeyHasher {
        KeyHasher {
            v0: self.key0 ^ 0x736f_6d65_7073_6575,
            v1: self.key1 ^ 0x646f_7261_6e64_6f6d,
            v2: self.key0 ^ 0x6c79_6765_6e65_7261,
            v3: self.key1 ^ 0x7465_6462_7974_6573,
            group: 1,
        }
    }
}
