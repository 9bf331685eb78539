// The first words of effects.
ghost use Rattle.std.specs.Prelude.{◌≡◌};
ghost use Rattle.mr_effect.specs.Names.{text_of, is_named, named};

/// The first word of an effect.
#[derive(Clone, Copy, Debug, PartialEq, Eq)]
pub enum EffectName {
    Set,
    MSet,
    Append,
    SetRange,
    IncrBy,
    Del,
    PExpireAt,
    Persist,
    Rename,
    FlushAll,
    Ping,
    HSet,
    HDel,
    LPush,
    RPush,
    LPop,
    RPop,
    LSet,
    LInsert,
    LRem,
    LTrim,
    LMove,
    SAdd,
    SRem,
    SMove,
    ZAdd,
    ZRem,
}

impl EffectName {
    /// All of them.
    pub const ALL: [EffectName; 27] = [
        EffectName::Set,
        EffectName::MSet,
        EffectName::Append,
        EffectName::SetRange,
        EffectName::IncrBy,
        EffectName::Del,
        EffectName::PExpireAt,
        EffectName::Persist,
        EffectName::Rename,
        EffectName::FlushAll,
        EffectName::Ping,
        EffectName::HSet,
        EffectName::HDel,
        EffectName::LPush,
        EffectName::RPush,
        EffectName::LPop,
        EffectName::RPop,
        EffectName::LSet,
        EffectName::LInsert,
        EffectName::LRem,
        EffectName::LTrim,
        EffectName::LMove,
        EffectName::SAdd,
        EffectName::SRem,
        EffectName::SMove,
        EffectName::ZAdd,
        EffectName::ZRem,
    ];

    /// The name that a word is, if it is one. Names are in upper case alone.
    #[tactic(auto, unfolding(crate::specs::Names::named))]
    pub fn of(word: &[u8]) -> Option<EffectName>
        ensures { result ≡ named word.now }
    {
        EffectName::ALL.iter().copied().find(|name| name.is(word))
    }

    /// Whether a word is this name.
    fn is(self, word: &[u8]) -> bool
        ensures { result ≡ is_named word.now self }
    {
        self.text() == word
    }

    /// The word.
    pub fn text(self) -> &'static [u8]
        ensures { result.now ≡ text_of self }
    {
        match self {
            EffectName::Set => b"SET",
            EffectName::MSet => b"MSET",
            EffectName::Append => b"APPEND",
            EffectName::SetRange => b"SETRANGE",
            EffectName::IncrBy => b"INCRBY",
            EffectName::Del => b"DEL",
            EffectName::PExpireAt => b"PEXPIREAT",
            EffectName::Persist => b"PERSIST",
            EffectName::Rename => b"RENAME",
            EffectName::FlushAll => b"FLUSHALL",
            EffectName::Ping => b"PING",
            EffectName::HSet => b"HSET",
            EffectName::HDel => b"HDEL",
            EffectName::LPush => b"LPUSH",
            EffectName::RPush => b"RPUSH",
            EffectName::LPop => b"LPOP",
            EffectName::RPop => b"RPOP",
            EffectName::LSet => b"LSET",
            EffectName::LInsert => b"LINSERT",
            EffectName::LRem => b"LREM",
            EffectName::LTrim => b"LTRIM",
            EffectName::LMove => b"LMOVE",
            EffectName::SAdd => b"SADD",
            EffectName::SRem => b"SREM",
            EffectName::SMove => b"SMOVE",
            EffectName::ZAdd => b"ZADD",
            EffectName::ZRem => b"ZREM",
        }
    }
}
