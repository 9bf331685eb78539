// Which commands are writes.
ghost use Rattle.std.specs.Prelude.{◌≡◌};
ghost use Rattle.mr_commands.specs.Writes.{writes, text_writes, key_writes, hash_writes, list_writes, set_writes, zset_writes};

use mr_ask::Ask;
use mr_cmd_hash::HashAsk;
use mr_cmd_key::KeyAsk;
use mr_cmd_list::ListAsk;
use mr_cmd_set::SetAsk;
use mr_cmd_string::TextAsk;
use mr_cmd_zset::ZSetAsk;

/// Whether the command may have an effect of its own. A replica refuses it then, also where it would change nothing.
pub fn writes(ask: &Ask<'_, '_>) -> bool
    ensures { result ≡ writes ask.now }
{
    match ask {
        Ask::Texts(ask) => text_writes(ask),
        Ask::Keys(ask) => key_writes(ask),
        Ask::Hashes(ask) => hash_writes(ask),
        Ask::Lists(ask) => list_writes(ask),
        Ask::Sets(ask) => set_writes(ask),
        Ask::SortedSets(ask) => zset_writes(ask),
        Ask::Server(_) | Ask::Node(_) => false,
    }
}

/// Whether the command on strings may have an effect of its own.
fn text_writes(ask: &TextAsk<'_, '_>) -> bool
    ensures { result ≡ text_writes ask.now }
{
    match ask {
        TextAsk::Set { .. }
        | TextAsk::SetEx { .. }
        | TextAsk::PSetEx { .. }
        | TextAsk::SetNx { .. }
        | TextAsk::GetSet { .. }
        | TextAsk::GetDel { .. }
        | TextAsk::MSet { .. }
        | TextAsk::MSetNx { .. }
        | TextAsk::Append { .. }
        | TextAsk::SetRange { .. }
        | TextAsk::Increase { .. } => true,
        TextAsk::Get { .. }
        | TextAsk::StrLen { .. }
        | TextAsk::GetRange { .. }
        | TextAsk::MGet { .. } => false,
    }
}

/// Whether the command on keys may have an effect of its own.
fn key_writes(ask: &KeyAsk<'_, '_>) -> bool
    ensures { result ≡ key_writes ask.now }
{
    match ask {
        KeyAsk::Del { .. }
        | KeyAsk::Unlink { .. }
        | KeyAsk::Rename { .. }
        | KeyAsk::RenameNx { .. }
        | KeyAsk::Clear { .. }
        | KeyAsk::Expire { .. }
        | KeyAsk::Persist { .. } => true,
        KeyAsk::Exists { .. }
        | KeyAsk::KeyType { .. }
        | KeyAsk::Keys { .. }
        | KeyAsk::Scan { .. }
        | KeyAsk::DbSize
        | KeyAsk::Ttl { .. }
        | KeyAsk::PTtl { .. }
        | KeyAsk::ExpireTime { .. }
        | KeyAsk::PExpireTime { .. } => false,
    }
}

/// Whether the command on a hash may have an effect of its own.
fn hash_writes(ask: &HashAsk<'_, '_>) -> bool
    ensures { result ≡ hash_writes ask.now }
{
    match ask {
        HashAsk::HSet { .. }
        | HashAsk::HSetNx { .. }
        | HashAsk::HDel { .. }
        | HashAsk::HIncrBy { .. } => true,
        HashAsk::HGet { .. }
        | HashAsk::HMGet { .. }
        | HashAsk::ListHash { .. }
        | HashAsk::HExists { .. }
        | HashAsk::HLen { .. }
        | HashAsk::HStrLen { .. } => false,
    }
}

/// Whether the command on a list may have an effect of its own.
fn list_writes(ask: &ListAsk<'_, '_>) -> bool
    ensures { result ≡ list_writes ask.now }
{
    match ask {
        ListAsk::Push { .. }
        | ListAsk::Pop { .. }
        | ListAsk::LSet { .. }
        | ListAsk::LInsert { .. }
        | ListAsk::LRem { .. }
        | ListAsk::LTrim { .. }
        | ListAsk::LMove { .. }
        | ListAsk::RPopLPush { .. } => true,
        ListAsk::LLen { .. } | ListAsk::LRange { .. } | ListAsk::LIndex { .. } => false,
    }
}

/// Whether the command on sets may have an effect of its own.
fn set_writes(ask: &SetAsk<'_, '_>) -> bool
    ensures { result ≡ set_writes ask.now }
{
    match ask {
        SetAsk::SAdd { .. } | SetAsk::SRem { .. } | SetAsk::SPop { .. } | SetAsk::SMove { .. } =>
            true,
        SetAsk::SIsMember { .. }
        | SetAsk::SMIsMember { .. }
        | SetAsk::SMembers { .. }
        | SetAsk::SCard { .. }
        | SetAsk::SRandMember { .. }
        | SetAsk::Combine { .. } => false,
    }
}

/// Whether the command on a sorted set may have an effect of its own.
fn zset_writes(ask: &ZSetAsk<'_, '_>) -> bool
    ensures { result ≡ zset_writes ask.now }
{
    match ask {
        ZSetAsk::ZAdd { .. }
        | ZSetAsk::ZIncrBy { .. }
        | ZSetAsk::ZRem { .. }
        | ZSetAsk::TakePairs { .. }
        | ZSetAsk::ZRemRangeByRank { .. }
        | ZSetAsk::ZRemRangeByScore { .. } => true,
        ZSetAsk::ZCard { .. }
        | ZSetAsk::ZCount { .. }
        | ZSetAsk::ZScore { .. }
        | ZSetAsk::ZMScore { .. }
        | ZSetAsk::GetRank { .. }
        | ZSetAsk::RangeByRank { .. }
        | ZSetAsk::RangeByScore { .. } => false,
    }
}
