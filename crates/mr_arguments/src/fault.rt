// Why words are no command.
ghost use Rattle.std.specs.Prelude.{◌≡◌};
ghost use Rattle.mr_arguments.specs.Faults.{bad_value, expiring_name, fault_text, invalid_time, wrong_count};
ghost use Rattle.mr_resp.specs.Replies.{error};
ghost use Rattle.mr_resp.specs.ReplyView.{view};

use crate::name::Name;
use mr_resp::Reply;
use std::borrow::CowSlice;
use std::fmt;
use thiserror::Error;

/// Why words are no command. Of several reasons it is the one that stands first here.
#[derive(Clone, Copy, PartialEq, Eq, Debug, Error)]
pub enum AskFault {
    #[error("unknown command")]
    Unknown,
    #[error("wrong number of arguments for '{0}' command")]
    Arity(Name),
    #[error("syntax error")]
    Syntax,
    #[error("value is not an integer or out of range")]
    Integer,
    #[error("invalid expire time in '{0}' command")]
    ExpireTime(ExpiringCommand),
    #[error("{0}")]
    Other(BadValue),
}

/// A command that may set a deadline.
#[derive(Clone, Copy, PartialEq, Eq, Debug)]
pub enum ExpiringCommand {
    Set,
    SetEx,
    PSetEx,
    Expire,
    PExpire,
    ExpireAt,
    PExpireAt,
}

impl ExpiringCommand {
    /// The name that it is called by.
    fn name(self) -> Name
        ensures { result ≡ expiring_name self }
    {
        match self {
            ExpiringCommand::Set => Name::Set,
            ExpiringCommand::SetEx => Name::SetEx,
            ExpiringCommand::PSetEx => Name::PSetEx,
            ExpiringCommand::Expire => Name::Expire,
            ExpiringCommand::PExpire => Name::PExpire,
            ExpiringCommand::ExpireAt => Name::ExpireAt,
            ExpiringCommand::PExpireAt => Name::PExpireAt,
        }
    }
}

/// An argument that is read, and that the command doesn't take.
#[derive(Clone, Copy, PartialEq, Eq, Debug, Error)]
pub enum BadValue {
    /// A count below 0.
    #[error("value is out of range, must be positive")]
    Negative,
    /// Another database than the first.
    #[error("DB index is out of range")]
    Database,
    /// A cursor that isn't a number from 0 to 2^63 - 1.
    #[error("invalid cursor")]
    Cursor,
    /// An offset below 0.
    #[error("offset is out of range")]
    Offset,
    /// A number to be taken away whose opposite doesn't have 64 bits.
    #[error("decrement would overflow")]
    Decrement,
    /// A bound of a range that is neither a score nor infinite.
    #[error("min or max is not a score")]
    Bound,
}

impl AskFault {
    /// The error that is answered. It takes no memory.
    pub fn reply(self) -> Reply
        ensures { view result ≡ error (fault_text self) }
    {
        Reply::Error(CowSlice::Borrowed(self.text()))
    }

    /// The text of the error that is answered.
    fn text(self) -> &'static [u8]
        ensures { result.now ≡ fault_text self }
    {
        match self {
            AskFault::Unknown => b"ERR unknown command",
            AskFault::Arity(name) => wrong_count(name),
            AskFault::Syntax => b"ERR syntax error",
            AskFault::Integer => b"ERR value is not an integer or out of range",
            AskFault::ExpireTime(command) => invalid_time(command),
            AskFault::Other(value) => bad_value(value),
        }
    }
}

/// What is answered to an argument that a command doesn't take.
fn bad_value(value: BadValue) -> &'static [u8]
    ensures { result.now ≡ bad_value value }
{
    match value {
        BadValue::Negative => b"ERR value is out of range, must be positive",
        BadValue::Database => b"ERR DB index is out of range",
        BadValue::Cursor => b"ERR invalid cursor",
        BadValue::Offset => b"ERR offset is out of range",
        BadValue::Decrement => b"ERR decrement would overflow",
        BadValue::Bound => b"ERR min or max is not a score",
    }
}

/// What a command answers to a deadline that it doesn't take.
fn invalid_time(command: ExpiringCommand) -> &'static [u8]
    ensures { result.now ≡ invalid_time command }
{
    match command {
        ExpiringCommand::Set => b"ERR invalid expire time in 'set' command",
        ExpiringCommand::SetEx => b"ERR invalid expire time in 'setex' command",
        ExpiringCommand::PSetEx => b"ERR invalid expire time in 'psetex' command",
        ExpiringCommand::Expire => b"ERR invalid expire time in 'expire' command",
        ExpiringCommand::PExpire => b"ERR invalid expire time in 'pexpire' command",
        ExpiringCommand::ExpireAt => b"ERR invalid expire time in 'expireat' command",
        ExpiringCommand::PExpireAt => b"ERR invalid expire time in 'pexpireat' command",
    }
}

/// What a command answers to a wrong number of arguments.
fn wrong_count(name: Name) -> &'static [u8]
    ensures { result.now ≡ wrong_count name }
{
    match name {
        // commands.txt: wrong_count
        Name::Get => b"ERR wrong number of arguments for 'get' command",
        Name::Set => b"ERR wrong number of arguments for 'set' command",
        Name::Del => b"ERR wrong number of arguments for 'del' command",
        Name::Unlink => b"ERR wrong number of arguments for 'unlink' command",
        Name::Exists => b"ERR wrong number of arguments for 'exists' command",
        Name::KeyType => b"ERR wrong number of arguments for 'type' command",
        Name::StrLen => b"ERR wrong number of arguments for 'strlen' command",
        Name::GetRange => b"ERR wrong number of arguments for 'getrange' command",
        Name::MGet => b"ERR wrong number of arguments for 'mget' command",
        Name::SetNx => b"ERR wrong number of arguments for 'setnx' command",
        Name::GetSet => b"ERR wrong number of arguments for 'getset' command",
        Name::GetDel => b"ERR wrong number of arguments for 'getdel' command",
        Name::Keys => b"ERR wrong number of arguments for 'keys' command",
        Name::Scan => b"ERR wrong number of arguments for 'scan' command",
        Name::DbSize => b"ERR wrong number of arguments for 'dbsize' command",
        Name::MSet => b"ERR wrong number of arguments for 'mset' command",
        Name::MSetNx => b"ERR wrong number of arguments for 'msetnx' command",
        Name::Append => b"ERR wrong number of arguments for 'append' command",
        Name::SetRange => b"ERR wrong number of arguments for 'setrange' command",
        Name::Incr => b"ERR wrong number of arguments for 'incr' command",
        Name::Decr => b"ERR wrong number of arguments for 'decr' command",
        Name::IncrBy => b"ERR wrong number of arguments for 'incrby' command",
        Name::DecrBy => b"ERR wrong number of arguments for 'decrby' command",
        Name::Rename => b"ERR wrong number of arguments for 'rename' command",
        Name::RenameNx => b"ERR wrong number of arguments for 'renamenx' command",
        Name::FlushAll => b"ERR wrong number of arguments for 'flushall' command",
        Name::FlushDb => b"ERR wrong number of arguments for 'flushdb' command",
        Name::SetEx => b"ERR wrong number of arguments for 'setex' command",
        Name::PSetEx => b"ERR wrong number of arguments for 'psetex' command",
        Name::Expire => b"ERR wrong number of arguments for 'expire' command",
        Name::PExpire => b"ERR wrong number of arguments for 'pexpire' command",
        Name::ExpireAt => b"ERR wrong number of arguments for 'expireat' command",
        Name::PExpireAt => b"ERR wrong number of arguments for 'pexpireat' command",
        Name::Ttl => b"ERR wrong number of arguments for 'ttl' command",
        Name::PTtl => b"ERR wrong number of arguments for 'pttl' command",
        Name::ExpireTime => b"ERR wrong number of arguments for 'expiretime' command",
        Name::PExpireTime => b"ERR wrong number of arguments for 'pexpiretime' command",
        Name::Persist => b"ERR wrong number of arguments for 'persist' command",
        Name::HSet => b"ERR wrong number of arguments for 'hset' command",
        Name::HMSet => b"ERR wrong number of arguments for 'hmset' command",
        Name::HSetNx => b"ERR wrong number of arguments for 'hsetnx' command",
        Name::HGet => b"ERR wrong number of arguments for 'hget' command",
        Name::HMGet => b"ERR wrong number of arguments for 'hmget' command",
        Name::HGetAll => b"ERR wrong number of arguments for 'hgetall' command",
        Name::HKeys => b"ERR wrong number of arguments for 'hkeys' command",
        Name::HVals => b"ERR wrong number of arguments for 'hvals' command",
        Name::HDel => b"ERR wrong number of arguments for 'hdel' command",
        Name::HExists => b"ERR wrong number of arguments for 'hexists' command",
        Name::HLen => b"ERR wrong number of arguments for 'hlen' command",
        Name::HStrLen => b"ERR wrong number of arguments for 'hstrlen' command",
        Name::HIncrBy => b"ERR wrong number of arguments for 'hincrby' command",
        Name::LPush => b"ERR wrong number of arguments for 'lpush' command",
        Name::RPush => b"ERR wrong number of arguments for 'rpush' command",
        Name::LPushX => b"ERR wrong number of arguments for 'lpushx' command",
        Name::RPushX => b"ERR wrong number of arguments for 'rpushx' command",
        Name::LPop => b"ERR wrong number of arguments for 'lpop' command",
        Name::RPop => b"ERR wrong number of arguments for 'rpop' command",
        Name::LLen => b"ERR wrong number of arguments for 'llen' command",
        Name::LRange => b"ERR wrong number of arguments for 'lrange' command",
        Name::LIndex => b"ERR wrong number of arguments for 'lindex' command",
        Name::LSet => b"ERR wrong number of arguments for 'lset' command",
        Name::LInsert => b"ERR wrong number of arguments for 'linsert' command",
        Name::LRem => b"ERR wrong number of arguments for 'lrem' command",
        Name::LTrim => b"ERR wrong number of arguments for 'ltrim' command",
        Name::LMove => b"ERR wrong number of arguments for 'lmove' command",
        Name::RPopLPush => b"ERR wrong number of arguments for 'rpoplpush' command",
        Name::SAdd => b"ERR wrong number of arguments for 'sadd' command",
        Name::SRem => b"ERR wrong number of arguments for 'srem' command",
        Name::SIsMember => b"ERR wrong number of arguments for 'sismember' command",
        Name::SMIsMember => b"ERR wrong number of arguments for 'smismember' command",
        Name::SMembers => b"ERR wrong number of arguments for 'smembers' command",
        Name::SCard => b"ERR wrong number of arguments for 'scard' command",
        Name::SPop => b"ERR wrong number of arguments for 'spop' command",
        Name::SRandMember => b"ERR wrong number of arguments for 'srandmember' command",
        Name::SMove => b"ERR wrong number of arguments for 'smove' command",
        Name::SInter => b"ERR wrong number of arguments for 'sinter' command",
        Name::SUnion => b"ERR wrong number of arguments for 'sunion' command",
        Name::SDiff => b"ERR wrong number of arguments for 'sdiff' command",
        Name::ZAdd => b"ERR wrong number of arguments for 'zadd' command",
        Name::ZIncrBy => b"ERR wrong number of arguments for 'zincrby' command",
        Name::ZRem => b"ERR wrong number of arguments for 'zrem' command",
        Name::ZCard => b"ERR wrong number of arguments for 'zcard' command",
        Name::ZCount => b"ERR wrong number of arguments for 'zcount' command",
        Name::ZScore => b"ERR wrong number of arguments for 'zscore' command",
        Name::ZMScore => b"ERR wrong number of arguments for 'zmscore' command",
        Name::ZRank => b"ERR wrong number of arguments for 'zrank' command",
        Name::ZRevRank => b"ERR wrong number of arguments for 'zrevrank' command",
        Name::ZRange => b"ERR wrong number of arguments for 'zrange' command",
        Name::ZRevRange => b"ERR wrong number of arguments for 'zrevrange' command",
        Name::ZRangeByScore => b"ERR wrong number of arguments for 'zrangebyscore' command",
        Name::ZRevRangeByScore => b"ERR wrong number of arguments for 'zrevrangebyscore' command",
        Name::ZPopMin => b"ERR wrong number of arguments for 'zpopmin' command",
        Name::ZPopMax => b"ERR wrong number of arguments for 'zpopmax' command",
        Name::ZRemRangeByRank => b"ERR wrong number of arguments for 'zremrangebyrank' command",
        Name::ZRemRangeByScore => b"ERR wrong number of arguments for 'zremrangebyscore' command",
        Name::Ping => b"ERR wrong number of arguments for 'ping' command",
        Name::Echo => b"ERR wrong number of arguments for 'echo' command",
        Name::Select => b"ERR wrong number of arguments for 'select' command",
        Name::Quit => b"ERR wrong number of arguments for 'quit' command",
        Name::BgRewriteAof => b"ERR wrong number of arguments for 'bgrewriteaof' command",
        Name::Info => b"ERR wrong number of arguments for 'info' command",
        Name::Role => b"ERR wrong number of arguments for 'role' command",
        Name::Shutdown => b"ERR wrong number of arguments for 'shutdown' command",
        Name::Command => b"ERR wrong number of arguments for 'command' command",
        Name::Client => b"ERR wrong number of arguments for 'client' command",
        Name::Psync => b"ERR wrong number of arguments for 'psync' command",
        Name::ReplConf => b"ERR wrong number of arguments for 'replconf' command",
        Name::ReplicaOf => b"ERR wrong number of arguments for 'replicaof' command",
        Name::SlaveOf => b"ERR wrong number of arguments for 'slaveof' command",
        Name::Multi => b"ERR wrong number of arguments for 'multi' command",
        Name::Exec => b"ERR wrong number of arguments for 'exec' command",
        Name::Discard => b"ERR wrong number of arguments for 'discard' command",
        // commands.txt ends
    }
}

impl fmt::Display for Name {
    ghost use Rattle.std.specs.Prelude.{Some};
    ghost use Rattle.mr_arguments.specs.Names.{text_of};

    ghost output = { λ name. Some (text_of name) };

    fn fmt<W: fmt::Write>(&self, f: &mut fmt::Formatter<W>) -> fmt::Result {
        f.write_str(self.text())
    }
}

impl fmt::Display for ExpiringCommand {
    ghost use Rattle.std.specs.Prelude.{Some};
    ghost use Rattle.mr_arguments.specs.Faults.{expiring_name};
    ghost use Rattle.mr_arguments.specs.Names.{text_of};

    ghost output = { λ command. Some (text_of (expiring_name command)) };

    fn fmt<W: fmt::Write>(&self, f: &mut fmt::Formatter<W>) -> fmt::Result {
        f.write_str(self.name().text())
    }
}
