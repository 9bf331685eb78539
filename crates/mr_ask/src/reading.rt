// Commands from the words of a request.
ghost use Rattle.std.specs.Prelude.{◌≡◌, ◌<◌, length, map, IsTrue, IfOk};
ghost use Rattle.std.specs.List.{list_all};
ghost use Rattle.std.specs.Cow.{cow_slice_items};
ghost use Rattle.mr_bytes.specs.Words.{fits};
ghost use Rattle.mr_ask.specs.Asks.{asked, reading, of_kind};
ghost use Rattle.mr_ask.specs.Carried.{AskFits};
ghost use Rattle.mr_ask.specs.Spelled.{Spells};
ghost use Rattle.mr_ask.specs.Kinds.{kind_of};
ghost use Rattle.mr_ask.specs.Kinds as kind;
ghost use Rattle.mr_ask.specs.declared.ask.Ask.TheVariants as ask;

use crate::ask::Ask;
use mr_arguments::{Arguments, AskFault, ExpiryUnit, Name};
use mr_bytes::End;
use mr_cmd_hash::{FieldsReply, HashAsk, HashPart, arguments as hashes};
use mr_cmd_key::{Databases, KeyAsk, arguments as keys};
use mr_cmd_list::{ListAsk, PushTo, arguments as lists};
use mr_cmd_node::{NodeAsk, arguments as node};
use mr_cmd_server::{ServerAsk, arguments as server};
use mr_cmd_set::{SetAsk, SetOperation, arguments as sets};
use mr_cmd_string::{Amount, TextAsk, arguments as texts};
use mr_cmd_zset::{ZSetAsk, arguments as zset};
use mr_zset_options::Order;
use std::borrow::CowSlice;

type Reading<'a, 't> = Result<Ask<'a, 't>, AskFault>;

/// The command that the words of a request are. Nothing is copied.
pub fn read<'a, 't>(words: &'a [CowSlice<'t, u8>]) -> Result<Ask<'a, 't>, AskFault>
    requires { 0 < length words.now }
    ensures asked { result ≡ asked (map cow_slice_items words.now) }

    // of the words that a command carries
    ensures spelled { IfOk result (λ ask. Spells (map cow_slice_items words.now) ask) }
    ensures fits { IsTrue (list_all fits (map cow_slice_items words.now)) →
        IfOk result (λ ask. AskFits ask) }
{
    command(words)
}

/// The command that the words of a request are, of which there is one at least. It is a fault where the first is no
/// name, or what stands behind it are no arguments of its.
fn command<'a, 't>(words: Arguments<'a, 't>) -> Reading<'a, 't>
    requires { 0 < length words.now }
    ensures { result ≡ asked (map cow_slice_items words.now) }
{
    match Name::of(words[0].as_slice()) {
        None => Err(AskFault::Unknown),
        Some(name) => read_arguments(name, &words[1..]),
    }
}

/// The command of this name with these arguments, or the fault that they have. Each kind of command is read by a
/// function of its own, so that a request makes room on the stack for the forms of one kind alone.
fn read_arguments<'a, 't>(name: Name, arguments: Arguments<'a, 't>) -> Reading<'a, 't>
    ensures { result ≡ reading name (map cow_slice_items arguments.now) }
{
    match name {
        // commands.txt: kinds
        Name::Get
        | Name::Set
        | Name::StrLen
        | Name::GetRange
        | Name::MGet
        | Name::SetNx
        | Name::GetSet
        | Name::GetDel
        | Name::MSet
        | Name::MSetNx
        | Name::Append
        | Name::SetRange
        | Name::Incr
        | Name::Decr
        | Name::IncrBy
        | Name::DecrBy
        | Name::SetEx
        | Name::PSetEx => read_texts(name, arguments),
        Name::Del
        | Name::Unlink
        | Name::Exists
        | Name::KeyType
        | Name::Keys
        | Name::Scan
        | Name::DbSize
        | Name::Rename
        | Name::RenameNx
        | Name::FlushAll
        | Name::FlushDb
        | Name::Expire
        | Name::PExpire
        | Name::ExpireAt
        | Name::PExpireAt
        | Name::Ttl
        | Name::PTtl
        | Name::ExpireTime
        | Name::PExpireTime
        | Name::Persist => read_keys(name, arguments),
        Name::HSet
        | Name::HMSet
        | Name::HSetNx
        | Name::HGet
        | Name::HMGet
        | Name::HGetAll
        | Name::HKeys
        | Name::HVals
        | Name::HDel
        | Name::HExists
        | Name::HLen
        | Name::HStrLen
        | Name::HIncrBy => read_hashes(name, arguments),
        Name::LPush
        | Name::RPush
        | Name::LPushX
        | Name::RPushX
        | Name::LPop
        | Name::RPop
        | Name::LLen
        | Name::LRange
        | Name::LIndex
        | Name::LSet
        | Name::LInsert
        | Name::LRem
        | Name::LTrim
        | Name::LMove
        | Name::RPopLPush => read_lists(name, arguments),
        Name::SAdd
        | Name::SRem
        | Name::SIsMember
        | Name::SMIsMember
        | Name::SMembers
        | Name::SCard
        | Name::SPop
        | Name::SRandMember
        | Name::SMove
        | Name::SInter
        | Name::SUnion
        | Name::SDiff => read_sets(name, arguments),
        Name::ZAdd
        | Name::ZIncrBy
        | Name::ZRem
        | Name::ZCard
        | Name::ZCount
        | Name::ZScore
        | Name::ZMScore
        | Name::ZRank
        | Name::ZRevRank
        | Name::ZRange
        | Name::ZRevRange
        | Name::ZRangeByScore
        | Name::ZRevRangeByScore
        | Name::ZPopMin
        | Name::ZPopMax
        | Name::ZRemRangeByRank
        | Name::ZRemRangeByScore => read_sorted_sets(name, arguments),
        Name::Ping
        | Name::Echo
        | Name::Select
        | Name::Quit
        | Name::BgRewriteAof
        | Name::Info
        | Name::Role
        | Name::Shutdown
        | Name::Command
        | Name::Client => read_server(name, arguments),
        Name::Psync
        | Name::ReplConf
        | Name::ReplicaOf
        | Name::SlaveOf
        | Name::Multi
        | Name::Exec
        | Name::Discard => read_node(name, arguments),
        // commands.txt ends
    }
}

/// The command on strings of this name with these arguments, or the fault that they have.
#[inline(never)]
fn read_texts<'a, 't>(name: Name, arguments: Arguments<'a, 't>) -> Reading<'a, 't>
    requires { kind_of name ≡ kind.texts }
    ensures { result ≡ reading name (map cow_slice_items arguments.now) }
{
    match name {
        // commands.txt: texts
        Name::Get => of_texts(texts::get(arguments)),
        Name::Set => of_texts(texts::set(arguments)),
        Name::StrLen => of_texts(texts::strlen(arguments)),
        Name::GetRange => of_texts(texts::getrange(arguments)),
        Name::MGet => of_texts(texts::mget(arguments)),
        Name::SetNx => of_texts(texts::setnx(arguments)),
        Name::GetSet => of_texts(texts::getset(arguments)),
        Name::GetDel => of_texts(texts::getdel(arguments)),
        Name::MSet => of_texts(texts::mset(arguments)),
        Name::MSetNx => of_texts(texts::msetnx(arguments)),
        Name::Append => of_texts(texts::append(arguments)),
        Name::SetRange => of_texts(texts::setrange(arguments)),
        Name::Incr => of_texts(texts::step(name, Amount::One, arguments)),
        Name::Decr => of_texts(texts::step(name, Amount::MinusOne, arguments)),
        Name::IncrBy => of_texts(texts::incrby(arguments)),
        Name::DecrBy => of_texts(texts::decrby(arguments)),
        Name::SetEx => of_texts(texts::setex(arguments)),
        Name::PSetEx => of_texts(texts::psetex(arguments)),
        // commands.txt ends
        _ => unreachable!(),
    }
}

/// The command on keys of this name with these arguments, or the fault that they have.
#[inline(never)]
fn read_keys<'a, 't>(name: Name, arguments: Arguments<'a, 't>) -> Reading<'a, 't>
    requires { kind_of name ≡ kind.keys }
    ensures { result ≡ reading name (map cow_slice_items arguments.now) }
{
    match name {
        // commands.txt: keys
        Name::Del => of_keys(keys::del(arguments)),
        Name::Unlink => of_keys(keys::unlink(arguments)),
        Name::Exists => of_keys(keys::exists(arguments)),
        Name::KeyType => of_keys(keys::key_type(arguments)),
        Name::Keys => of_keys(keys::keys(arguments)),
        Name::Scan => of_keys(keys::scan(arguments)),
        Name::DbSize => of_keys(keys::dbsize(arguments)),
        Name::Rename => of_keys(keys::rename(arguments)),
        Name::RenameNx => of_keys(keys::renamenx(arguments)),
        Name::FlushAll => of_keys(keys::clear(Databases::All, arguments)),
        Name::FlushDb => of_keys(keys::clear(Databases::Selected, arguments)),
        Name::Expire => of_keys(keys::expire(name, ExpiryUnit::Seconds, arguments)),
        Name::PExpire => of_keys(keys::expire(name, ExpiryUnit::Milliseconds, arguments)),
        Name::ExpireAt => of_keys(keys::expire(name, ExpiryUnit::AtSecond, arguments)),
        Name::PExpireAt => of_keys(keys::expire(name, ExpiryUnit::AtMillisecond, arguments)),
        Name::Ttl => of_keys(keys::ttl(arguments)),
        Name::PTtl => of_keys(keys::pttl(arguments)),
        Name::ExpireTime => of_keys(keys::expiretime(arguments)),
        Name::PExpireTime => of_keys(keys::pexpiretime(arguments)),
        Name::Persist => of_keys(keys::persist(arguments)),
        // commands.txt ends
        _ => unreachable!(),
    }
}

/// The command on hashes of this name with these arguments, or the fault that they have.
#[inline(never)]
fn read_hashes<'a, 't>(name: Name, arguments: Arguments<'a, 't>) -> Reading<'a, 't>
    requires { kind_of name ≡ kind.hashes }
    ensures { result ≡ reading name (map cow_slice_items arguments.now) }
{
    match name {
        // commands.txt: hashes
        Name::HSet => of_hashes(hashes::hset(name, FieldsReply::Added, arguments)),
        Name::HMSet => of_hashes(hashes::hset(name, FieldsReply::Done, arguments)),
        Name::HSetNx => of_hashes(hashes::hsetnx(arguments)),
        Name::HGet => of_hashes(hashes::hget(arguments)),
        Name::HMGet => of_hashes(hashes::hmget(arguments)),
        Name::HGetAll => of_hashes(hashes::list_hash(name, HashPart::Pairs, arguments)),
        Name::HKeys => of_hashes(hashes::list_hash(name, HashPart::Fields, arguments)),
        Name::HVals => of_hashes(hashes::list_hash(name, HashPart::Values, arguments)),
        Name::HDel => of_hashes(hashes::hdel(arguments)),
        Name::HExists => of_hashes(hashes::hexists(arguments)),
        Name::HLen => of_hashes(hashes::hlen(arguments)),
        Name::HStrLen => of_hashes(hashes::hstrlen(arguments)),
        Name::HIncrBy => of_hashes(hashes::hincrby(arguments)),
        // commands.txt ends
        _ => unreachable!(),
    }
}

/// The command on lists of this name with these arguments, or the fault that they have.
#[inline(never)]
fn read_lists<'a, 't>(name: Name, arguments: Arguments<'a, 't>) -> Reading<'a, 't>
    requires { kind_of name ≡ kind.lists }
    ensures { result ≡ reading name (map cow_slice_items arguments.now) }
{
    match name {
        // commands.txt: lists
        Name::LPush => of_lists(lists::push(name, End::Left, PushTo::AnyKey, arguments)),
        Name::RPush => of_lists(lists::push(name, End::Right, PushTo::AnyKey, arguments)),
        Name::LPushX => of_lists(lists::push(name, End::Left, PushTo::ExistingKey, arguments)),
        Name::RPushX => of_lists(lists::push(name, End::Right, PushTo::ExistingKey, arguments)),
        Name::LPop => of_lists(lists::pop(name, End::Left, arguments)),
        Name::RPop => of_lists(lists::pop(name, End::Right, arguments)),
        Name::LLen => of_lists(lists::llen(arguments)),
        Name::LRange => of_lists(lists::lrange(arguments)),
        Name::LIndex => of_lists(lists::lindex(arguments)),
        Name::LSet => of_lists(lists::lset(arguments)),
        Name::LInsert => of_lists(lists::linsert(arguments)),
        Name::LRem => of_lists(lists::lrem(arguments)),
        Name::LTrim => of_lists(lists::ltrim(arguments)),
        Name::LMove => of_lists(lists::lmove(arguments)),
        Name::RPopLPush => of_lists(lists::rpoplpush(arguments)),
        // commands.txt ends
        _ => unreachable!(),
    }
}

/// The command on sets of this name with these arguments, or the fault that they have.
#[inline(never)]
fn read_sets<'a, 't>(name: Name, arguments: Arguments<'a, 't>) -> Reading<'a, 't>
    requires { kind_of name ≡ kind.sets }
    ensures { result ≡ reading name (map cow_slice_items arguments.now) }
{
    match name {
        // commands.txt: sets
        Name::SAdd => of_sets(sets::sadd(arguments)),
        Name::SRem => of_sets(sets::srem(arguments)),
        Name::SIsMember => of_sets(sets::sismember(arguments)),
        Name::SMIsMember => of_sets(sets::smismember(arguments)),
        Name::SMembers => of_sets(sets::smembers(arguments)),
        Name::SCard => of_sets(sets::scard(arguments)),
        Name::SPop => of_sets(sets::spop(arguments)),
        Name::SRandMember => of_sets(sets::srandmember(arguments)),
        Name::SMove => of_sets(sets::smove(arguments)),
        Name::SInter => of_sets(sets::combine(name, SetOperation::Intersection, arguments)),
        Name::SUnion => of_sets(sets::combine(name, SetOperation::Union, arguments)),
        Name::SDiff => of_sets(sets::combine(name, SetOperation::Difference, arguments)),
        // commands.txt ends
        _ => unreachable!(),
    }
}

/// The command on sorted sets of this name with these arguments, or the fault that they have.
#[inline(never)]
fn read_sorted_sets<'a, 't>(name: Name, arguments: Arguments<'a, 't>) -> Reading<'a, 't>
    requires { kind_of name ≡ kind.sorted_sets }
    ensures { result ≡ reading name (map cow_slice_items arguments.now) }
{
    match name {
        // commands.txt: sorted_sets
        Name::ZAdd => of_sorted_sets(zset::zadd(arguments)),
        Name::ZIncrBy => of_sorted_sets(zset::zincrby(arguments)),
        Name::ZRem => of_sorted_sets(zset::zrem(arguments)),
        Name::ZCard => of_sorted_sets(zset::zcard(arguments)),
        Name::ZCount => of_sorted_sets(zset::zcount(arguments)),
        Name::ZScore => of_sorted_sets(zset::zscore(arguments)),
        Name::ZMScore => of_sorted_sets(zset::zmscore(arguments)),
        Name::ZRank => of_sorted_sets(zset::zrank(name, Order::Ascending, arguments)),
        Name::ZRevRank => of_sorted_sets(zset::zrank(name, Order::Descending, arguments)),
        Name::ZRange => of_sorted_sets(zset::zrange(arguments)),
        Name::ZRevRange => of_sorted_sets(zset::zrevrange(arguments)),
        Name::ZRangeByScore => of_sorted_sets(zset::range_by_score(
            name,
            Order::Ascending,
            arguments,
        )),
        Name::ZRevRangeByScore => of_sorted_sets(zset::range_by_score(
            name,
            Order::Descending,
            arguments,
        )),
        Name::ZPopMin => of_sorted_sets(zset::zpop(name, Order::Ascending, arguments)),
        Name::ZPopMax => of_sorted_sets(zset::zpop(name, Order::Descending, arguments)),
        Name::ZRemRangeByRank => of_sorted_sets(zset::zremrangebyrank(arguments)),
        Name::ZRemRangeByScore => of_sorted_sets(zset::zremrangebyscore(arguments)),
        // commands.txt ends
        _ => unreachable!(),
    }
}

/// The command to the server itself of this name with these arguments, or the fault that they have.
#[inline(never)]
fn read_server<'a, 't>(name: Name, arguments: Arguments<'a, 't>) -> Reading<'a, 't>
    requires { kind_of name ≡ kind.server }
    ensures { result ≡ reading name (map cow_slice_items arguments.now) }
{
    match name {
        // commands.txt: server
        Name::Ping => of_server(server::ping(arguments)),
        Name::Echo => of_server(server::echo(arguments)),
        Name::Select => of_server(server::select(arguments)),
        Name::Quit => of_server(server::quit(arguments)),
        Name::BgRewriteAof => of_server(server::bgrewriteaof(arguments)),
        Name::Info => of_server(server::info(arguments)),
        Name::Role => of_server(server::role(arguments)),
        Name::Shutdown => of_server(server::shutdown(arguments)),
        Name::Command => of_server(server::command(arguments)),
        Name::Client => of_server(server::client(arguments)),
        // commands.txt ends
        _ => unreachable!(),
    }
}

/// The command to the node of this name with these arguments, or the fault that they have.
#[inline(never)]
fn read_node<'a, 't>(name: Name, arguments: Arguments<'a, 't>) -> Reading<'a, 't>
    requires { kind_of name ≡ kind.node }
    ensures { result ≡ reading name (map cow_slice_items arguments.now) }
{
    match name {
        // commands.txt: node
        Name::Psync => of_node(node::psync(arguments)),
        Name::ReplConf => of_node(node::replconf(arguments)),
        Name::ReplicaOf => of_node(node::replicaof(name, arguments)),
        Name::SlaveOf => of_node(node::replicaof(name, arguments)),
        Name::Multi => of_node(node::multi(arguments)),
        Name::Exec => of_node(node::exec(arguments)),
        Name::Discard => of_node(node::discard(arguments)),
        // commands.txt ends
        _ => unreachable!(),
    }
}

/// A command on strings as a command, or its fault.
fn of_texts<'a, 't>(reading: Result<TextAsk<'a, 't>, AskFault>) -> Reading<'a, 't>
    ensures { result ≡ of_kind ask.Texts reading.entry }
{
    Ok(Ask::Texts(reading?))
}

/// A command on keys as a command, or its fault.
fn of_keys<'a, 't>(reading: Result<KeyAsk<'a, 't>, AskFault>) -> Reading<'a, 't>
    ensures { result ≡ of_kind ask.Keys reading.entry }
{
    Ok(Ask::Keys(reading?))
}

/// A command on hashes as a command, or its fault.
fn of_hashes<'a, 't>(reading: Result<HashAsk<'a, 't>, AskFault>) -> Reading<'a, 't>
    ensures { result ≡ of_kind ask.Hashes reading.entry }
{
    Ok(Ask::Hashes(reading?))
}

/// A command on lists as a command, or its fault.
fn of_lists<'a, 't>(reading: Result<ListAsk<'a, 't>, AskFault>) -> Reading<'a, 't>
    ensures { result ≡ of_kind ask.Lists reading.entry }
{
    Ok(Ask::Lists(reading?))
}

/// A command on sets as a command, or its fault.
fn of_sets<'a, 't>(reading: Result<SetAsk<'a, 't>, AskFault>) -> Reading<'a, 't>
    ensures { result ≡ of_kind ask.Sets reading.entry }
{
    Ok(Ask::Sets(reading?))
}

/// A command on sorted sets as a command, or its fault.
fn of_sorted_sets<'a, 't>(reading: Result<ZSetAsk<'a, 't>, AskFault>) -> Reading<'a, 't>
    ensures { result ≡ of_kind ask.SortedSets reading.entry }
{
    Ok(Ask::SortedSets(reading?))
}

/// A command to the server itself as a command, or its fault.
fn of_server<'a, 't>(reading: Result<ServerAsk<'a, 't>, AskFault>) -> Reading<'a, 't>
    ensures { result ≡ of_kind ask.Server reading.entry }
{
    Ok(Ask::Server(reading?))
}

/// A command to the node as a command, or its fault.
fn of_node<'a, 't>(reading: Result<NodeAsk<'a, 't>, AskFault>) -> Reading<'a, 't>
    ensures { result ≡ of_kind ask.Node reading.entry }
{
    Ok(Ask::Node(reading?))
}
