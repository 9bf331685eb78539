// Commands to the node.
ghost use Rattle.std.specs.Prelude.{◌≡◌, map};
ghost use Rattle.std.specs.Cow.{cow_slice_items};
ghost use Rattle.std.specs.Str.{bytes_eq};
ghost use Rattle.mr_arguments.specs.Names.{lowered};
ghost use Rattle.mr_cmd_node.specs.Arguments.{psync, replconf, replicaof, multi, exec, discard, acknowledgement, telling, ack, no, one, port, port_of};

use crate::node_ask::NodeAsk;
use crate::told::Told;
use mr_arguments::{Argument, Arguments, AskFault, Name, integer};
use mr_bytes::read_i64;
use std::borrow::CowSlice;

type Reading<'a, 't> = Result<NodeAsk<'a, 't>, AskFault>;

/// `PSYNC id offset`
pub fn psync<'a, 't>(arguments: Arguments<'a, 't>) -> Reading<'a, 't>
    ensures { result ≡ psync (map cow_slice_items arguments.now) }
{
    match arguments {
        [id, offset] => Ok(NodeAsk::Psync {
            wanted: integer(offset)?,
            id: Argument::of(id),
        }),
        _ => Err(AskFault::Arity(Name::Psync)),
    }
}

/// `REPLCONF option value ..`, `REPLCONF ACK offset`
pub fn replconf<'a, 't>(arguments: Arguments<'a, 't>) -> Reading<'a, 't>
    ensures { result ≡ replconf (map cow_slice_items arguments.now) }
{
    match arguments {
        [] => Err(AskFault::Syntax),
        [option, offset] => {
            if is_ack(option) {
                return acknowledgement(offset);
            }
            telling(arguments)
        }
        _ => telling(arguments),
    }
}

/// `REPLICAOF host port`, `REPLICAOF NO ONE`, or under its other name
pub fn replicaof<'a, 't>(name: Name, arguments: Arguments<'a, 't>) -> Reading<'a, 't>
    ensures { result ≡ replicaof name (map cow_slice_items arguments.now) }
{
    match arguments {
        [no, one] if is_no(no) && is_one(one) => Ok(NodeAsk::NoOne),
        [host, word] => Ok(NodeAsk::ReplicaOf {
            port: port(word)?,
            host: Argument::of(host),
        }),
        _ => Err(AskFault::Arity(name)),
    }
}

/// `MULTI`
pub fn multi<'a, 't>(arguments: Arguments<'a, 't>) -> Reading<'a, 't>
    ensures { result ≡ multi (map cow_slice_items arguments.now) }
{
    match arguments {
        [] => Ok(NodeAsk::Multi),
        _ => Err(AskFault::Arity(Name::Multi)),
    }
}

/// `EXEC`
pub fn exec<'a, 't>(arguments: Arguments<'a, 't>) -> Reading<'a, 't>
    ensures { result ≡ exec (map cow_slice_items arguments.now) }
{
    match arguments {
        [] => Ok(NodeAsk::Exec),
        _ => Err(AskFault::Arity(Name::Exec)),
    }
}

/// `DISCARD`
pub fn discard<'a, 't>(arguments: Arguments<'a, 't>) -> Reading<'a, 't>
    ensures { result ≡ discard (map cow_slice_items arguments.now) }
{
    match arguments {
        [] => Ok(NodeAsk::Discard),
        _ => Err(AskFault::Arity(Name::Discard)),
    }
}

/// `REPLCONF ACK offset`. It is a syntax fault where the offset is no whole number.
fn acknowledgement<'a, 't>(word: &CowSlice<'_, u8>) -> Reading<'a, 't>
    ensures { result ≡ acknowledgement (cow_slice_items word.now) }
{
    let offset = read_i64(word.as_slice()).ok_or(AskFault::Syntax)?;
    Ok(NodeAsk::Ack { offset })
}

/// `REPLCONF option value ..`. It is a syntax fault where a word is no option, or the last has no value.
fn telling<'a, 't>(arguments: Arguments<'a, 't>) -> Reading<'a, 't>
    ensures { result ≡ telling (map cow_slice_items arguments.now) }
{
    let told = Told::of(arguments).ok_or(AskFault::Syntax)?;
    Ok(NodeAsk::ReplConf { told })
}

/// The port that a word spells, from 1 to 65535, or else the fault that it is none.
fn port(word: &CowSlice<'_, u8>) -> Result<u16, AskFault>
    ensures { result ≡ port (cow_slice_items word.now) }
{
    port_of(integer(word)?)
}

/// The port of this number, from 1 to 65535, or else the fault that it is none.
fn port_of(number: i64) -> Result<u16, AskFault>
    ensures { result ≡ port_of number }
{
    if number < 1 || number > 65535 {
        Err(AskFault::Integer)
    } else {
        Ok(number as u16)
    }
}

/// Whether a word is `ACK`, in any case.
fn is_ack(word: &CowSlice<'_, u8>) -> bool
    ensures { result ≡ bytes_eq (lowered (cow_slice_items word.now)) ack }
{
    word.as_slice().eq_ignore_ascii_case(b"ack")
}

/// Whether a word is `NO`, in any case.
fn is_no(word: &CowSlice<'_, u8>) -> bool
    ensures { result ≡ bytes_eq (lowered (cow_slice_items word.now)) no }
{
    word.as_slice().eq_ignore_ascii_case(b"no")
}

/// Whether a word is `ONE`, in any case.
fn is_one(word: &CowSlice<'_, u8>) -> bool
    ensures { result ≡ bytes_eq (lowered (cow_slice_items word.now)) one }
{
    word.as_slice().eq_ignore_ascii_case(b"one")
}
