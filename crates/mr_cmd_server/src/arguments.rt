// Commands to the server itself.
ghost use Rattle.std.specs.Prelude.{◌≡◌, map};
ghost use Rattle.std.specs.Cow.{cow_slice_items};
ghost use Rattle.std.specs.Str.{bytes_eq};
ghost use Rattle.mr_arguments.specs.Names.{lowered};
ghost use Rattle.mr_cmd_server.specs.Arguments.{ping, echo, select, quit, bgrewriteaof, info, role, shutdown, saving_of, saving_text, command, client, setname, setinfo};

use crate::server_ask::{Saving, ServerAsk};
use mr_arguments::{Argument, Arguments, AskFault, BadValue, Name, Words, integer};
use std::borrow::CowSlice;

type Reading<'a, 't> = Result<ServerAsk<'a, 't>, AskFault>;

/// `PING [message]`
pub fn ping<'a, 't>(arguments: Arguments<'a, 't>) -> Reading<'a, 't>
    ensures { result ≡ ping (map cow_slice_items arguments.now) }
{
    match arguments {
        [] => Ok(ServerAsk::Ping { message: None }),
        [message] => Ok(ServerAsk::Ping {
            message: Some(Argument::of(message)),
        }),
        _ => Err(AskFault::Arity(Name::Ping)),
    }
}

/// `ECHO message`
pub fn echo<'a, 't>(arguments: Arguments<'a, 't>) -> Reading<'a, 't>
    ensures { result ≡ echo (map cow_slice_items arguments.now) }
{
    match arguments {
        [message] => Ok(ServerAsk::Echo {
            message: Argument::of(message),
        }),
        _ => Err(AskFault::Arity(Name::Echo)),
    }
}

/// `SELECT 0`
pub fn select<'a, 't>(arguments: Arguments<'a, 't>) -> Reading<'a, 't>
    ensures { result ≡ select (map cow_slice_items arguments.now) }
{
    match arguments {
        [index] => {
            if integer(index)? != 0 {
                return Err(AskFault::Other(BadValue::Database));
            }
            Ok(ServerAsk::Select)
        }
        _ => Err(AskFault::Arity(Name::Select)),
    }
}

/// `QUIT`
pub fn quit<'a, 't>(arguments: Arguments<'a, 't>) -> Reading<'a, 't>
    ensures { result ≡ quit (map cow_slice_items arguments.now) }
{
    match arguments {
        [] => Ok(ServerAsk::Quit),
        _ => Err(AskFault::Arity(Name::Quit)),
    }
}

/// `BGREWRITEAOF`
pub fn bgrewriteaof<'a, 't>(arguments: Arguments<'a, 't>) -> Reading<'a, 't>
    ensures { result ≡ bgrewriteaof (map cow_slice_items arguments.now) }
{
    match arguments {
        [] => Ok(ServerAsk::BgRewriteAof),
        _ => Err(AskFault::Arity(Name::BgRewriteAof)),
    }
}

/// `INFO [section]`
pub fn info<'a, 't>(arguments: Arguments<'a, 't>) -> Reading<'a, 't>
    ensures { result ≡ info (map cow_slice_items arguments.now) }
{
    match arguments {
        [] => Ok(ServerAsk::Info { section: None }),
        [section] => Ok(ServerAsk::Info {
            section: Some(Argument::of(section)),
        }),
        _ => Err(AskFault::Arity(Name::Info)),
    }
}

/// `ROLE`
pub fn role<'a, 't>(arguments: Arguments<'a, 't>) -> Reading<'a, 't>
    ensures { result ≡ role (map cow_slice_items arguments.now) }
{
    match arguments {
        [] => Ok(ServerAsk::Role),
        _ => Err(AskFault::Arity(Name::Role)),
    }
}

/// `SHUTDOWN [SAVE|NOSAVE]`
pub fn shutdown<'a, 't>(arguments: Arguments<'a, 't>) -> Reading<'a, 't>
    ensures { result ≡ shutdown (map cow_slice_items arguments.now) }
{
    match arguments {
        [] => Ok(ServerAsk::Shutdown { saving: None }),
        [saving] => Ok(ServerAsk::Shutdown {
            saving: Some(saving_of(saving)?),
        }),
        _ => Err(AskFault::Syntax),
    }
}

/// `COMMAND [argument ..]`
pub fn command<'a, 't>(arguments: Arguments<'a, 't>) -> Reading<'a, 't>
    ensures { result ≡ command (map cow_slice_items arguments.now) }
{
    Ok(ServerAsk::Command {
        arguments: Words::new(arguments),
    })
}

/// `CLIENT SETNAME name`, `CLIENT SETINFO attribute value`
pub fn client<'a, 't>(arguments: Arguments<'a, 't>) -> Reading<'a, 't>
    ensures { result ≡ client (map cow_slice_items arguments.now) }
{
    match arguments {
        [option, name] if is_setname(option) => Ok(ServerAsk::ClientSetName {
            name: Argument::of(name),
        }),
        [option, attribute, value] if is_setinfo(option) => Ok(ServerAsk::ClientSetInfo {
            attribute: Argument::of(attribute),
            value: Argument::of(value),
        }),
        _ => Err(AskFault::Syntax),
    }
}

/// `SAVE` or `NOSAVE`, in any case.
fn saving_of(word: &CowSlice<'_, u8>) -> Result<Saving, AskFault>
    ensures { result ≡ saving_of (cow_slice_items word.now) }
{
    if is_saving(word, Saving::First) {
        Ok(Saving::First)
    } else if is_saving(word, Saving::Never) {
        Ok(Saving::Never)
    } else {
        Err(AskFault::Syntax)
    }
}

/// Whether a word is this one of `SHUTDOWN`, in any case.
fn is_saving(word: &CowSlice<'_, u8>, saving: Saving) -> bool
    ensures { result ≡ bytes_eq (lowered (cow_slice_items word.now)) (saving_text saving) }
{
    match saving {
        Saving::First => word.as_slice().eq_ignore_ascii_case(b"save"),
        Saving::Never => word.as_slice().eq_ignore_ascii_case(b"nosave"),
    }
}

/// Whether a word is `SETNAME`, in any case.
fn is_setname(word: &CowSlice<'_, u8>) -> bool
    ensures { result ≡ bytes_eq (lowered (cow_slice_items word.now)) setname }
{
    word.as_slice().eq_ignore_ascii_case(b"setname")
}

/// Whether a word is `SETINFO`, in any case.
fn is_setinfo(word: &CowSlice<'_, u8>) -> bool
    ensures { result ≡ bytes_eq (lowered (cow_slice_items word.now)) setinfo }
{
    word.as_slice().eq_ignore_ascii_case(b"setinfo")
}
