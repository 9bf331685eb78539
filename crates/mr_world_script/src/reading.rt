// What the words of a line say.
ghost use Rattle.std.specs.Prelude.{◌≡◌, ◌∷◌, IfOk, map, option_map};
ghost use Rattle.std.specs.Cow.{cow_slice_items};
ghost use Rattle.mr_resp.specs.Spelling.{array};
ghost use Rattle.mr_world_script.specs.Reading.{accept, behind, client, connect, deliver, dial, got, raw, restart, said_by, said_of, send, show, start, step, tick, «break» as broken};

use crate::event_name::EventName;
use crate::line::Line;
use crate::numbers::{read_count, read_given, read_id};
use crate::side::read_side;
use mr_resp::{push_word, push_word_count};
use std::alloc::{AllocError, Global};
use std::borrow::CowSlice;

/// What the words of a line say, if they say anything.
pub(crate) fn read_words(
    alloc: Global,
    words: &[CowSlice<'_, u8>],
) -> Result<Option<Line>, AllocError>
    ensures { IfOk result (λ line.
        option_map said_of line ≡ said_by (map cow_slice_items words.now)) }
{
    match words {
        [] => Ok(Some(Line::Blank)),
        [name, words @ ..] => match EventName::of(name.as_slice()) {
            Some(name) => behind(alloc, name, words),
            None => Ok(None),
        },
    }
}

/// What the words behind a name say.
fn behind(
    alloc: Global,
    name: EventName,
    words: &[CowSlice<'_, u8>],
) -> Result<Option<Line>, AllocError>
    ensures { IfOk result (λ line.
        option_map said_of line ≡ behind name (map cow_slice_items words.now)) }
{
    match name {
        EventName::Send => send(alloc, words),
        EventName::Raw => raw(alloc, words),
        EventName::Start => Ok(start(false, words)),
        EventName::Replica => Ok(start(true, words)),
        EventName::Client => Ok(client(words)),
        EventName::Deliver => Ok(deliver(words)),
        EventName::Step => Ok(step(words)),
        EventName::Tick => Ok(tick(words)),
        EventName::Break => Ok(broken(words)),
        EventName::Dial => Ok(dial(words)),
        EventName::Connect => Ok(connect(words)),
        EventName::Accept => Ok(accept(words)),
        EventName::Restart => Ok(restart(words)),
        EventName::Show => Ok(show(words)),
        EventName::Got => Ok(got(words)),
    }
}

/// `start ID`, `replica ID`
fn start(is_replica: bool, words: &[CowSlice<'_, u8>]) -> Option<Line>
    ensures { option_map said_of result ≡ start is_replica (map cow_slice_items words.now) }
{
    match words {
        [id] => Some(Line::Start {
            id: read_id(id.as_slice())?,
            is_replica,
        }),
        _ => None,
    }
}

/// `client N`
fn client(words: &[CowSlice<'_, u8>]) -> Option<Line>
    ensures { option_map said_of result ≡ client (map cow_slice_items words.now) }
{
    match words {
        [node] => Some(Line::Client {
            node: read_count(node.as_slice())?,
        }),
        _ => None,
    }
}

/// `send L word ..`
fn send(alloc: Global, words: &[CowSlice<'_, u8>]) -> Result<Option<Line>, AllocError>
    ensures { IfOk result (λ line.
        option_map said_of line ≡ send (map cow_slice_items words.now)) }
{
    match words {
        [] | [_] => Ok(None),
        [link, words @ ..] => match read_count(link.as_slice()) {
            Some(link) => Ok(Some(Line::Command {
                link,
                bytes: request_of(alloc, words)?,
            })),
            None => Ok(None),
        },
    }
}

/// A request of these words, in array form.
fn request_of(alloc: Global, words: &[CowSlice<'_, u8>]) -> Result<Vec<u8>, AllocError>
    ensures { IfOk result (λ text. text.items ≡ array (map cow_slice_items words.now)) }
{
    let mut text = Vec::new(alloc);
    push_word_count(&mut text, words.len())?;
    for word in words {
        push_word(&mut text, word.as_slice())?;
    }
    Ok(text)
}

/// `raw L text`
fn raw(alloc: Global, words: &[CowSlice<'_, u8>]) -> Result<Option<Line>, AllocError>
    ensures { IfOk result (λ line.
        option_map said_of line ≡ raw (map cow_slice_items words.now)) }
{
    match words {
        [link, text] => match read_count(link.as_slice()) {
            Some(link) => Ok(Some(Line::Command {
                link,
                bytes: Vec::from_slice(alloc, text.as_slice())?,
            })),
            None => Ok(None),
        },
        _ => Ok(None),
    }
}

/// `deliver L side n`
fn deliver(words: &[CowSlice<'_, u8>]) -> Option<Line>
    ensures { option_map said_of result ≡ deliver (map cow_slice_items words.now) }
{
    match words {
        [link, side, count] => Some(Line::Deliver {
            link: read_count(link.as_slice())?,
            side: read_side(side.as_slice())?,
            count: read_count(count.as_slice())?,
        }),
        _ => None,
    }
}

/// `step L side now word ID`
fn step(words: &[CowSlice<'_, u8>]) -> Option<Line>
    ensures { option_map said_of result ≡ step (map cow_slice_items words.now) }
{
    match words {
        [link, side, now, chance, fresh] => Some(Line::Step {
            link: read_count(link.as_slice())?,
            side: read_side(side.as_slice())?,
            given: read_given(now.as_slice(), read_count(chance.as_slice())?)?,
            fresh: read_id(fresh.as_slice())?,
        }),
        _ => None,
    }
}

/// `tick N now`
fn tick(words: &[CowSlice<'_, u8>]) -> Option<Line>
    ensures { option_map said_of result ≡ tick (map cow_slice_items words.now) }
{
    match words {
        [node, now] => Some(Line::Tick {
            node: read_count(node.as_slice())?,
            given: read_given(now.as_slice(), 0)?,
        }),
        _ => None,
    }
}

/// `break L side`
fn broken(words: &[CowSlice<'_, u8>]) -> Option<Line>
    ensures { option_map said_of result ≡ broken (map cow_slice_items words.now) }
{
    match words {
        [link, side] => Some(Line::Break {
            link: read_count(link.as_slice())?,
            side: read_side(side.as_slice())?,
        }),
        _ => None,
    }
}

/// `dial N M`
fn dial(words: &[CowSlice<'_, u8>]) -> Option<Line>
    ensures { option_map said_of result ≡ dial (map cow_slice_items words.now) }
{
    match words {
        [node, to] => Some(Line::Dial {
            node: read_count(node.as_slice())?,
            to: read_count(to.as_slice())?,
        }),
        _ => None,
    }
}

/// `connect N`
fn connect(words: &[CowSlice<'_, u8>]) -> Option<Line>
    ensures { option_map said_of result ≡ connect (map cow_slice_items words.now) }
{
    match words {
        [node] => Some(Line::Connect {
            node: read_count(node.as_slice())?,
        }),
        _ => None,
    }
}

/// `accept L N`
fn accept(words: &[CowSlice<'_, u8>]) -> Option<Line>
    ensures { option_map said_of result ≡ accept (map cow_slice_items words.now) }
{
    match words {
        [link, node] => Some(Line::Accept {
            link: read_count(link.as_slice())?,
            node: read_count(node.as_slice())?,
        }),
        _ => None,
    }
}

/// `restart N n ID`
fn restart(words: &[CowSlice<'_, u8>]) -> Option<Line>
    ensures { option_map said_of result ≡ restart (map cow_slice_items words.now) }
{
    match words {
        [node, count, id] => Some(Line::Restart {
            node: read_count(node.as_slice())?,
            count: read_count(count.as_slice())?,
            id: read_id(id.as_slice())?,
        }),
        _ => None,
    }
}

/// `show N`
fn show(words: &[CowSlice<'_, u8>]) -> Option<Line>
    ensures { option_map said_of result ≡ show (map cow_slice_items words.now) }
{
    match words {
        [node] => Some(Line::Show {
            node: read_count(node.as_slice())?,
        }),
        _ => None,
    }
}

/// `got L`
fn got(words: &[CowSlice<'_, u8>]) -> Option<Line>
    ensures { option_map said_of result ≡ got (map cow_slice_items words.now) }
{
    match words {
        [link] => Some(Line::Got {
            link: read_count(link.as_slice())?,
        }),
        _ => None,
    }
}
