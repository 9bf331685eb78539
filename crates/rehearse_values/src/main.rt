//! Rehearses values for tests: makes the calls that the lines of standard input name, and writes a line on each. So a test makes calls
//! that no client's request makes, and sees what no reply tells.
//!
//! A line is a kind of value and steps behind a space, with a `;` between two of them: `list push 61;items`. They are played on a fresh value
//! of that kind. Bytes are written in hexadecimal digits, as `-` where there are none, or as `61*5` for five of one. `was` tells
//! what stood there, and `none` that nothing did.
//!
//! | Kind | Steps, and what they answer |
//! |---|---|
//! | `list` | `push ITEM`: `pushed`; `before PIVOT ITEM`, `after PIVOT ITEM`: `inserted` or `no pivot`; `items`: `items ITEM ..` |
//! | `sorted` | `put MEMBER SCORE`: `was SCORE`, `none`; `min`, `max`: `taken MEMBER SCORE`, `none`; `pairs`: `pairs COUNT MEMBER SCORE ..` |
//! | `keyed` | `insert KEY NUMBER`: `was NUMBER`, `none`; `empty`: `empty` or `not empty` |
//! | `slices` | `insert NUMBER` under the one key `k`, and `empty`: as of `keyed` |
//! | `packed` | of a run of short strings: `push STRING`, `front STRING`, `insert PLACE STRING`, `two PLACE STRING STRING`, `replace PLACE STRING`, and of another run `append`, all of it, and `part FROM TO`: `put`; `remove PLACE`, `drop FROM TO`: `dropped`; `swap`, of the two runs: `swapped`; `first`, `last`, `at PLACE`: `string STRING`; `is PLACE STRING`: `is` or `is not`; `order PLACE STRING`: `less`, `equal` or `greater`; `find STRING STEP`: `at PLACE` or `none`; `shows`: `shows COUNT STRING ..`; `back`, from the back, and `ends`, from the front and twice from the back in turn: `back STRING ..`, `ends STRING ..` |
//! | `pairs` | `insert PLACE FIRST SECOND`, `replace PLACE SECOND`: `put`; `remove PLACE`: `dropped`; `at PLACE`: `pair FIRST SECOND`; `find FIRST`: `at PLACE` or `none`; `seek FIRST`: `at PLACE` or `before PLACE`; `shows`: `shows COUNT FIRST SECOND ..`; `back`: `back FIRST SECOND ..` |
//! | `links` | `insert LINK`: `id PLACE BEFORE`; `get`, `remove`, each with an id: `was LINK`, `none`; `contains ID`: `open` or `gone`; `set ID LINK`: `set`, `none`; `replace ID LINK`: `was LINK`, `none`; `shows`: `shows OPENED COUNT ID LINK ..`; `ids`: `ids ID ..` |
//! | `id` | `new BYTES`, `read DIGITS`, `number NUMBER`, `zeros`: `id SHOWN DIGITS BYTES`, with `zeros` behind it where it stands for none, or `no id`; `order NUMBER NUMBER`: `less` or `not less` |
//! | `backlog` | `new CAPACITY OFFSET`: `begun`; `push BYTES`: `pushed`; `restart OFFSET`: `restarted`; `tail FROM`: `tail BYTES` or `not held`; `shows`: `shows CAPACITY LENGTH FIRST END` |
//! | `standing` | `stands ID OFFSET FIRST`, `second ID LIMIT`: `stands`; `asks ID FROM`: `full` or `continue FROM` |
//! | `lineage` | `new ID CAPACITY OFFSET`: `begun`; `grow BYTES`: `grown`; `promote ID`, `continue ID`, `adopt ID OFFSET`: `promoted`, `continued`, `adopted`; `asks ID FROM`: as of `standing`; `tail FROM`: as of `backlog`; `shows`: `shows ID END FIRST`, and the id before with its limit; INFO `informs ROLE FOLLOWERS` and ROLE of a master `alone`, of one with a replica that told so much and one that told nothing, `leads ADDRESS PORT OFFSET`, and of a replica, `follows HOST PORT LINK`: `text BYTES` |
//! | `peer` | `line BYTES`: `line USED status TEXT`, `line USED refusal TEXT`, `line USED length LENGTH`, `more` or `bad`; `answer BYTES`: `full ID OFFSET`, `continue ID` or `no answer`; `offset BYTES`: `offset OFFSET` or `no offset`; `full ID OFFSET`, `continue ID`, `length LENGTH`: `text BYTES`, the line that says it |
//! | `request` | `limits WORD WORDS TEXT`: `limited` or `no limits`; `next BYTES`, `command BYTES`, `line LIMIT BYTES`: `whole USED`, `skip`, `more` or a fault; `kept BYTES`: a letter for each word, `b` where it is borrowed and `o` where it is owned; `parts WORD WORD`, `push WORD WORD`, `write WORD WORD`: `text BYTES` |
//! | `ask` | `name WORD`: `name NAME` or `no name`; `group BYTES`: what the request is about, or `no command`; `one`, `minus-one`, `number NUMBER`, `opposite NUMBER`: `adds NUMBER` |
//! | `part` | `words WORD`, `pairs NAME VALUE`, `scores MEMBER SCORE`: `list LENGTH fits LENGTH`, with `within` or `past` the limits of scores; `name WORD`: `name TEXT` or `no name` |
//! | `dataset` | `set KEY VALUE`, `del KEY`, `no-texts`, `no-members`, `no-items`, `score SCORE`, `offset OFFSET`, `place PLACE`: whether the effect's words are within the limit (`fits`, `too long`), whether it has a spelling (`spelled`, `unspelled`), and `applied` or `refused`, by reference and then moved in; `nothing`: `applied`; `at KEY`: `entry value DEADLINE`, each with `no` before it where there is none; `keys`: `keys COUNT KEY ..`; `given NOW WORD`: `given NOW WORD` or `no moment` |
//! | `group` | `read BYTES`: `whole COUNT USED`, `more` or `bad`, of the group at the front; `write BYTES`: `text BYTES`, that of the group at the front; `apply BYTES`, and `move BYTES` by value: `applied`, `refused` or `torn`; `shows`: `commands BYTES`, which make the dataset; `load BYTES`: `loads USED commands BYTES` |
//! | `unsent` | `push BYTES`, `fill COUNT` of so many zeros: `pushed`; `share BYTES`, as a text that others may be sent too: `shared`; `advance COUNT`: `advanced`; `clear`: `cleared`; `front`: `front BYTES`; `shows`: `shows LENGTH` of those in front, with `too much` behind it where a client may not leave so much unread |
//! | `source` | `now`, `word`: `now MILLIS`, `word NUMBER`; `id`: as of `id` |
//! | `memory` | before `begin`, which answers `begun`, what the calls are to come to, each `listed`: `waits done`, `waits failed`; `reads BYTES`, `reads not-ready`, `reads end`, `reads failed` and `writes COUNT`, `writes not-ready`, `writes failed` of the next link; `accepts link`, `accepts not-ready`, `accepts failed`, `connects link`, `connects failed`. Then `written LINK`: `written BYTES` or `none`; `asked LINK`: `asked ADDRESS PORT` or `none`; and as of `sockets` |
//! | `sockets` | `listen PORT`: `listens PORT`; `wait MILLIS`: `waited`, `failed`; `accept`: `id PLACE BEFORE`, `none`, `failed`; `connect HOST PORT`, the host as bytes: `id PLACE BEFORE`, `failed`; `ready`, the next link that is named: `id PLACE BEFORE`, `none`; `read LINK ROOM`: `bytes BYTES`, `not ready`, `end`, `failed`; `write LINK BYTES`: `moved COUNT`, `not ready`, `failed`; `close LINK`: `closed`. `accept-ready`, `name-ready`, `read-ready`, `write-all` wait until they are answered otherwise; the last tells `moved all` in one call or `moved all in parts` |
//! | `follower` | `at OFFSET`: `stands`; `begin PORT`, `offer ID PORT`: `says LINE`, of one that wants all or offers to go on from where the replica stands; `feed BYTES`: `fed`; `step`: `idle`, `says LINE`, `announces ID OFFSET`, `continues ID OFFSET`, `installs`, `applies BYTES` or `refuses: FAULT`; `run`, steps as long as they apply: `applied COUNT`; `shows`: `shows PHASE OFFSET KEPT COMMANDS`, which make the dataset |
//! | `course` | `master ID CAPACITY OFFSET`, `replica ..`, `offering ..` (a replica that has something to continue): `begun`; `dial LINK PORT`: `dialled`; `feed BYTES`: `fed`; `listen`: `idle`, `says`, `announced`, `continues`, `loads`, `applies`, `left`, `spoiled`, each with what was put out, or `refuses: FAULT`; `grow BYTES`: `grown`; `leave`, `spoil`, `promote ID`, `obey`: `left`, `spoiled`, `promoted`, `obeys`; `shows`: the role, `offers` or `bare`, as of `lineage`, `at LINK PHASE` where a master is followed, and how many of its bytes are unread; `commands`: `commands COMMANDS`, which make the dataset |
//!
//! Of what is counted, `empty` behind the counts says that there is none.
#![tactic(auto)]

mod asks;
mod backlog;
mod course;
mod dataset;
mod follower;
mod groups;
mod ids;
mod kind;
mod lineage;
mod links;
mod list;
mod maps;
mod memory_wire;
mod packed;
mod pairs;
mod parts;
mod peer;
mod requests;
mod roles;
mod sockets;
mod sorted_set;
mod source;
mod standing;
mod step;
mod telling;
mod unsent;
mod wires;

use asks::Asks;
use backlog::Stream;
use course::Node;
use follower::Replica;
use groups::Groups;
use ids::Ids;
use kind::play;
use lineage::NamedStream;
use memory_wire::MemoryWire;
use mr_data::Dataset;
use mr_links::Links;
use mr_map::{KeyedMap, SliceMap};
use mr_packed::PackedPairs;
use mr_source::SystemSource;
use mr_unsent::Unsent;
use mr_value::ListValue;
use mr_zset::ZSet;
use packed::Runs;
use parts::Parts;
use peer::PeerLines;
use rehearse_shared::RehearsalFault;
use requests::Requests;
use sockets::Sockets;
use standing::play_place;
use std::alloc::Global;
use std::hash::RandomState;
use std::io::{Read, Write};
use std::process::ExitCode;

/// Makes the calls that a line names on a value of the kind that it begins with.
fn play_line(
    rt: &HostRuntime,
    seed: RandomState,
    line: &str,
    out: &mut Vec<u8>,
) -> Result<(), RehearsalFault> {
    let Some((kind, steps)) = line.split_once(' ') else {
        return Err(RehearsalFault::Line);
    };
    match kind {
        "source" => play(rt.alloc(), SystemSource::new(rt.clone()?)?, steps, out),
        "sockets" => play(rt.alloc(), Sockets::new(rt.clone()?), steps, out),
        _ => play_value(rt.alloc(), seed, kind, steps, out),
    }
}

/// Plays steps on a new value of this kind. Fails where there is no such kind.
fn play_value(
    alloc: Global,
    seed: RandomState,
    kind: &str,
    steps: &str,
    out: &mut Vec<u8>,
) -> Result<(), RehearsalFault> {
    match kind {
        "list" => play(alloc, ListValue::new(alloc), steps, out),
        "sorted" => play(alloc, ZSet::new(alloc), steps, out),
        "keyed" => play(alloc, KeyedMap::<u64>::new(alloc, seed), steps, out),
        "dataset" => play(alloc, Dataset::new(alloc, seed), steps, out),
        "group" => play(alloc, Groups::new(alloc, seed), steps, out),
        "follower" => play(alloc, Replica::new(alloc, seed), steps, out),
        "course" => play(alloc, Node::new(alloc, seed), steps, out),
        "slices" => play(alloc, SliceMap::<'static, u64>::new(alloc), steps, out),
        _ => play_stateless(alloc, kind, steps, out),
    }
}

/// Plays steps on a new value of this kind, which needs no seed. Fails where there is no such kind.
fn play_stateless(
    alloc: Global,
    kind: &str,
    steps: &str,
    out: &mut Vec<u8>,
) -> Result<(), RehearsalFault> {
    match kind {
        "id" => play(alloc, Ids, steps, out),
        "ask" => play(alloc, Asks, steps, out),
        "part" => play(alloc, Parts, steps, out),
        "peer" => play(alloc, PeerLines, steps, out),
        "request" => play(alloc, Requests::new(), steps, out),
        "standing" => play_place(alloc, steps, out),
        "links" => play(alloc, Links::<u64>::new(alloc), steps, out),
        "packed" => play(alloc, Runs::new(alloc), steps, out),
        "pairs" => play(alloc, PackedPairs::new(alloc), steps, out),
        "backlog" => play(alloc, Stream::new(), steps, out),
        "lineage" => play(alloc, NamedStream::new(), steps, out),
        "unsent" => play(alloc, Unsent::new(alloc), steps, out),
        "memory" => play(alloc, MemoryWire::new(alloc), steps, out),
        _ => Err(RehearsalFault::Line),
    }
}

/// Makes the calls of each line, and writes a line on each.
fn rehearse(rt: &HostRuntime, script: &str, out: &mut Vec<u8>) -> Result<(), RehearsalFault> {
    let seed = RandomState::new(rt)?;
    for line in script.lines() {
        play_line(rt, seed, line, out)?;
    }
    Ok(())
}

/// Plays the script on standard input, and writes what came of it to standard output. Where it fails nothing is
/// written.
fn run(rt: &HostRuntime) -> Result<(), RehearsalFault> {
    let mut script = String::new(rt.alloc());
    rt.stdin().read_to_string(&mut script)?;
    let mut out = Vec::new(rt.alloc());
    rehearse(rt, script.as_str(), &mut out)?;
    rt.stdout().write_all(out.as_slice())?;
    Ok(())
}

/// Runs the rehearsal. What it fails with is told on standard error.
fn main(rt: HostRuntime) -> ExitCode {
    match run(&rt) {
        Ok(()) => ExitCode::SUCCESS,
        Err(fault) => {
            let _ = eprintln!(rt; "rehearse_values: {fault}");
            ExitCode::FAILURE
        }
    }
}
