// A script, played.
ghost use Rattle.std.specs.Prelude.{◌≡◌, IfErr, OnOk, OnErr, map};
ghost use Rattle.std.specs.Cow.{cow_slice_items};
ghost use Rattle.std.specs.Io.KnownBytes.{Appends};
ghost use Rattle.mr_file.specs.Outputs.{IsBegun};
ghost use Rattle.mr_trio_script.specs.Scripts.{AnswersBy, EndsLine, EndsScript, Plays, PlaysLine, PlaysScript};

use crate::asking::{Asked, read_asked};
use crate::fault::TrioFault;
use crate::nodes::Nodes;
use crate::place::Place;
use crate::taking::{InputFault, NextLine, next_line};
use crate::telling::{BAD_LINE, LATE, end_line, reply_line};
use mr_file::write_out;
use std::alloc::Global;
use std::borrow::CowSlice;
use std::io::{BufRead, Write};

/// Plays a script: each line is a request to one of three nodes, and is answered the bytes of the reply. At the end it tells what the
/// nodes are. Where a line is late, that is told last.
pub fn play<N: Nodes, R: BufRead, W: Write>(
    alloc: Global,
    nodes: &mut N,
    input: &mut R,
    output: &mut W,
) -> Result<(), TrioFault>
    ensures { PlaysScript N.conduct nodes.old (R.remaining input.old) (R.remaining input.new)
        (W.contents output.old) (W.contents output.new) nodes.new result }
{
    match play_all(alloc, nodes, input, output) {
        Ok(()) => tell_ends(alloc, nodes, output),
        Err(TrioFault::Late) => match tell(output, LATE) {
            Ok(()) => Err(TrioFault::Late),
            Err(fault) => Err(fault),
        },
        Err(fault) => Err(fault),
    }
}

/// Plays the lines of an input, one after another.
fn play_all<N: Nodes, R: BufRead, W: Write>(
    alloc: Global,
    nodes: &mut N,
    input: &mut R,
    output: &mut W,
) -> Result<(), TrioFault>
    ensures { Plays N.conduct nodes.old (R.remaining input.old) (R.remaining input.new)
        (W.contents output.old) (W.contents output.new) nodes.new result }
{
    let mut line = Vec::new(alloc);
    for _line in 0..u64::MAX {
        match next_line(input, &mut line) {
            Ok(NextLine::End) => return Ok(()),
            Ok(NextLine::Line) => match play_line(alloc, nodes, line.as_slice(), output) {
                Ok(()) => {}
                Err(fault) => return Err(fault),
            },
            Err(InputFault::Read) => return Err(TrioFault::Stream),
            Err(InputFault::Memory) => return Err(TrioFault::Stopped),
        }
    }
    Err(TrioFault::Stream)
}

/// Plays a line, and answers it.
fn play_line<N: Nodes, W: Write>(
    alloc: Global,
    nodes: &mut N,
    line: &[u8],
    output: &mut W,
) -> Result<(), TrioFault>
    ensures { PlaysLine N.conduct nodes.old line.now (W.contents output.old)
        (W.contents output.new) nodes.new result }
{
    match read_asked(alloc, line) {
        Ok(Asked::Nothing) => Ok(()),
        Ok(Asked::Bad) => tell(output, BAD_LINE),
        Ok(Asked::Request { place, words }) => match answer(alloc, nodes, place, words) {
            Ok(said) => tell(output, said.as_slice()),
            Err(fault) => Err(fault),
        },
        Err(_refused) => Err(TrioFault::Stopped),
    }
}

/// Asks the node there a request: the line that answers it.
fn answer<N: Nodes>(
    alloc: Global,
    nodes: &mut N,
    place: Place,
    words: Vec<CowSlice<'_, u8>>,
) -> Result<Vec<u8>, TrioFault>
    ensures { AnswersBy N.conduct nodes.old place (map cow_slice_items words.entry.items)
        nodes.new result }
{
    match nodes.ask(place, words) {
        Ok(reply) => match reply_line(alloc, reply.as_slice()) {
            Ok(said) => Ok(said),
            Err(_refused) => Err(TrioFault::Stopped),
        },
        Err(fault) => Err(fault),
    }
}

/// Tells what each node is.
fn tell_ends<N: Nodes, W: Write>(alloc: Global, nodes: &N, output: &mut W) -> Result<(), TrioFault>
    ensures { EndsScript N.conduct nodes.now (W.contents output.old) (W.contents output.new)
        result }
{
    match tell_end(alloc, nodes, Place::First, output) {
        Ok(()) => {}
        Err(fault) => return Err(fault),
    }
    match tell_end(alloc, nodes, Place::Second, output) {
        Ok(()) => {}
        Err(fault) => return Err(fault),
    }
    tell_end(alloc, nodes, Place::Third, output)
}

/// Tells what a node is.
fn tell_end<N: Nodes, W: Write>(
    alloc: Global,
    nodes: &N,
    place: Place,
    output: &mut W,
) -> Result<(), TrioFault>
    ensures { EndsLine N.conduct nodes.now place (W.contents output.old) (W.contents output.new)
        result }
{
    match nodes.ending(place) {
        Ok(ending) => match end_line(alloc, place, ending) {
            Ok(line) => tell(output, line.as_slice()),
            Err(_refused) => Err(TrioFault::Stopped),
        },
        Err(fault) => Err(fault),
    }
}

/// Writes, and what was written goes out.
fn tell<W: Write>(output: &mut W, bytes: &[u8]) -> Result<(), TrioFault>
    ensures written { OnOk result
        (Appends (W.contents output.old) (W.contents output.new) bytes.now) }
    ensures begun { OnErr result
        (IsBegun (W.contents output.old) (W.contents output.new) bytes.now) }
    ensures fault { IfErr result (λ fault. fault ≡ TrioFault.Stream) }
{
    if write_out(output, bytes).is_err() {
        return Err(TrioFault::Stream);
    }
    if output.flush().is_err() {
        return Err(TrioFault::Stream);
    }
    Ok(())
}
