// A trio, from its start to its end.
ghost use Rattle.mr_trio.specs.Playing.{PlaysTrio};

use crate::three::Three;
use mr_trio_script::{TrioFault, play};
use std::alloc::Global;
use std::hash::RandomState;
use std::io::{BufRead, Write};

/// Starts three nodes and a client in one loop, and plays a script: each line is a request to one of the nodes, which is answered the
/// bytes of the reply, once it is whole and each replica has what its master has. At the end it tells what the nodes are.
pub fn trio<R: BufRead, W: Write>(
    rt: &HostRuntime,
    alloc: Global,
    seed: RandomState,
    input: &mut R,
    output: &mut W,
) -> Result<(), TrioFault>
    ensures { PlaysTrio (R.remaining input.old) (R.remaining input.new) (W.contents output.old)
        (W.contents output.new) result }
{
    match Three::start(rt, alloc, seed) {
        Ok(three) => play_on(alloc, three, input, output),
        Err(fault) => Err(fault),
    }
}

/// Plays a script on three nodes.
fn play_on<R: BufRead, W: Write>(
    alloc: Global,
    mut three: Three,
    input: &mut R,
    output: &mut W,
) -> Result<(), TrioFault>
    ensures { PlaysTrio (R.remaining input.old) (R.remaining input.new) (W.contents output.old)
        (W.contents output.new) result }
{
    play(alloc, &mut three, input, output)
}
