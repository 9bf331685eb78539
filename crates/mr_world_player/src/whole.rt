// A whole script.
ghost use Rattle.std.specs.Prelude.{◌<◌, ℕ, length, [], Option, List};
ghost use Rattle.law_refinement.specs.State.{WorldState};
ghost use Rattle.law_refinement.specs.Worlds.{no_world};
ghost use Rattle.mr_world_player.specs.Asking.{IsBacklog};
ghost use Rattle.mr_world_player.specs.Scripts.{IsScript};
ghost use Rattle.mr_world_player.specs.Staging.{IsOnStage, IsRound, Reads};

use crate::stage::Stage;
use mr_file::PIECE;
use mr_pipe::{PipeFault, read_piece};
use std::alloc::Global;
use std::hash::RandomState;
use std::io::{Read, Write};

/// Reads once, and plays the lines that end in what came; whether the input goes on.
fn play_piece<R: Read, W: Write>(
    stage: &mut Stage,
    input: &mut R,
    buffer: &mut [u8],
    output: &mut W,
) -> Result<bool, PipeFault>
    requires { 0 < length buffer.old }
    ensures { (backlog : ℕ) (w : WorldState) (before old : Option (List ℕ)) →
        Reads backlog w before (R.remaining input.old) old stage.old (W.contents output.old)
        → IsRound backlog w before (R.remaining input.new) old stage.new (W.contents output.new)
        result }
{
    let Some(count) = read_piece(input, buffer)? else {
        return Ok(true);
    };
    if count == 0 {
        return Ok(false);
    }
    stage.read_all(&buffer[..count], output)?;
    Ok(true)
}

/// Reads to the end, and plays all lines.
fn play_all<R: Read, W: Write>(
    stage: &mut Stage,
    input: &mut R,
    buffer: &mut [u8],
    output: &mut W,
) -> Result<(), PipeFault>
    requires { 0 < length buffer.old }
    ensures { (backlog : ℕ) → IsOnStage backlog no_world [] stage.old →
        IsScript backlog (R.remaining input.old) (R.remaining input.new) (W.contents output.old)
        (W.contents output.new) result }
{
    for _round in 0..u64::MAX {
        if !play_piece(stage, input, buffer, output)? {
            return Ok(());
        }
    }
    Err(PipeFault::Read)
}

/// Plays a script to its end, in a World in which nothing has begun and whose nodes start with this backlog. Each line that ends with a line
/// feed is answered before the next one is played, and what was written goes out before the next read. Look-ups go by a hash with this seed,
/// which changes no answer. After a fault what was written is a beginning of the answers.
pub fn world<R: Read, W: Write>(
    alloc: Global,
    seed: RandomState,
    backlog: usize,
    input: &mut R,
    output: &mut W,
) -> Result<(), PipeFault>
    requires { IsBacklog backlog }
    ensures { IsScript backlog (R.remaining input.old) (R.remaining input.new)
        (W.contents output.old) (W.contents output.new) result }
{
    let Ok(mut buffer) = vec![in alloc; 0u8; PIECE] else {
        return Err(PipeFault::Memory);
    };
    let mut stage = Stage::new(alloc, seed, backlog);
    play_all(&mut stage, input, buffer.as_mut_slice(), output)
}
