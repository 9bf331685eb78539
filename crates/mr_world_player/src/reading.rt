// Bytes of a script, as they come.
ghost use Rattle.std.specs.Prelude.{◌≡◌, ℕ, List, ◌∷◌, [], ◌++◌, Option};
ghost use Rattle.law_refinement.specs.State.{WorldState};
ghost use Rattle.mr_world_player.specs.Scripts.{Goes};
ghost use Rattle.mr_world_player.specs.Staging.{AnswersNext, GoesOn, IsOnStage};

use crate::playing::play;
use crate::stage::Stage;
use mr_pipe::{PipeFault, write_reply};
use std::io::Write;

impl Stage {
    /// Plays the line, and writes its answer.
    fn play<W: Write>(&mut self, output: &mut W) -> Result<(), PipeFault>
        ensures { (backlog : ℕ) (w : WorldState) (text : List ℕ) →
            IsOnStage backlog w text self.old
            → AnswersNext backlog w text (W.contents output.old) self.new (W.contents output.new)
            result }
    {
        self.answer.clear();
        let played = play(
            self.alloc,
            &mut self.world,
            self.backlog,
            self.line.as_slice(),
            &mut self.answer,
        );
        if played.is_err() {
            return Err(PipeFault::Memory);
        }
        self.line.clear();
        write_reply(output, self.answer.as_slice())
    }

    /// A byte of the script comes. At the end of a line that is played.
    fn read<W: Write>(&mut self, byte: u8, output: &mut W) -> Result<(), PipeFault>
        ensures { (backlog : ℕ) (w : WorldState) (read : List ℕ) (old : Option (List ℕ))
            (v : WorldState) (rest : List ℕ) → IsOnStage backlog v rest self.old
            → Goes backlog w read old v rest (W.contents output.old)
            → GoesOn backlog w (read ++ byte ∷ []) old self.new (W.contents output.new) result }
    {
        if self.line.push(byte).is_err() {
            return Err(PipeFault::Memory);
        }
        if byte == b'\n' {
            return self.play(output);
        }
        Ok(())
    }

    /// Bytes of the script come. Each answer is written before the next line is played.
    pub(crate) fn read_all<W: Write>(
        &mut self,
        bytes: &[u8],
        output: &mut W,
    ) -> Result<(), PipeFault>
        ensures { (backlog : ℕ) (w : WorldState) (read : List ℕ) (old : Option (List ℕ))
            (v : WorldState) (rest : List ℕ) → IsOnStage backlog v rest self.old
            → Goes backlog w read old v rest (W.contents output.old)
            → GoesOn backlog w (read ++ bytes.now) old self.new (W.contents output.new) result }
    {
        for byte in bytes {
            self.read(*byte, output)?;
        }
        match output.flush() {
            Ok(()) => Ok(()),
            Err(_error) => Err(PipeFault::Write),
        }
    }
}
