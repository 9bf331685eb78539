use crate::scan::ArrayProgress;
use mr_inline::LineProgress;

/// How far the front of an input is known, from one call to the next: the words of an array, or the bytes of a line.
#[derive(Clone, Copy)]
pub struct Progress {
    pub(crate) array: ArrayProgress,
    pub(crate) line: LineProgress,
}

/// How far the command text at the front of an input is known, from one call to the next.
#[derive(Clone, Copy)]
pub struct CommandProgress {
    pub(crate) array: ArrayProgress,
}

impl CommandProgress {
    ghost use Rattle.mr_resp.specs.Resumed.{KnowsNothing};

    /// Nothing is known, which is true of each input.
    pub fn new() -> CommandProgress
        ensures { KnowsNothing result }
    {
        CommandProgress {
            array: ArrayProgress::new(),
        }
    }
}

impl Progress {
    ghost use Rattle.mr_resp.specs.Resumed.{IsFresh};

    /// Nothing is known, which is true of each input.
    pub fn new() -> Progress
        ensures { IsFresh result }
    {
        Progress {
            array: ArrayProgress::new(),
            line: LineProgress::new(),
        }
    }
}
