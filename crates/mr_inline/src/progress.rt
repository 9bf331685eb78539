ghost use Rattle.mr_inline.specs.Resumed.{IsFresh};

use crate::place::Place;

/// How far the front of a line that isn't whole yet has been read: a next call goes on from there.
#[derive(Clone, Copy)]
pub struct LineProgress {
    /// How many bytes have been read.
    pub(crate) at: usize,
    /// Where they lead.
    pub(crate) place: Place,
}

impl LineProgress {
    /// Nothing has been read.
    pub fn new() -> LineProgress
        ensures { IsFresh result }
    {
        LineProgress {
            at: 0,
            place: Place::Between,
        }
    }
}
