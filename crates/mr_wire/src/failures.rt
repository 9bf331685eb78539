ghost use Rattle.std.specs.Prelude.{◌≡◌, ◌≤◌};
ghost use Rattle.mr_file.specs.LogFile.{Rose};

use crate::wire::{Failed, Moved};

/// How often a wire failed. The count stays at its greatest.
#[derive(Drop)]
pub(crate) struct Failures {
    count: u64,
}

impl Failures {
    /// No failure so far.
    pub(crate) fn new() -> Failures
        ensures { result.count ≡ 0 }
    {
        Failures { count: 0 }
    }

    /// Counts a failure.
    pub(crate) fn failure(&mut self) -> Failed
        ensures later { self.old.count ≤ self.new.count }
        ensures rose { Rose self.old.count self.new.count }
    {
        self.count = self.count.saturating_add(1);
        Failed
    }

    /// Counts an answer that is a failure.
    pub(crate) fn tell(&mut self, moved: Moved) -> Moved
        ensures result { result ≡ moved }
        ensures later { self.old.count ≤ self.new.count }
        ensures cause { moved ≡ Moved.Failed → Rose self.old.count self.new.count }
    {
        match moved {
            Moved::Failed => {
                let _ = self.failure();
                moved
            }
            Moved::Bytes(_) | Moved::NotReady | Moved::End => moved,
        }
    }
}
