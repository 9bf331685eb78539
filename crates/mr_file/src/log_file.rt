ghost use Rattle.std.specs.Prelude.{◌≡◌, ℕ, ◌+◌, ◌<◌, ◌≤◌, ◌^◌, List, length, Option, IfOk, OnOk, OnErr};
ghost use Rattle.mr_file.specs.LogFile.{Rose, Reads, ReadsSome, Appends, AppendsSome, Keeps, Replaces, IsOldOrNew, IsSynced, SetsAside, StaysCovered};

use thiserror::Error;

/// The file answered that it failed.
#[derive(Clone, Copy, Debug, PartialEq, Eq, Error)]
#[error("file failed")]
pub struct Failed;

/// A file that grows at its end. One in memory tells its bytes, how many of them the last sync covered, and what was set
/// aside of it. One of the system tells none of this, and then only the clauses on failures say something. A failure is
/// answered only where the count of failures rose, or stands at its greatest.
pub trait LogFile {
    ghost told: { Self → Option (List ℕ) };

    ghost synced: { Self → Option ℕ };

    /// What was set aside, one piece behind another.
    ghost aside: { Self → Option (List ℕ) };

    ghost failures: { Self → ℕ };

    /// Reads from a place on. The answer is 0 only at the end, or where the buffer is empty.
    fn read(&mut self, at: u64, into: &mut [u8]) -> Result<usize, Failed>
        ensures within { IfOk result (λ n. n ≤ length into.old) }
        ensures countable { IfOk result (λ n. at + n < 2 ^ 64) }
        ensures read { IfOk result (λ n. Reads (told self.old) at into.old into.new n) }
        ensures some { IfOk result (λ n. ReadsSome (told self.old) at into.old n) }
        ensures same { (told self.new ≡ told self.old) × (synced self.new ≡ synced self.old) }
        ensures beside { aside self.new ≡ aside self.old }
        ensures later { failures self.old ≤ failures self.new }
        ensures cause { OnErr result (Rose (failures self.old) (failures self.new)) };

    /// Appends a beginning of the piece: at least one byte, unless the piece is empty.
    fn write(&mut self, piece: &[u8]) -> Result<usize, Failed>
        ensures within { IfOk result (λ n. n ≤ length piece.now) }
        ensures some { IfOk result (λ n. 0 < length piece.now → 0 < n) }
        ensures written { IfOk result (λ n. Appends (told self.old) (told self.new) piece.now n) }
        ensures failed { OnErr result (AppendsSome (told self.old) (told self.new) piece.now) }
        ensures covered { synced self.new ≡ synced self.old }
        ensures beside { aside self.new ≡ aside self.old }
        ensures later { failures self.old ≤ failures self.new }
        ensures cause { OnErr result (Rose (failures self.old) (failures self.new)) };

    /// Has all bytes reach the disk.
    fn sync(&mut self) -> Result<(), Failed>
        ensures durable { OnOk result (IsSynced (told self.new) (synced self.new)) }
        ensures failed { OnErr result (synced self.new ≡ synced self.old) }
        ensures same { told self.new ≡ told self.old }
        ensures beside { aside self.new ≡ aside self.old }
        ensures later { failures self.old ≤ failures self.new }
        ensures cause { OnErr result (Rose (failures self.old) (failures self.new)) };

    /// Copies what stands from a place on to a place beside the file, and has the copy reach the disk. After a failure there is
    /// no such copy.
    fn set_aside(&mut self, from: u64) -> Result<(), Failed>
        ensures copied { OnOk result
            (SetsAside (told self.old) (aside self.old) (aside self.new) from) }
        ensures failed { OnErr result (aside self.new ≡ aside self.old) }
        ensures same { (told self.new ≡ told self.old) × (synced self.new ≡ synced self.old) }
        ensures later { failures self.old ≤ failures self.new }
        ensures cause { OnErr result (Rose (failures self.old) (failures self.new)) };

    /// Keeps the first bytes and drops the others.
    fn cut(&mut self, len: u64) -> Result<(), Failed>
        ensures kept { OnOk result (Keeps (told self.old) (told self.new) len) }
        ensures covered { OnOk result (StaysCovered (synced self.old) (synced self.new) len) }
        ensures failed { OnErr result (told self.new ≡ told self.old) }
        ensures still { OnErr result (synced self.new ≡ synced self.old) }
        ensures beside { aside self.new ≡ aside self.old }
        ensures later { failures self.old ≤ failures self.new }
        ensures cause { OnErr result (Rose (failures self.old) (failures self.new)) };

    /// Puts these bytes in the place of all, and has them reach the disk. After a failure there are the old ones or the new.
    fn replace(&mut self, whole: &[u8]) -> Result<(), Failed>
        ensures replaced { OnOk result (Replaces (told self.old) (told self.new) whole.now) }
        ensures durable { OnOk result (IsSynced (told self.new) (synced self.new)) }
        ensures failed { OnErr result (IsOldOrNew (told self.old) (told self.new) whole.now) }
        ensures still { OnErr result (told self.new ≡ told self.old →
            synced self.new ≡ synced self.old) }
        ensures beside { aside self.new ≡ aside self.old }
        ensures later { failures self.old ≤ failures self.new }
        ensures cause { OnErr result (Rose (failures self.old) (failures self.new)) };
}
