ghost use Rattle.std.specs.Prelude.{◌≡◌, ◌↔◌, ◌≤◌, true, false, length, IsErr, IsErrOf, OnOk, OnErr};
ghost use Rattle.mr_file.specs.LogFile.{Rose, Appends, AppendsSome, Replaces, IsOldOrNew, IsSynced};

mod opening;

use crate::fault::LogFault;
use crate::no_file::NoFile;
use mr_file::{Failed, LogFile, SyncMode};

/// A file to which texts are appended. Once the file has failed, nothing more is done to it.
#[derive(Drop)]
pub struct Log<F: LogFile> {
    file: F,
    mode: SyncMode,
    broken: bool,
}

impl Log<NoFile> {
    /// A log for where there is no file: what is appended is dropped.
    pub fn none() -> Self
        ensures mode { result.mode ≡ SyncMode.No }
        ensures whole { result.broken ≡ false }
    {
        Log {
            file: NoFile,
            mode: SyncMode::No,
            broken: false,
        }
    }
}

impl<F: LogFile> Log<F> {
    /// The file.
    pub fn file(&self) -> &F
        ensures { result.now ≡ self.now.file }
    {
        &self.file
    }

    /// Nothing more is to be done to the file.
    fn device_failed(&mut self) -> LogFault
        ensures fault { result ≡ LogFault.Device }
        ensures broken { self.new ≡ record self.old { broken = true } }
    {
        self.broken = true;
        LogFault::Device
    }

    /// Appends a piece, and syncs it in the mode `Always` alone. After a fault a beginning of the piece is there, which may be
    /// empty or all of it.
    pub fn append(&mut self, piece: &[u8]) -> Result<(), LogFault>
        ensures ok { OnOk result
            (Appends (F.told self.old.file) (F.told self.new.file) piece.now (length piece.now)) }
        ensures synced { self.old.mode ≡ SyncMode.Always →
            OnOk result (IsSynced (F.told self.new.file) (F.synced self.new.file)) }
        ensures unsynced { self.old.mode ≡ SyncMode.No →
            F.synced self.new.file ≡ F.synced self.old.file }
        ensures err { OnErr result
            (AppendsSome (F.told self.old.file) (F.told self.new.file) piece.now) }
        ensures broken { IsErrOf result LogFault.Broken ↔ (self.old.broken ≡ true) }
        ensures untouched { self.old.broken ≡ true → self.new ≡ self.old }
        ensures later { F.failures self.old.file ≤ F.failures self.new.file }
        ensures device { IsErrOf result LogFault.Device →
            Rose (F.failures self.old.file) (F.failures self.new.file) }
        ensures no_other { IsErrOf result LogFault.Memory → ⊥ }
        ensures after { (self.new.broken ≡ true) ↔ IsErr result }
        ensures mode { self.new.mode ≡ self.old.mode }
    {
        if self.broken {
            return Err(LogFault::Broken);
        }
        if write_all(&mut self.file, piece).is_err() {
            return Err(self.device_failed());
        }
        if self.mode == SyncMode::Always && self.file.sync().is_err() {
            return Err(self.device_failed());
        }
        Ok(())
    }

    /// Puts these bytes in the place of all, synced in either mode. After a fault the old bytes are there, or the new ones.
    pub fn replace(&mut self, whole: &[u8]) -> Result<(), LogFault>
        ensures ok { OnOk result
            (Replaces (F.told self.old.file) (F.told self.new.file) whole.now) }
        ensures synced { OnOk result (IsSynced (F.told self.new.file) (F.synced self.new.file)) }
        ensures err { OnErr result
            (IsOldOrNew (F.told self.old.file) (F.told self.new.file) whole.now) }
        ensures broken { IsErrOf result LogFault.Broken ↔ (self.old.broken ≡ true) }
        ensures untouched { self.old.broken ≡ true → self.new ≡ self.old }
        ensures later { F.failures self.old.file ≤ F.failures self.new.file }
        ensures device { IsErrOf result LogFault.Device →
            Rose (F.failures self.old.file) (F.failures self.new.file) }
        ensures no_other { IsErrOf result LogFault.Memory → ⊥ }
        ensures after { (self.new.broken ≡ true) ↔ IsErr result }
        ensures mode { self.new.mode ≡ self.old.mode }
    {
        if self.broken {
            return Err(LogFault::Broken);
        }
        if self.file.replace(whole).is_err() {
            return Err(self.device_failed());
        }
        Ok(())
    }
}

/// Appends all of a piece, in as many writes as it takes.
fn write_all<F: LogFile>(file: &mut F, piece: &[u8]) -> Result<(), Failed>
    ensures written { OnOk result
        (Appends (F.told file.old) (F.told file.new) piece.now (length piece.now)) }
    ensures failed { OnErr result (AppendsSome (F.told file.old) (F.told file.new) piece.now) }
    ensures covered { F.synced file.new ≡ F.synced file.old }
    ensures later { F.failures file.old ≤ F.failures file.new }
    ensures cause { OnErr result (Rose (F.failures file.old) (F.failures file.new)) }
{
    let mut at = 0;
    while at < piece.len() {
        match file.write(&piece[at..]) {
            Ok(count) => at += count,
            Err(failed) => return Err(failed),
        }
    }
    Ok(())
}
