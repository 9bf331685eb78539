//! The append-only file on the disk, and what becomes of it.
ghost use Rattle.std.specs.Prelude.{None};

use mr_aof::NoFile;
use mr_file::{Change, Failed, LogFile, SystemFile};
use mr_notices::Notices;
use std::time::{Duration, Instant};

/// What becomes of the file is looked for after so many seconds.
const LOOKED_AFTER: u64 = 1;

/// How often a file was written anew, and how many bytes took its place last, in how many milliseconds.
#[derive(Clone, Copy)]
pub struct Replaced {
    times: u64,
    bytes: usize,
    millis: u64,
}

impl Replaced {
    /// It never was.
    pub fn never() -> Replaced {
        Replaced {
            times: 0,
            bytes: 0,
            millis: 0,
        }
    }
}

/// Of a file: what became of it, through it or by others.
pub trait SeesChange {
    /// Its name, and what became of it by others, if anything did.
    fn change(&self) -> Option<(&str, Change)>;

    /// How often it was written anew.
    fn replaced(&self) -> Replaced;
}

impl SeesChange for NoFile {
    fn change(&self) -> Option<(&str, Change)> {
        None
    }

    fn replaced(&self) -> Replaced {
        Replaced::never()
    }
}

impl SeesChange for KeptFile {
    fn change(&self) -> Option<(&str, Change)> {
        let change = self.file.change()?;
        Some((self.file.path(), change))
    }

    fn replaced(&self) -> Replaced {
        self.replaced
    }
}

/// Says each time that the file was written anew; and once that it was removed, replaced, cut or written by others, and again where
/// that comes again after it was whole.
#[derive(Drop)]
pub struct FileNotice {
    replaced: u64,
    looked: Option<Instant>,
    told: bool,
}

impl FileNotice {
    /// Nothing was looked for.
    pub fn new() -> FileNotice {
        FileNotice {
            replaced: 0,
            looked: None,
            told: false,
        }
    }

    /// Says that the file was written anew where it was since the last look, and looks what became of it by others, once a second.
    pub fn look<F: SeesChange>(&mut self, notices: &mut Notices, file: &F) {
        self.tell_replaced(notices, file.replaced());
        if !self.is_due(notices) {
            return;
        }
        let Some((path, change)) = file.change() else {
            self.told = false;
            return;
        };
        if !self.told {
            notices.tell(&format_args!(
                "{path}: {change}: a restart may not find what is written now; BGREWRITEAOF writes it anew"
            ));
        }
        self.told = true;
    }

    /// Says how many bytes took the file's place, and how long that took, where it was written anew.
    fn tell_replaced(&mut self, notices: &mut Notices, replaced: Replaced) {
        if replaced.times == self.replaced {
            return;
        }
        self.replaced = replaced.times;
        let (count, millis) = (replaced.bytes, replaced.millis);
        notices.tell(&format_args!("file written anew: {count} bytes in {millis} ms"));
    }

    /// Whether a second has passed since it was so last. Where the clock fails none has.
    fn is_due(&mut self, notices: &Notices) -> bool {
        let Some(now) = notices.now() else {
            return false;
        };
        if let Some(last) = self.looked
            && now.duration_since(last).as_secs() < LOOKED_AFTER
        {
            return false;
        }
        self.looked = Some(now);
        true
    }
}

/// The append-only file on the disk, which counts how often it is written anew.
#[derive(Drop)]
pub struct KeptFile {
    rt: HostRuntime,
    file: SystemFile,
    replaced: Replaced,
}

impl KeptFile {
    /// The file, which was never written anew.
    pub fn new(rt: HostRuntime, file: SystemFile) -> KeptFile {
        KeptFile {
            rt,
            file,
            replaced: Replaced::never(),
        }
    }

    /// The file as the system has it.
    pub fn system(&self) -> &SystemFile {
        &self.file
    }

    /// How long it is since this moment. Where the clock fails no time has passed.
    fn since(&self, began: Option<Instant>) -> Duration {
        match (began, Instant::now(&self.rt)) {
            (Some(began), Ok(now)) => now.duration_since(began),
            (_, _) => Duration::ZERO,
        }
    }
}

impl LogFile for KeptFile {
    ghost told = { λ _. None };

    ghost synced = { λ _. None };

    ghost aside = { λ _. None };

    ghost failures = { λ f. f.file.failed };

    fn read(&mut self, at: u64, into: &mut [u8]) -> Result<usize, Failed> {
        self.file.read(at, into)
    }

    fn write(&mut self, piece: &[u8]) -> Result<usize, Failed> {
        self.file.write(piece)
    }

    fn sync(&mut self) -> Result<(), Failed> {
        self.file.sync()
    }

    fn set_aside(&mut self, from: u64) -> Result<(), Failed> {
        self.file.set_aside(from)
    }

    fn cut(&mut self, len: u64) -> Result<(), Failed> {
        self.file.cut(len)
    }

    fn replace(&mut self, whole: &[u8]) -> Result<(), Failed> {
        let began = Instant::now(&self.rt).ok();
        self.file.replace(whole)?;
        self.replaced = Replaced {
            times: self.replaced.times.saturating_add(1),
            bytes: whole.len(),
            millis: u64::try_from(self.since(began).as_millis()).unwrap_or(u64::MAX),
        };
        Ok(())
    }
}
