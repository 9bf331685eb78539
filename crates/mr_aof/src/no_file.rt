ghost use Rattle.std.specs.Prelude.{None};

use mr_file::{Failed, LogFile};

/// Where there is no file: what is written is dropped, nothing is ever read, and no call fails.
#[derive(Clone, Copy, Debug, PartialEq, Eq)]
pub struct NoFile;

impl LogFile for NoFile {
    ghost told = { λ _. None };

    ghost synced = { λ _. None };

    ghost aside = { λ _. None };

    ghost failures = { λ _. 0 };

    fn read(&mut self, at: u64, _into: &mut [u8]) -> Result<usize, Failed> {
        let _ = at;
        Ok(0)
    }

    fn write(&mut self, piece: &[u8]) -> Result<usize, Failed> {
        Ok(piece.len())
    }

    fn sync(&mut self) -> Result<(), Failed> {
        Ok(())
    }

    fn set_aside(&mut self, _from: u64) -> Result<(), Failed> {
        Ok(())
    }

    fn cut(&mut self, _len: u64) -> Result<(), Failed> {
        Ok(())
    }

    fn replace(&mut self, _whole: &[u8]) -> Result<(), Failed> {
        Ok(())
    }
}
