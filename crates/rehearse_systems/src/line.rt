//! The words of a line, and what they say.
use mr_file::SyncMode;
use mr_links::Side;
use rehearse_shared::{RehearsalFault, count_of};

/// Whether appends are synced.
pub fn mode_of(word: &str) -> Result<SyncMode, RehearsalFault> {
    match word {
        "always" => Ok(SyncMode::Always),
        "no" => Ok(SyncMode::No),
        _ => Err(RehearsalFault::Line),
    }
}

/// Whose end of a connection is meant.
pub fn side_of(word: &str) -> Result<Side, RehearsalFault> {
    match word {
        "opener" => Ok(Side::Opener),
        "other" => Ok(Side::Server),
        _ => Err(RehearsalFault::Line),
    }
}
