//! When what a file grew by is made to last.

/// Whether each append is synced.
#[derive(Clone, Copy, Debug, PartialEq, Eq)]
pub enum SyncMode {
    Always,
    No,
}
