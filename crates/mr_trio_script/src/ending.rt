use mr_repl::ReplId;

/// What a node is at the end of a script.
#[derive(Clone, Copy, Debug, PartialEq, Eq)]
pub struct Ending {
    pub master: bool,
    pub id: ReplId,
    pub offset: u64,
}
