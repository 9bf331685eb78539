// What a node begins anew with.
use mr_node::Config;
use mr_repl::ReplId;

/// What a node begins anew with: what was found as its file, a fresh id, and its configuration, whose role isn't heeded.
#[derive(Clone, Copy)]
pub struct Restart<'k> {
    pub kept: &'k [u8],
    pub id: ReplId,
    pub config: Config,
}
