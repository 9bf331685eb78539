//! One node and one client: requests from a reader, replies to a writer.
#![tactic(auto)]

mod config;
mod fault;
mod keep;
mod laws;
mod linked_node;
mod relay;
mod serve;

pub use config::PipeConfig;
pub use fault::PipeFault;
pub use keep::write_reply;
pub use laws::{
    files_fold, files_stay_synced, open_transactions_wait, replica_links_are_silent,
    replicas_only_rewrite, transactions_load_whole,
};
pub use relay::{pipe, pipe_with, read_piece};
