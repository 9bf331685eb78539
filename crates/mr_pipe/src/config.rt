// What a pipe is run with.
use mr_data::Given;
use mr_repl::ReplId;

/// What a pipe is run with: the id of its node, and the time and the chance of each step.
#[derive(Clone, Copy)]
pub struct PipeConfig {
    pub id: ReplId,
    pub given: Given,
}
