// What is to be carried after a call on a node.
use mr_node_output::Outs;
use mr_repl::ReplId;

/// What a call on a node gave out, with the node's number, and the id and offset that it showed before the call.
#[derive(Clone, Copy)]
pub struct Giving<'o> {
    pub node: usize,
    pub id: ReplId,
    pub offset: u64,
    pub outs: &'o Outs,
}
