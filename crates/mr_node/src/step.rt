// What a step came to.
use mr_node_output::Outs;

/// What a step came to.
#[derive(Drop)]
pub enum Step {
    /// Nothing whole is there.
    Idle,
    /// Something was used, or the link closed.
    Done(Outs),
    /// The node closed this link earlier.
    Closed,
}

/// What a step came to whose outs were lent to it.
#[derive(Clone, Copy)]
pub(crate) enum Outcome {
    /// Nothing whole is there.
    Idle,
    /// Something was used, or the link closed. The outs tell what is given out.
    Done,
    /// The node closed this link earlier.
    Closed,
}
