use thiserror::Error;

/// Memory ran out while effects were applied: the dataset is spent, and the node stops.
#[derive(Clone, Copy, Debug, PartialEq, Eq, Drop, Error)]
#[error("out of memory, and the dataset is spent")]
pub struct Spent;
