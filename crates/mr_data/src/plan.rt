// What a command answers, and what it does.
use mr_effect::Effect;
use mr_resp::Reply;

/// What a command answers, and what it does. A plan owns what it holds.
#[derive(Drop)]
pub struct Plan {
    pub reply: Reply,
    /// The effects, in the order in which they are applied.
    pub effects: Vec<Effect<'static>>,
}
