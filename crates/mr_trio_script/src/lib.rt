//! Scripts that ask three nodes: what each line says, who is asked, and what is written in answer.
#![tactic(auto)]

mod asking;
mod client;
mod ending;
mod fault;
mod head;
mod line;
mod naming;
mod nodes;
mod place;
mod playing;
mod reply;
mod reply_line;
mod request;
mod showing;
mod taking;
mod telling;

pub use client::{Client, ClientFault};
pub use ending::Ending;
pub use fault::TrioFault;
pub use naming::{HOST, node_named, with_address};
pub use nodes::Nodes;
pub use place::Place;
pub use playing::play;
pub use reply::reply_end;
