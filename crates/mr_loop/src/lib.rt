//! The event loop: what peers send is read and stepped, what it changed is written to the file, and then it is answered and sent on.
#![tactic(auto)]

mod accepting;
mod carrying;
mod dialing;
mod dropping;
mod fault;
mod filing;
mod followed;
mod host;
mod lacking;
mod laws;
mod links;
mod moment;
mod reading;
mod serving;
mod stepping;
mod ticking;
mod told;
mod turning;
mod watch;
mod writing;

pub use fault::LoopFault;
pub use followed::Followed;
pub use lacking::{Asked, Lacked};
pub use laws::{
    connections_have_sockets, ids_are_taken_once, moments_never_go_back, nothing_else_is_sent,
    nothing_is_sent_behind_a_fault, shutdown_is_known, the_wire_has_what_is_sent,
    what_came_is_counted, what_is_sent_goes_out_in_order, what_is_sent_is_filed,
};
pub use links::Links;
pub use serving::serve;
pub use told::Turn;
pub use turning::turn;
pub use watch::{Unwatched, Watch};
