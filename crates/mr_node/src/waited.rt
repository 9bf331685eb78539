// What a request that waited comes to.
use mr_data::Plan;
use mr_resp::Reply;

/// What a request that waited comes to.
#[derive(Drop)]
pub(crate) enum Waited {
    /// Its plan is carried out.
    Run(Plan),
    /// It is answered this, and has no effect.
    Say(Reply),
}
