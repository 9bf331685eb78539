//! Replication: the ids of streams, the last bytes of one, and who may go on from them.
#![tactic(auto)]

mod backlog;
mod decision;
mod laws;
mod lineage;
mod replication_id;
mod standing;

pub use backlog::{Backlog, MOST_BACKLOG, OFFSET_LIMIT, USUAL_BACKLOG};
pub use decision::{PsyncAnswer, decide};
pub use laws::{
    cuts_do_not_matter, held_is_the_end, old_id_ends_at_the_change, renaming_strands_nobody,
    snapshot_ends_all_else, texts_are_forty_digits, texts_are_of_one_id,
};
pub use lineage::Lineage;
pub use replication_id::ReplId;
pub use standing::Standing;
