//! The bytes of changes, as they stand in records of a journal and in checkpoints.
#![tactic(auto)]

mod entries;
mod fault;
mod laws;
mod read;
mod stands;
mod texts;
mod write;

pub use entries::read_change;
pub use fault::RecordFault;
pub use laws::{changes_are_a_format, no_spelling_begins_another, one_change_is_a_format};
pub use read::read_changes;
pub use stands::{
    empty_files_stand, fine_files_stand, ground_stays, groups_lead_there, none_is_bad,
    one_is_first_bad, stand_for_one,
};
pub use write::{write_change, write_changes};
