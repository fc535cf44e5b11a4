// What a request comes to.
use sdb_pairs::Changes;
use sdb_reply::Outcome;

/// What a request comes to. Nothing is changed yet.
#[derive(Debug, Drop)]
pub struct Answer<'a> {
    /// What is answered.
    pub outcome: Outcome<'a>,
    /// The changes of a write that is done; none for a read and for a refusal.
    pub changes: Changes,
    /// The items that a Select is thought to look at; 0 for any other action.
    pub bound: u64,
}
