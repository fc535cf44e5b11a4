//! Decisions on writes: what a write is refused for, or the changes that it comes to.
#![tactic(auto)]

mod changes;
mod decision;
mod deletions;
mod expectation;
mod laws;
mod limits;
mod ops;
mod puts;

pub use decision::decide;
pub use laws::{writes_are_changes, writes_keep_accounts_rising};
