//! Whether an item holds a condition of a Select expression.
#![tactic(auto)]

mod asking;
mod attr;
mod holding;
mod needing;

pub use asking::asks;
pub use attr::sole;
pub use holding::holds;
pub use needing::{can_hold, has_value_for_all, has_value_for_some, has_value_that_fits};
