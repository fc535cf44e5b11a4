//! The outcome of a request, and the bytes that tell it.
#![tactic(auto)]

mod bodies;
mod content;
mod digits;
mod faults;
mod outcome;
mod parts;
mod pieces;
mod reckoning;
mod results;
mod telling;
mod words;

pub use bodies::body;
pub use faults::{fault_into, refusal_into, room};
pub use outcome::{Outcome, RequestId};
pub use parts::append_hours;
pub use telling::told;
