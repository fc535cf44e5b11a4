//! How a run of the program ends: its status, the number that the system gets, and the line on standard error.
#![tactic(auto)]

mod status;

pub use status::Status;
