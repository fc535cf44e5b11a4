//! The commands of the program, over sources of keys and of input, a sink of output, links, a disk and a clock.
#![tactic(auto)]

mod answer;
mod bare;
mod command;
mod gathered;
mod held;
mod line;
mod session;

pub use command::run;
pub use sdb_status::Status;
