//! Scripts: what happens to a server, written down event by event, and the answers that it gives.
#![tactic(auto)]

mod connections;
mod draws;
mod event;
mod fault;
mod front;
mod held;
mod laws;
mod line;
mod names;
mod operation;
mod reader;
mod request;
mod workload;
mod written;

pub use event::ScriptEvent;
pub use fault::ScriptFault;
pub use laws::{
    events_come_one_by_one, judged_records_stay, one_reading, records_are_spelled,
    scripts_are_spelled, workloads_are_scripts,
};
pub use reader::ScriptReader;
pub use workload::generate;
pub use written::{write_closed, write_out};
