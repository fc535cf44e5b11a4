//! The journal of a store: records behind gates, each on the disk when its append returns.
#![tactic(auto)]

mod append;
mod create;
mod cursor;
mod frame;
mod head;
mod journal;
mod numbers;
mod record;
mod window;

pub use head::read_head;
pub use journal::Journal;
