//! A script replayed over a store: the keys of a source, the events of an input, and the answers to the requests in
//! them, written as their records.
#![tactic(auto)]

mod happening;
mod keyed;
mod laws;
mod opening;
mod playing;
mod shown;
mod step;

pub use happening::core_event;
pub use laws::{without_a_fault_all_is_decided, without_a_fault_one_text_is_shown};
pub use opening::open;
pub use playing::replay;
pub use shown::append_sent;
