//! What the server meets its clients and its input through: sources and sinks of bytes, connections, and clocks.
//!
//! Sources, sinks and connections have a count of their faults. A call answers [`Failed`] only where the object's
//! count rose in that call, so a fault that the server reports is one that its input, output or network had.
#![tactic(auto)]

mod clock;
mod failed;
mod links;
mod sink;
mod source;

pub use clock::{Clock, MemoryClock};
pub use failed::Failed;
pub use links::{LinkEvent, LinkScript, LinkStep, Links, MemoryLinks};
pub use sink::{MemorySink, Sink, WriteSink, write_whole};
pub use source::{MemorySource, ReadSource, Source};
