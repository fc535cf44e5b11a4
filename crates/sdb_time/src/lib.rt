//! Moments in text as Unix seconds.
#![tactic(auto)]

mod digits;
mod fault;
mod moment;
mod stamp;
mod zone;

pub use fault::TimeFault;
pub use moment::read_moment;
