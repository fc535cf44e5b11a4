//! The server: events of connections drive the core, and its answers are sent.
#![tactic(auto)]

mod hosting;
mod send;
mod server;
mod stepping;
mod turn;

pub use hosting::serve;
pub use server::drive;
