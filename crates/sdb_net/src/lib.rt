//! Connections over real sockets, and the system's clock.
//!
//! What a socket or the clock gives, no contract can say. What is proved of [`TcpLinks`] is that the numbers of its
//! connections rise, that a Piece has one byte at least and fits the buffer, and that a call fails only where the
//! count of faults rose; and, of its bookkeeping, which connection has which socket, what is left to write on it,
//! which have been closed, and which has been idle longest.
#![tactic(auto)]

mod clock;
mod connections;
mod failed;
mod pending;
mod socket;
mod tcp;

pub use clock::SystemClock;
pub use tcp::TcpLinks;

#[cfg(test)]
mod tests;
