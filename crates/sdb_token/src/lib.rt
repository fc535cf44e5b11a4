//! Tokens: the position after which the next page begins, as a text that a client sends back as it came.
#![tactic(auto)]

mod digests;
mod laws;
mod position;
mod read;
mod write;

pub use digests::digest;
pub use laws::{one_digest_and_position, tokens_are_read};
pub use position::Position;
pub use read::read_token;
pub use write::write_token;
