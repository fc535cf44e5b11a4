//! The keys file: the accounts' key ids and secrets.
#![tactic(auto)]

mod fault;
mod file;
mod keys;
mod laws;
mod line;
mod mac;
mod prepared;

pub use fault::KeyFault;
pub use file::read_keys;
pub use keys::{Key, Keys};
pub use laws::one_key;
pub use mac::hmac;
pub use prepared::PreparedKey;
