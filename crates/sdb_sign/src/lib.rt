//! Signatures of requests: signature version 2 with HmacSHA256.
#![tactic(auto)]

mod canon;
mod claim;
mod fresh;
mod laws;
mod same;
mod verdict;
mod words;

pub use canon::string_to_sign;
pub use laws::{one_order, one_verdict};
pub use sdb_base::Verb;
pub use sdb_keys::hmac;
pub use verdict::verify;
