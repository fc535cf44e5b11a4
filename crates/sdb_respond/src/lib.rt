//! The reply of one arrival: the bytes of its response, and the changes that it comes to.
#![tactic(auto)]

mod answered;
mod laws;
mod replies;

pub use answered::Response;
pub use laws::{first_refusal_answers, reads_are_lawful};
pub use replies::respond;
