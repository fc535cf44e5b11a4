//! One request answered over the accounts: its outcome, and the changes that it comes to.
#![tactic(auto)]

mod answered;
mod answers;
mod describing;
mod gets;
mod laws;
mod listing;
mod selecting;

pub use answered::Answer;
pub use answers::answer;
pub use laws::{changes_lead_after, tokens_stand_where_more_is_left};
