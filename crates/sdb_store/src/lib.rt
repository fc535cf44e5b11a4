//! Durable accounts: changes are staged, committed as one record of the journal, and found again after a crash.
#![tactic(auto)]

mod closed;
mod commit;
mod first;
mod frame;
mod laws;
mod opening;
mod small;
mod store;
mod sync;

pub use laws::lawful_accounts_have_small_items;
pub use store::Store;
