//! Items as sets of pairs, the operations on them, and the changes that make up all durable state.
#![tactic(auto)]

mod change;
mod edits;
mod few;
mod item;
mod laws;
mod listing;
mod op;
mod pair;
mod part;

pub use change::{Change, Changes};
pub use edits::merge;
pub use item::Item;
pub use laws::{
    changes_keep_accounts_rising, deletes_are_edits, drop_changes_one_domain,
    edit_changes_one_item, make_changes_one_domain, own_changes_rebuild, places_settle,
    places_tell_all, puts_are_edits, state_of_joined,
};
pub use listing::{ItemOut, ItemsOut, Pairs};
pub use op::{Op, Ops};
pub use pair::Pair;
pub use part::{Exchange, touched};
