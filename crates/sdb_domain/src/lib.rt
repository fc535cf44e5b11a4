//! The accounts with their domains and items, as ordered maps.
#![tactic(auto)]

mod account;
mod accounts;
mod domain;
mod held;
mod items;
mod keyed;
mod laws;
mod metadata;
mod names;
mod opened;
mod row;
mod slot;
mod sums;

pub use accounts::Accounts;
pub use domain::Domain;
pub use items::Items;
pub use laws::walks_give_all;
pub use metadata::Metadata;
pub use row::Row;
pub use sums::item_weight;
