//! What requests cost: units of 10^-10 of an hour, and how they are printed.
#![tactic(auto)]

mod prices;
mod print;

pub use prices::units;
pub use print::print_units;
