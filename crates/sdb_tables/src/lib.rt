//! The fault table, and the rules by which the fields of a request are read.
#![tactic(auto)]

mod faults;
mod kind;
mod refusal;
mod rules;

pub use faults::{FAULTS, FaultRow, fault_row, fault_table};
pub use kind::FieldKind;
pub use refusal::Refusal;
pub use rules::{Fields, ParamRow, Rules, read_field, read_rules};
