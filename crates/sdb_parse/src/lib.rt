//! The Select language: its trees, and how a text is read as one.
#![tactic(auto)]

mod condition;
mod cursor;
mod expr;
mod fault;
mod fitting;
mod joint;
mod judging;
mod laws;
mod letters;
mod line;
mod matching;
mod names;
mod pattern;
mod predicate;
mod printer;
mod printing;
mod reading;
mod select;
mod sign;
mod term;
mod terms;
mod test;

pub use expr::{Expr, Exprs, Operand};
pub use fitting::fits;
pub use laws::{computed_is_answered, one_answer, one_tree, printed_is_read, printed_spells};
pub use matching::like;
pub use pattern::Pattern;
pub use printing::print;
pub use reading::parse;
pub use select::{Output, Select, Sort, SortKey};
pub use test::Test;
