// Conditions as trees.
use crate::test::Test;
use sdb_base::{Boxed, List, Text};

/// What a predicate asks about.
#[derive(Debug, Drop)]
pub enum Operand {
    /// Some value of the attribute.
    Attr(Text),
    /// All values of the attribute.
    Every(Text),
    /// The name of the item.
    ItemName,
}

/// A condition. `And`, `Or` and `Inter` (`intersection`) that `parse` gives have two members or more.
#[derive(Debug, Drop)]
pub enum Expr {
    Pred(Operand, Test),
    Not(Boxed<Expr>),
    And(Exprs),
    Or(Exprs),
    Inter(Exprs),
}

/// Conditions in the order of the text.
pub type Exprs = List<Expr>;
