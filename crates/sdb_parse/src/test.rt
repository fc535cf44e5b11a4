// Tests of a value.
use crate::pattern::Pattern;
use sdb_base::{Text, Texts};

/// What a predicate asks. Texts are compared by their bytes (SimpleDB Developer Guide, "Comparison
/// Operators").
#[derive(Debug, Drop)]
pub enum Test {
    Eq(Text),
    Ne(Text),
    Lt(Text),
    Le(Text),
    Gt(Text),
    Ge(Text),
    Like(Pattern),
    NotLike(Pattern),
    /// From the first to the second, with both.
    Between(Text, Text),
    OneOf(Texts),
    IsNull,
    IsNotNull,
}
