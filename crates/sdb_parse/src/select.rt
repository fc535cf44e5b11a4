// A Select as a tree.
use crate::expr::Expr;
use sdb_base::{Text, Texts};

/// A Select expression (SimpleDB Developer Guide, "Using Select to Create Amazon SimpleDB Queries").
#[derive(Debug, Drop)]
pub struct Select {
    pub output: Output,
    pub domain: Text,
    pub cond: Option<Expr>,
    pub sort: Option<Sort>,
    /// At most how many items a page has: 1 to 2500.
    pub limit: Option<u16>,
}

/// What is given of an item.
#[derive(Debug, Drop)]
pub enum Output {
    /// `*`: all attributes.
    All,
    /// `itemName()`: the name alone.
    Names,
    /// `count(*)`: how many items there are.
    Count,
    /// The attributes with these names.
    Listed(Texts),
}

/// By what items are ordered, and whether downwards.
#[derive(Debug, Drop)]
pub struct Sort {
    pub by: SortKey,
    pub down: bool,
}

/// By what items are ordered.
#[derive(Debug, Drop)]
pub enum SortKey {
    Attr(Text),
    ItemName,
}
