// A page of a Select's answer.
use sdb_pairs::ItemsOut;
use sdb_token::Position;

/// A page of a Select's answer.
#[derive(Debug, Drop)]
pub struct Page<'a> {
    /// The items, lent from their domain; none where they are counted.
    pub items: ItemsOut<'a>,
    /// How many items the page counts, exactly for `count(*)`.
    pub count: Option<u64>,
    /// After which position the next page begins, exactly where something is left.
    pub next: Option<Position>,
    /// How many items the Select is thought to look at.
    pub bound: u64,
}
