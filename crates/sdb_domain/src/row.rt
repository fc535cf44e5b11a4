// An item with its name, lent from its domain.
use sdb_base::Text;
use sdb_pairs::Item;

/// An item with its name, lent from its domain.
#[derive(Clone, Copy, Debug)]
pub struct Row<'a> {
    pub name: &'a Text,
    pub item: &'a Item,
}
