// Operations on an item.
use crate::pair::Pair;
use sdb_base::{List, Text};

/// One step of an edit of an item. `DropName` takes out every value of that name, `DropAll` every pair.
#[derive(Debug, Drop)]
pub enum Op {
    AddPair(Pair),
    DropPair(Pair),
    DropName(Text),
    DropAll,
}

/// Operations in the order in which they apply.
pub type Ops = List<Op>;
