// Operations on a list of pairs, in place.
ghost use Rattle.std.specs.Prelude.{◌≡◌, length, filter, IfOk};
ghost use Rattle.sdb_pairs.specs.Additions.{is_addition};
ghost use Rattle.sdb_pairs.specs.Pairs.{merged};

use crate::item::Item;
use crate::op::{Op, Ops};
use sdb_base::OutOfMemory;
use std::alloc::Global;

/// The item after the operations in order. Room is made for the pairs that it has, and for a new item for those that the
/// operations may add.
pub fn merge(alloc: Global, item: &Item, ops: &Ops) -> Result<Item, OutOfMemory>
    ensures { IfOk result (λ new. new ≡ merged item.now ops.now) }
{
    let room = match item.pairs().len() {
        0 => count_additions(ops),
        count => count,
    };
    let mut new = item.copy(alloc, room)?;
    for op in ops.as_slice() {
        new.take(alloc, op)?;
    }
    Ok(new)
}

fn count_additions(ops: &Ops) -> usize
    ensures { result ≡ length (filter is_addition ops.now) }
{
    ops.as_slice()
        .iter()
        .filter(|op| matches!(op, Op::AddPair(_)))
        .count()
}
