// The operations of puts and deletions.
ghost use Rattle.std.specs.Prelude.{◌≡◌, ◌++◌, [], map, IfOk, OnOk};
ghost use Rattle.sdb_pairs.specs.Laws.{del_ops, part_op};
ghost use Rattle.sdb_pairs.specs.declared.op.Op.TheVariants.{AddPair, DropName};
ghost use Rattle.sdb_write.specs.Changes.{put_ops, replaced_names};
ghost use Rattle.sdb_write.specs.ItemWrites.{part_of, put_of};

use sdb_action::{DropPart, PutPair};
use sdb_base::OutOfMemory;
use sdb_pairs::{Op, Ops, Pair};
use std::alloc::Global;
use std::collections::BTreeSet;

/// The operations of a put: each name with a Replace is dropped, then each pair is added.
pub(crate) fn put_ops(alloc: Global, pairs: &[PutPair]) -> Result<Ops, OutOfMemory>
    ensures { IfOk result (λ ops. ops ≡ put_ops (map put_of pairs.now)) }
{
    let mut ops = Ops::new(alloc);
    drop_replaced(alloc, pairs, &mut ops)?;
    add_pairs(alloc, pairs, &mut ops)?;
    Ok(ops)
}

fn drop_replaced(alloc: Global, pairs: &[PutPair], ops: &mut Ops) -> Result<(), OutOfMemory>
    ensures { OnOk result (ops.new ≡ ops.old ++ map DropName (replaced_names (map put_of pairs.now))) }
{
    let mut seen = BTreeSet::new(alloc);
    for pair in pairs {
        if pair.replace && seen.insert(pair.name.as_str())? {
            ops.push(Op::DropName(pair.name.copy(alloc)?))?;
        }
    }
    Ok(())
}

fn add_pairs(alloc: Global, pairs: &[PutPair], ops: &mut Ops) -> Result<(), OutOfMemory>
    ensures { OnOk result (ops.new ≡ ops.old ++ map (λ p. AddPair p.pair) (map put_of pairs.now)) }
{
    for pair in pairs {
        let name = pair.name.copy(alloc)?;
        let value = pair.value.copy(alloc)?;
        ops.push(Op::AddPair(Pair { name, value }))?;
    }
    Ok(())
}

/// The operations of a deletion: each part is dropped, or every pair where there is no part.
pub(crate) fn drop_ops(alloc: Global, parts: &[DropPart]) -> Result<Ops, OutOfMemory>
    ensures { IfOk result (λ ops. ops ≡ del_ops (map part_of parts.now)) }
{
    let mut ops = Ops::new(alloc);
    if parts.is_empty() {
        ops.push(Op::DropAll)?;
        return Ok(ops);
    }
    for part in parts {
        ops.push(drop_op(alloc, part)?)?;
    }
    Ok(ops)
}

fn drop_op(alloc: Global, part: &DropPart) -> Result<Op, OutOfMemory>
    ensures { IfOk result (λ op. op ≡ part_op (part_of part.now)) }
{
    let name = part.name.copy(alloc)?;
    match &part.value {
        Some(value) => {
            let value = value.copy(alloc)?;
            Ok(Op::DropPair(Pair { name, value }))
        }
        None => Ok(Op::DropName(name)),
    }
}
