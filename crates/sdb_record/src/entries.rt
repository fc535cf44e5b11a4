// Operations and changes out of bytes.
ghost use Rattle.std.specs.Prelude.{◌≡◌, ◌<◌, ◌≤◌, ◌^◌, IfOk, IfErr, Ok, Err};
ghost use Rattle.sdb_record.specs.Entries.{OnFault, change_at, op_at, ops_at};

use crate::RecordFault;
use crate::texts::{read_name, read_pair, read_place};
use sdb_format::{read_byte, read_u16};
use sdb_pairs::{Change, Op, Ops};
use std::alloc::Global;

// An operation, and the bytes after it.
fn read_op(alloc: Global, bytes: &[u8]) -> Result<(Op, &[u8]), RecordFault>
    ensures ok { IfOk result (λ x. op_at bytes.now ≡ Ok (x.0, x.1.now)) }
    ensures err { OnFault result (op_at bytes.now) }
{
    let (tag, after) = read_byte(bytes, 0, 3)?;
    match tag {
        0 => {
            let (pair, rest) = read_pair(alloc, after)?;
            Ok((Op::AddPair(pair), rest))
        }
        1 => {
            let (pair, rest) = read_pair(alloc, after)?;
            Ok((Op::DropPair(pair), rest))
        }
        2 => {
            let (name, rest) = read_name(alloc, after)?;
            Ok((Op::DropName(name), rest))
        }
        3 => Ok((Op::DropAll, after)),
        _ => unreachable!(),
    }
}

// Operations behind their number, and the bytes after them.
fn read_ops(alloc: Global, bytes: &[u8]) -> Result<(Ops, &[u8]), RecordFault>
    ensures ok { IfOk result (λ x. ops_at bytes.now ≡ Ok (x.0, x.1.now)) }
    ensures err { OnFault result (ops_at bytes.now) }
{
    let (count, after) = read_u16(bytes, 1, u16::MAX)?;
    let mut ops = Ops::new(alloc);
    let mut rest = after;
    for done in 0..count {
        let (op, next) = read_op(alloc, rest)?;
        ops.push(op)?;
        rest = next;
    }
    Ok((ops, rest))
}

/// One change, and the bytes after it. OutOfMemory says nothing of the bytes.
pub fn read_change(alloc: Global, bytes: &[u8]) -> Result<(Change, &[u8]), RecordFault>
    ensures ok { IfOk result (λ x. change_at bytes.now ≡ Ok (x.0, x.1.now)) }
    ensures err { OnFault result (change_at bytes.now) }
{
    let (tag, after) = read_byte(bytes, 0, 2)?;
    let ((account, domain), rest) = read_place(alloc, after)?;
    match tag {
        0 => Ok((Change::MakeDomain(account, domain), rest)),
        1 => Ok((Change::DropDomain(account, domain), rest)),
        2 => {
            let (item, behind) = read_name(alloc, rest)?;
            let (ops, end) = read_ops(alloc, behind)?;
            Ok((Change::Edit(account, domain, item, ops), end))
        }
        _ => unreachable!(),
    }
}
