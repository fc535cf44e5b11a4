// Changes into bytes.
ghost use Rattle.std.specs.Prelude.{◌≡◌, ◌<◌, ◌≤◌, ◌^◌, ◌++◌, [], ◌∷◌, length, IfOk, OnOk};
ghost use Rattle.sdb_base.specs.Names.{IsName, IsValue};
ghost use Rattle.sdb_format.specs.Numbers.{be16, be32};
ghost use Rattle.sdb_format.specs.Letters.{text_bytes};
ghost use Rattle.sdb_pairs.specs.Lawful.{IsDomainKey, IsLawfulPair, IsLawfulOp, IsLawfulChange, AreLawfulChanges};
ghost use Rattle.sdb_record.specs.Entries.{AreOps};
ghost use Rattle.sdb_record.specs.Spelling.{place_bytes, pair_bytes, op_bytes, ops_bytes, change_bytes, spelling};

use sdb_base::{AccountId, Bytes, OutOfMemory, Text};
use sdb_pairs::{Change, Changes, Op, Ops, Pair};
use std::alloc::Global;

fn append_u16(out: &mut Bytes, number: u16) -> Result<(), OutOfMemory>
    ensures { OnOk result (out.new.bytes ≡ out.old.bytes ++ be16 number) }
{
    out.append(&[(number / 256) as u8, (number % 256) as u8])
}

fn append_u32(out: &mut Bytes, number: u32) -> Result<(), OutOfMemory>
    ensures { OnOk result (out.new.bytes ≡ out.old.bytes ++ be32 number) }
{
    append_u16(out, (number / 65536) as u16)?;
    append_u16(out, (number % 65536) as u16)
}

fn append_text(out: &mut Bytes, text: &Text) -> Result<(), OutOfMemory>
    requires { length text.now < 2 ^ 16 }
    ensures { OnOk result (out.new.bytes ≡ out.old.bytes ++ text_bytes text.now) }
{
    let bytes = text.as_str().as_bytes();
    append_u16(out, bytes.len() as u16)?;
    out.append(bytes)
}

fn append_place(out: &mut Bytes, account: AccountId, domain: &Text) -> Result<(), OutOfMemory>
    requires { length domain.now < 2 ^ 8 }
    ensures { OnOk result (out.new.bytes ≡ out.old.bytes ++ place_bytes account domain.now) }
{
    let name = domain.as_str().as_bytes();
    out.append(&[account.0, name.len() as u8])?;
    out.append(name)
}

fn append_pair(out: &mut Bytes, pair: &Pair) -> Result<(), OutOfMemory>
    requires { IsLawfulPair pair.now }
    ensures { OnOk result (out.new.bytes ≡ out.old.bytes ++ pair_bytes pair.now) }
{
    append_text(out, &pair.name)?;
    append_text(out, &pair.value)
}

fn append_op(out: &mut Bytes, op: &Op) -> Result<(), OutOfMemory>
    requires { IsLawfulOp op.now }
    ensures { OnOk result (out.new.bytes ≡ out.old.bytes ++ op_bytes op.now) }
{
    match op {
        Op::AddPair(pair) => {
            out.append(&[0])?;
            append_pair(out, pair)
        }
        Op::DropPair(pair) => {
            out.append(&[1])?;
            append_pair(out, pair)
        }
        Op::DropName(name) => {
            out.append(&[2])?;
            append_text(out, name)
        }
        Op::DropAll => out.append(&[3]),
    }
}

fn append_ops(out: &mut Bytes, ops: &Ops) -> Result<(), OutOfMemory>
    requires { AreOps ops.now }
    ensures { OnOk result (out.new.bytes ≡ out.old.bytes ++ ops_bytes ops.now) }
{
    append_u16(out, ops.len() as u16)?;
    for op in ops.as_slice() {
        append_op(out, op)?;
    }
    Ok(())
}

fn append_change(out: &mut Bytes, change: &Change) -> Result<(), OutOfMemory>
    requires { IsLawfulChange change.now }
    ensures { OnOk result (out.new.bytes ≡ out.old.bytes ++ change_bytes change.now) }
{
    match change {
        Change::MakeDomain(account, domain) => {
            out.append(&[0])?;
            append_place(out, *account, domain)
        }
        Change::DropDomain(account, domain) => {
            out.append(&[1])?;
            append_place(out, *account, domain)
        }
        Change::Edit(account, domain, item, ops) => {
            out.append(&[2])?;
            append_place(out, *account, domain)?;
            append_text(out, item)?;
            append_ops(out, ops)
        }
    }
}

// How many bytes a text takes.
fn text_size(text: &Text) -> usize {
    text.as_str().len().saturating_add(2)
}

fn op_size(op: &Op) -> usize {
    match op {
        Op::AddPair(pair) | Op::DropPair(pair) => text_size(&pair.name)
            .saturating_add(text_size(&pair.value))
            .saturating_add(1),
        Op::DropName(name) => text_size(name).saturating_add(1),
        Op::DropAll => 1,
    }
}

fn ops_size(ops: &Ops) -> usize {
    let mut size: usize = 2;
    for op in ops.as_slice() {
        size = size.saturating_add(op_size(op));
    }
    size
}

fn change_size(change: &Change) -> usize {
    match change {
        Change::MakeDomain(_, domain) | Change::DropDomain(_, domain) => {
            domain.as_str().len().saturating_add(3)
        }
        Change::Edit(_, domain, item, ops) => domain
            .as_str()
            .len()
            .saturating_add(3)
            .saturating_add(text_size(item))
            .saturating_add(ops_size(ops)),
    }
}

fn changes_size(changes: &Changes) -> usize {
    let mut size: usize = 4;
    for change in changes.as_slice() {
        size = size.saturating_add(change_size(change));
    }
    size
}

/// The bytes of one lawful change.
pub fn write_change(alloc: Global, change: &Change) -> Result<Bytes, OutOfMemory>
    requires { IsLawfulChange change.now }
    ensures { IfOk result (λ made. made.bytes ≡ change_bytes change.now) }
{
    let mut out = Bytes::with_room(alloc, change_size(change))?;
    append_change(&mut out, change)?;
    Ok(out)
}

/// The bytes of lawful changes behind their number. The room for all of them is reckoned first.
pub fn write_changes(alloc: Global, changes: &Changes) -> Result<Bytes, OutOfMemory>
    requires { AreLawfulChanges changes.now }
    ensures { IfOk result (λ made. made.bytes ≡ spelling changes.now) }
{
    let mut out = Bytes::with_room(alloc, changes_size(changes))?;
    append_u32(&mut out, changes.len() as u32)?;
    for change in changes.as_slice() {
        append_change(&mut out, change)?;
    }
    Ok(out)
}
